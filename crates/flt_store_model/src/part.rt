//! The parts of a generation.
ghost use Rattle.std.specs.Prelude.{◌≡◌, ◌≤◌};
ghost use Rattle.flt_store_model.specs.Form.{part_length};

use crate::length::{ENTRY_LENGTH, STATES_LENGTH, SUMMARY_LENGTH};

/// Which part of a durable state a block of a generation holds.
#[derive(Clone, Copy, Debug, PartialEq, Eq)]
pub enum Part {
    /// The overflow flag, the number of entries and the noted events.
    Summary,
    /// The states of sixteen events, beginning with the event `first`.
    States { first: u16 },
    /// The entry at `place` of the list, from 0.
    Entry { place: u16 },
}

impl Part {
    /// The number of bytes of the part; an entry has the most.
    pub fn byte_length(self) -> usize
        ensures value { result ≡ part_length self }
        ensures most { result ≤ ENTRY_LENGTH }
    {
        match self {
            Part::Summary => SUMMARY_LENGTH,
            Part::States { .. } => STATES_LENGTH,
            Part::Entry { .. } => ENTRY_LENGTH,
        }
    }
}
