//! The state that survives a power cut.
ghost use Rattle.std.specs.Prelude.{◌≡◌};

use crate::{ENTRIES, EVENTS, FRAME};
use arrayvec::ArrayVec;

/// The bytes of an event's data identifiers at one moment, one value after another, each big-endian.
pub type Frame = ArrayVec<u8, FRAME>;

/// What is kept of one event.
#[derive(Clone, Copy, PartialEq, Eq, Debug, Default)]
pub struct EventState {
    /// The status byte of the DTC (ISO 14229-1).
    pub status: u8,
    /// The number of cycles in which the event failed since the last clean one, at most 255.
    pub failed: u8,
    /// The number of clean cycles that ended since the last failure, at most 510.
    pub clean: u16,
    /// Whether the event lights the warning indicator until it heals.
    pub lit: bool,
}

/// The state of an event that was not tested since it was cleared: only bits 4 and 6 of its status are set (ISO 14229-1).
pub const UNTESTED: EventState = EventState {
    status: 0x50,
    failed: 0,
    clean: 0,
    lit: false,
};

/// One entry of the fault memory.
#[derive(Clone, Drop, PartialEq, Eq, Debug, Default)]
pub struct EntryState {
    /// The number of its event.
    pub event: u16,
    /// How often the event occurred since the entry was added, 1 to 255.
    pub occurrence: u8,
    /// The frame of the first occurrence.
    pub first: Frame,
    /// The frame of the most recent occurrence.
    pub recent: Frame,
}

/// The whole state that is saved.
#[derive(Clone, Drop, PartialEq, Eq, Debug)]
pub struct Persist {
    /// One state for each event, by number.
    pub events: ArrayVec<EventState, EVENTS>,
    /// The entries, of distinct events, in the order in which they were added.
    pub entries: ArrayVec<EntryState, ENTRIES>,
    /// Whether an event found the fault memory full since the last clear of all.
    pub overflow: bool,
    /// The first event whose test failed.
    pub first_failed: Option<u16>,
    /// The first event that was confirmed.
    pub first_confirmed: Option<u16>,
    /// The most recent event whose test failed.
    pub recent_failed: Option<u16>,
    /// The most recent event that was confirmed.
    pub recent_confirmed: Option<u16>,
}

impl Persist {
    /// A copy of this state, which takes no memory.
    #[inline(always)]
    pub fn twin(&self) -> Persist
        ensures { result ≡ self.now }
    {
        self.clone().unwrap()
    }
}
