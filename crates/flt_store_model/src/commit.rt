//! The block that names a generation.
ghost use Rattle.std.specs.Prelude.{◌≡◌, ◌≤◌, ◌<◌};
ghost use Rattle.flt_store_model.specs.Layout.{first_part, end_part, index_in};

use crate::identifier::{END_PART, FIRST_PART, LATER_STATES};

/// The number of blocks that a commit has an index for: those with the identifiers 3 to 35.
pub const INDICES: usize = (END_PART - FIRST_PART) as usize;

/// The number of those that a commit of version 1 has an index for: those with the identifiers 3 to 23.
pub const FIRST_INDICES: usize = (LATER_STATES - FIRST_PART) as usize;

/// The number of the last generation: no other follows it.
pub const LAST_NUMBER: u32 = u32::MAX;

/// The number of a generation, and the index at which each of its blocks is.
#[derive(Clone, Copy, Debug, PartialEq, Eq)]
pub struct Commit {
    /// The number of the generation, at least 1.
    pub generation: u32,
    /// For the block 3 and the next ones: the index 0 or 1 of a used block, 0xFF of one that is not used.
    pub index: [u8; INDICES],
}

impl Commit {
    /// The index at which the commit names the block of a part: 0 or 1, and 0xFF for one that is not used.
    pub fn index_of(&self, id: u16) -> u8
        requires first { first_part ≤ id }
        requires end { id < end_part }
        ensures { result ≡ index_in self.now id }
    {
        self.index[(id - FIRST_PART) as usize]
    }
}
