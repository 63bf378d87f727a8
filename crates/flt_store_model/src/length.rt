//! How many bytes the blocks of an image have.

/// The bytes of the mark.
pub const MARK_LENGTH: usize = 8;

/// The most bytes of a commit: those of one in version 1.
pub const COMMIT_LENGTH: usize = 26;

/// The bytes of a commit in version 2.
pub const COMMIT_LENGTH_2: usize = 10;

/// The bytes of the summary.
pub const SUMMARY_LENGTH: usize = 32;

/// The states of one block.
pub const STATES_PER_BLOCK: usize = 16;

/// The bytes of a block of states.
pub const STATES_LENGTH: usize = 64;

/// The bytes of an entry.
pub const ENTRY_LENGTH: usize = 68;

/// The most bytes of an application block.
pub const APPLICATION_LENGTH: usize = 32;
