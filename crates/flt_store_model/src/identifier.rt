//! The identifiers of the blocks of an image (this profile), and the numbers under which the driver keeps them.

/// The block of the mark.
pub const MARK_ID: u16 = 1;

/// The redundant block of the commit.
pub const COMMIT_ID: u16 = 2;

/// The first block of a part of a generation: that of the summary.
pub const FIRST_PART: u16 = 3;

/// The first block of states.
pub const FIRST_STATES: u16 = 4;

/// The number of blocks of states before the entries: those of the events up to 63.
pub const STATES_BLOCKS: u16 = 4;

/// The first block of an entry.
pub const FIRST_ENTRY: u16 = 8;

/// The first block of states after the entries: that of the events from 64 on.
pub const LATER_STATES: u16 = 24;

/// The number of blocks of states after the entries.
pub const LATER_STATES_BLOCKS: u16 = 12;

/// The identifier after the last part's.
pub const END_PART: u16 = LATER_STATES + LATER_STATES_BLOCKS;

/// The first application block.
pub const FIRST_APPLICATION: u16 = 64;

/// The number of application blocks that the driver keeps.
pub const APPLICATIONS: u16 = 40;

/// How many of the driver's numbers belong to a block: the first is that of its copy 1 or index 0, the next ones of the others.
pub const NUMBERS_PER_BLOCK: u16 = 8;

/// The number of the mark.
pub const MARK_NUMBER: u16 = MARK_ID * NUMBERS_PER_BLOCK;

/// The number of the first copy of the commit.
pub const FIRST_COMMIT: u16 = COMMIT_ID * NUMBERS_PER_BLOCK;

/// The number of the second copy of the commit.
pub const SECOND_COMMIT: u16 = FIRST_COMMIT + 1;
