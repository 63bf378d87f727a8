//! What the blocks of an image, and the whole image of a flash, say of saved generations: definitions, over any map from a
//! driver's numbers to contents, and over the pages.
//!
//! It depends on `flt_config`, whose durable state a generation is, on `flt_flash`, whose `Content` a block holds, and on
//! `flt_sector_model`, by which the pages of an image have a first fault and give each block its content. The
//! byte forms of `flt_image` and the generations of the store state their contracts by these definitions. Read
//! `specs/Layout` first (which block holds what), then `specs/Form` (its bytes), `specs/Reading` (which bytes are accepted) and
//! `specs/Holding` (which generation an image holds, and where it is damaged); `specs/Successor` has what a save writes. `laws`
//! say that what is read is what the blocks hold, and that the reported fault is the first of all that exist; `specs/Faults` states
//! each of them on its own.
//!
//! `specs/Image` has the whole image: a fault of the pages is reported before any of the blocks (`image_held`, `image_spare`), and an
//! image is sound where it has none and holds two generations that are one or follow each other (`IsSoundImage`). `specs/Whole`
//! says the same of any device that gives its first fault and its blocks, and `image_laws` what it comes to. The examples of
//! `worked` are maps of blocks, and images, with what they hold.
#![tactic(auto)]

mod commit;
mod identifier;
pub mod image_laws;
pub mod laws;
mod length;
mod mark;
mod part;
mod place;
pub mod worked;

pub use commit::{Commit, FIRST_INDICES, INDICES, LAST_NUMBER};
pub use identifier::{
    APPLICATIONS, COMMIT_ID, END_PART, FIRST_APPLICATION, FIRST_COMMIT, FIRST_ENTRY, FIRST_PART,
    FIRST_STATES, LATER_STATES, LATER_STATES_BLOCKS, MARK_ID, MARK_NUMBER, NUMBERS_PER_BLOCK,
    SECOND_COMMIT, STATES_BLOCKS,
};
pub use length::{
    APPLICATION_LENGTH, COMMIT_LENGTH, COMMIT_LENGTH_2, ENTRY_LENGTH, MARK_LENGTH, STATES_LENGTH,
    STATES_PER_BLOCK, SUMMARY_LENGTH,
};
pub use mark::Mark;
pub use part::Part;
pub use place::Place;
