//! What an image holds, read over blocks by kind: the generation that it names, or why it names none.
//!
//! It depends on `flt_nvm`, whose reads it makes, and on the definitions of `flt_store_model`, by which it judges. The store
//! above starts up by `restore`, whose contract is in `specs/Restored`: the answer is what the image holds, or, if the first
//! copy of the commit can't be read, what it holds by the second. `judge` is the same, but ignores the sequence number. After a
//! failed save the store learns the bytes of the blocks that a commit names by `read_blocks` (`specs/Learning`). Nothing here
//! writes a block. In `worked` are reads that failed, and which of them are of a block that a start-up needs.
#![tactic(auto)]

mod commit;
mod fault;
mod generation;
mod judging;
mod lengths;
mod named;
mod pages;
mod reading;
mod restoring;
pub mod worked;

pub use commit::{CommitCopy, Restored};
pub use fault::StartFault;
pub use named::read_blocks;
pub use restoring::{judge, restore};
