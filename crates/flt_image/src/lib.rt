//! The bytes of the blocks of a generation: written from a durable state, and read again with every form and fit distinguished.
//!
//! It depends on `flt_config`, on the definitions of `flt_store_model`, and for the table of blocks on `flt_nvm`. The store
//! above writes with the `put` calls and reads with the `get` calls, which answer as `specs/Reading` of `flt_store_model`
//! says. Read there `specs/Layout` and `specs/Form` first; here `specs/Taking` says what a block that is read leaves.
#![tactic(auto)]

mod block;
mod blocks;
mod commit;
mod entry;
pub mod laws;
mod layout;
mod mark;
mod numbers;
mod pushing;
mod states;
mod summary;
mod table;

pub use block::{get_block, put_block};
pub use blocks::{LONGEST, StateBlocks};
pub use commit::{get_commit, next_commit, put_commit, put_commit_1};
pub use flt_store_model::{Commit, Mark};
pub use layout::{is_used, part_of, used_ids};
pub use mark::{get_mark, mark_of, put_mark, put_mark_1};
pub use numbers::fee_numbers;
pub use pushing::BlockBytes;
pub use table::block_table;
