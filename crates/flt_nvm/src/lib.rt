//! Blocks by identifier over a driver of numbered blocks: native ones, redundant ones of two copies, and datasets of several
//! indices.
//!
//! It depends on `flt_flash`, whose trait `Blocks` is all that it knows of a driver. The layer above uses `Nvm`: each job on one
//! block of the driver is tried three times, so a fault of the flash comes only where the count of faults rose by three. Read
//! `specs/Table.antt` first (the table of blocks), then `specs/Tries.antt` (a job), `specs/Leaves.antt` (what it leaves) and
//! `specs/Blocks.antt` (what a call leaves, by the kind of its block).
#![tactic(auto)]

mod got;
mod job;
pub mod laws;
mod nvm;
mod table;

pub use got::Got;
pub use nvm::Nvm;
pub use table::{BlockCfg, Kind};
