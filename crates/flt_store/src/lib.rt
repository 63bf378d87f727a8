//! Saved generations of the durable state: start-up, saves, and the application blocks, over the blocks of any driver.
//!
//! It depends on `flt_nvm`, by whose calls it reads and writes, on `flt_image` for the bytes, and on the definitions of
//! `flt_store_model`. The contract that the layer above uses is `Store`'s: whatever operation of the device fails, the image
//! names the generation before or the new one. Read `specs/Store` first, then `specs/Saving` and `specs/Starting`.
#![tactic(auto)]

mod fault;
mod generation;
pub mod laws;
mod restarting;
mod store;

pub use fault::{PutFault, SaveFault};
pub use flt_restore::StartFault;
pub use flt_store_model::{Mark, Place};
pub use store::Store;
