//! The entries of the fault memory: which event has one, what it holds, and which gives way in a full
//! memory (AUTOSAR Dem in outline; the rule is this profile's). It depends on `flt_config` and on the
//! definitions of `flt_model`. The layer above uses `EventMemory::store`, which does what `specs/Store`
//! says: read that first, then `specs/Displacement`.
#![tactic(auto)]

mod memory;
mod rank;

pub use memory::{EventMemory, Stored};
