//! The event manager (AUTOSAR Dem in outline): what reports, ticks and operation cycles make of the
//! events, of the fault memory and of the noted events. It depends on `flt_debounce`, `flt_status`,
//! `flt_memory` and `flt_did`. The layer above uses the calls of `DemState`, or of `Dem`, which keeps the
//! table of data identifiers beside it: if a manager stands for a base and the calls so far, then after a
//! call it stands for them and that call, and its answer is the specified one. Read `specs/Manager` first.
#![tactic(auto)]

mod conditions;
mod dem;
mod durable;
mod events;
pub mod laws;
mod notes;
mod state;

pub use dem::Dem;
pub use flt_model::{Cause, Shown};
pub use notes::Which;
pub use state::DemState;
