//! The diagnostic communication of the fault memory (ISO 14229-1, services 0x10, 0x14, 0x19, 0x3E and 0x85, in this
//! profile): the sessions of four testers, the responses to their requests, and the whole status machine.
//!
//! It depends on `flt_dem` and `flt_uds`. The layer above uses `Unit::apply_into`, or `apply`, which returns a whole answer, and `persist`
//! for a snapshot, or those of `UnitState`, to which the table of data identifiers is lent: if a unit stands for a base and the calls so far, then
//! after a call it stands for them and that call, and its answer is the specified one. Read `specs/Unit` first.
#![tactic(auto)]

pub mod laws;
mod listing;
mod record;
mod response;
mod session;
mod state;
mod unit;

pub use flt_model::{Cause, DemStart, Op, Reply, Shown};
pub use state::{ReplyKind, TESTERS, UnitState};
pub use unit::Unit;
