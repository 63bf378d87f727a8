//! The status machine under the ticket lock: each call is answered at its own place of one journal, whichever lane makes it.
//!
//! It depends on `flt_turn` and `flt_dcm`. What lies under the lock calls no function: the table of data identifiers is beside the
//! lock, and is lent to each call. The layer above uses the calls of `DemLock`, or `call_into` and `snapshot_into`, whose answers are small,
//! each with the one word `IsCall`. Read `specs/Call.antt` first.
#![tactic(auto)]

mod guarded;
pub mod laws;
mod lock;
mod state;

pub use flt_dcm::{Cause, DemStart, Op, Reply, ReplyKind, Shown};
pub use guarded::{BoxedUnit, Guarded};
pub use lock::{DemAnswer, DemEnd, DemLock, DemSeat};
pub use state::no_state;
