//! Subscribers of status changes: stored functions that are called, under the lock, with each change of an event's status byte.
//!
//! It depends on `flt_shared`, whose machine it watches. The functions lie beside the lock, as those of data identifiers do, and their
//! values, which are state, lie in the machine under it. The layer above puts `Watched` under a lock of `flt_turn`: whenever it stands
//! for a base and some calls, each value is that of the changes which these calls make. Read `specs/Changes` and `specs/Value` first.
#![tactic(auto)]

mod change;
mod kinds;
mod row;
mod subscribers;
mod table;
mod values;
mod watched;
pub mod worked;

pub use change::Change;
pub use kinds::{KINDS, note_0, note_1, note_2};
pub use row::Subscriber;
pub use subscribers::Subscribers;
pub use table::{SubFault, SubTable};
pub use watched::{Lent, Watched};
