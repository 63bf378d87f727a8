//! Lanes forked from the main seat of a lock and joined with it again, whatever machine is under the lock.
//!
//! It depends on `flt_turn` alone, and knows neither the status machine nor a queue or a store. The layers above say which calls a step
//! makes, and what it is answered; what a journal has of the lanes then is said in `specs/Mixing.antt` (the order of calls), `Making.antt`
//! (which calls are those of steps), `Lived.antt` (what a closed lock says of its lanes) and `Runs.antt`. Read these first, in this order.
//! How the lanes of a block get their seats and give them back, one after the other, is said in `specs/Passed.antt`.
#![tactic(auto)]

mod beside;
mod passing;

pub use beside::{Owned, Work, work_beside, work_first};
pub use passing::{Passing, pass_all};
