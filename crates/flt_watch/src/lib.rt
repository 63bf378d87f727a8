//! A watch: a script of one life, which is made without a store on a lock over the watched status machine. Its subscribers are called at each
//! change of a status byte, by the call that makes it.
//!
//! It depends on `flt_notify` for the machine under the lock, on `flt_lane` for the life and its lanes, and on `flt_report` for reading the script
//! and writing the lines of the life. What it has of its own is which scripts it makes, what it prints and how it ends. The layer above makes one
//! call, `watch`, whose one clause says whole what it leaves: `specs/Watch`. Read `specs/Watched` (the life) and `specs/Text` (its lines) before it.
#![tactic(auto)]

mod asking;
mod keeping;
mod life;
mod lock;
mod telling;
mod watching;

pub use keeping::{NoStore, WatchGate, run_beside};
pub use lock::{WatchEnd, WatchLock, WatchSeat};
pub use watching::{WatchOutcome, watch};
