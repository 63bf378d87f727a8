//! A ticket lock over a machine. Calls are served in the order of their tickets, and each has its own place in one journal.
//!
//! It depends on `atomic_table` alone: two words, the next ticket and the ticket that is served, and one slot, which holds the
//! machine and its journal. The layer above uses the contract of `Turn::call`: the reply is the machine's answer after the
//! operations before the call's place in the journal. `Turn::close` gives back the whole journal with the machine.
//! Read `specs/Seats.antt` first, which says what a seat knows of its lock, and then `docs/LOCK.md`.
#![tactic(auto)]

mod answer;
pub mod laws;
mod machine;
mod rule;
mod seat;
mod turn;
mod vault;
mod view;

pub use answer::{Answer, HistoryFull, MachineBack};
pub use machine::{Machine, Stepper};
pub use seat::Seat;
pub use turn::Turn;
pub use vault::{Entry, Vault};
