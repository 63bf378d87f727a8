//! The lanes of a life under the lock: lane 0 makes the steps by themselves, with a store where it has one, and the lanes of each block
//! make theirs at the same time as one another, at most one of them with the store.
//!
//! It depends on `flt_fork` for lanes at once, on `flt_shared` and `flt_queue` for the locks, on `flt_store`, and on `flt_life_model` for
//! the types of a life and for what goes on in it. A layer above makes one call, `live`: `flt_run` with a store, on the lock of the status
//! machine, and `flt_watch` without a store, on a lock of its own. What is under the lock is a `StatusLock`, and what lane 0 has beside its
//! seats a `LifeStore`. `specs/Played.antt` of `flt_life_model` says what the journal and the answers of a life are. Read `specs/Keeping.antt`
//! first (what is asked of a store, and what is left of it), then `specs/Living.antt` (what the saves leave while a life goes on),
//! `specs/Block.antt` and `specs/Parts.antt`. What holds of lanes over any machine is in `flt_fork`.
#![tactic(auto)]

mod block;
mod drain;
mod gate;
mod keeping;
mod lane;
mod life;
mod living;
mod locks;
mod room;
mod step;

pub use gate::{Gate, OpenGate, SharedGate};
pub use keeping::LifeStore;
pub use lane::{LaneOf, LaneWork, run_block};
pub use life::live;
pub use living::LifeAnswers;
pub use locks::{Common, Locks, LocksOf, Seats, SeatsOf, StatusLock};
pub use step::make_call;
