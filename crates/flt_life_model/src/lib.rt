//! The lives of a controller, each from one power-up to the next: the calls that a step makes and its answer, and what a life
//! leaves of the image that it found.
//!
//! This crate has the definitions of the chain of lives, over any machine that keeps blocks, the types that describe a life, and the
//! room that a life needs for its calls and its answers.
//! It depends on `flt_script` for the steps, on `flt_model`, `flt_turn` and `flt_fork` for the calls and their answers, on `flt_queue`
//! for the write jobs, and on the storage for what an image holds. The layers above make lives: without a lock, and in lanes. Read
//! `specs/Played` first (which calls the parts of a life make, and how each step is answered), then `Chain` (what holds of a life and
//! its two power-ups), `Journal`, `Saving` and `Causes`, and `Going` and `SoFar` for what holds in the midst of a life; `Making` holds for
//! any machine and any kind of steps, and so does `Mixing` of `flt_fork`.
#![tactic(auto)]

mod action;
mod answer;
pub mod laws;
mod life;
mod possible;
mod replies;
mod room;
pub mod worked;

pub use action::{Action, action_of, call_count, queue_count, response_size};
pub use answer::{KeptAnswer, KeptQueueReply, KeptReply, KeptResponse, StepAnswer};
pub use flt_turn::{Answer, Entry};
pub use life::{Boot, Life};
pub use possible::are_possible;
pub use replies::LaneReplies;
pub use room::{CallRoom, LaneRoom, LifeRoom, life_of};
