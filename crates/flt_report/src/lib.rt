//! The lines of a life, written to a sink; and these lines one by one, each put after what a vector of bytes holds.
//!
//! It depends on `flt_io` for the sink, on `flt_step` for the steps and their words, and on `flt_life_model` for the
//! answers and for how a life began. The layer above writes the lines of a life by `write_life` (`specs/Life`). Single lines are put by
//! `put_step` and `put_boot`, and for a block of lanes by `put_par`, `put_lane` and `put_end`: by their clauses `ok` they put
//! exactly the line of `specs/Answer`, `specs/Boot` or `specs/Block`, and by `err`, where memory is short, a front of it. `put_reply`
//! and `put_kept_reply` put the reply to a call, and `put_refused` why an image holds nothing. `status_by` is the status of a run by how its last life began. Read `specs/Answer` first.
#![tactic(auto)]

mod answer;
mod block;
mod boot;
mod step;
mod writing;

pub use answer::{put_kept_reply, put_reply};
pub use block::{put_end, put_lane, put_par};
pub use boot::{put_boot, put_refused, status_by};
pub use step::put_step;
pub use writing::{write_life, write_text};
