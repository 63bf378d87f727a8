//! A whole input that is judged: it is read to its end, and a status and a text are reported about it.
//!
//! It depends on `flt_io`. A reader above makes a `Verdict` of the bytes as a `Judge`, and `answer` does the rest; one that has more to make of
//! them is given them by `read_input`, and hands its `Verdict` to `tell`.
//! Read `specs/Verdict.antt` first: `Tells` says whole what a reader answers, by what its definition makes of the bytes that came.
#![tactic(auto)]

mod answering;
mod reading;
mod telling;
mod verdict;
pub mod worked;

pub use answering::{Judge, answer};
pub use reading::{InputFault, read_input};
pub use telling::tell;
pub use verdict::Verdict;
