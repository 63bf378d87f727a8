//! A trace of a life: an object of its script, its base, its journal and its answers, all of them texts.
//!
//! - `object`: the JSON object, read by `read_trace`, which finds the texts exactly where a value is `IsTrace` of some, or first by
//!   `read_line`, which reads a line as it is printed without making a value of it; and printed by `print_trace`.
//! - `base`: the state with which the life began, as the texts of its blocks: `base_texts` and `read_base`.
//! - `journal`: the calls of the life, each as the text of its step or of what a save makes, after the number of its lane: `call_texts` and
//!   `read_calls`.
//! - `answers`: the answers of the life, each at the place of its call: `answer_texts`. Its `laws` say that they are those of the machine's
//!   answers to the calls of the journal, and that each of these calls can be printed.
//!
//! It depends on `serde_json` and `json` for the object, on `flt_image` and `hex` for blocks, on `flt_step` for the words of
//! steps, on `flt_script` for their grammar, on `flt_life_model` for lives and the call that a step makes, and on `flt_report` for the words of answers. Read `specs/Trace.antt`
//! first, then `Base`, `Call` and `Answered`.
#![tactic(auto)]

mod answers;
mod base;
mod journal;
mod object;
mod text;

pub use answers::{answer_texts, laws};
pub use base::{base_texts, read_base};
pub use journal::{call_texts, read_calls};
pub use object::{LifeTexts, Trace, print_trace, read_line, read_trace};
