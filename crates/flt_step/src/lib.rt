//! The steps of a script and its parts: their words, the ranges of their numbers, and where they are allowed.
//!
//! It depends on `flt_model`, which declares the reports and bounds a request, and on `flt_flash`, which declares the faults that a
//! step arms. The layers above make lives of parts (`flt_life_model`), and read them from a text (`flt_script`). `put_words` puts the
//! words of a step, and by its clause `ok` exactly `step_text` of `specs/Words`; `put_number`, `put_bytes` and their like put parts of
//! a line where room was reserved. Digits are written by hand and not by the formatter, since a report has a line for each step.
//! Read `specs/Step` first (the ranges of a step), then `specs/Part` (a step, or a block of lanes) and `specs/Words`.
#![tactic(auto)]

mod digits;
mod step;
mod words;

pub use digits::{put_byte, put_bytes, put_number, put_signed, put_text};
pub use step::{BLOCK_BYTES, Part, Step};
pub use words::{pattern_word, put_words};
