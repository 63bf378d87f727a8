//! The script of a run: what is configured, and what is done.
//!
//! It depends on `flt_io` (the source of a script and the sink of its fault), on `flt_config` (whose check of a configuration ends the
//! reading), on `flt_did` (whose table has the data identifiers that events may use), on `flt_step` (whose steps and parts a script has),
//! and on `flt_model` and `flt_flash` (the reports, the requests and the faults that steps name).
//!
//! The layer above calls `fetch`, which reads the script of a source, or `parse`, which reads one from bytes. By its clause `exact`,
//! `parse` answers, for all bytes, the script or the first fault that the definition `script_of` gives; by `served`, the table has what
//! the events use; and the type `Script` keeps what the steps have in common. `load` makes the script of a load, which no text spells.
//! `write_unread` and `write_script_fault` write why there is no script. `read_step` reads one step by itself, and `read_alone` any line
//! after a configuration that is closed; `next_line` takes the first line off a text, and `place_of_feed` and `without_return` find where
//! one ends.
//!
//! Read `specs/Text` first, then `specs/Said` and `specs/Line` (a line by itself), `specs/Behind` (what the lines before a line gave),
//! `specs/Refusal` (a line against those), `specs/Script` (the whole), `specs/Fetched` (the script of a source) and `specs/Load`.
//! `docs/SCRIPT.md` describes the language in plain words.
#![tactic(auto)]

mod alone;
mod arm;
mod block;
mod bytes;
mod did;
mod draft;
mod event;
mod fault;
mod fetching;
mod keyword;
mod lane;
pub mod laws;
mod line;
mod loading;
mod numeral;
mod pair;
mod parsing;
mod places;
mod refusing;
mod script;
mod text;

pub use alone::{AloneLine, next_line, read_alone, read_step};
pub use fault::{LineCause, LineFault, ParseFault, ScriptFault};
pub use fetching::{Fetched, fetch};
pub use loading::load;
pub use numeral::read_number;
pub use parsing::parse;
pub use refusing::{put_script_fault, write_script_fault, write_unread};
pub use script::Script;
pub use text::{place_of_feed, without_return};
