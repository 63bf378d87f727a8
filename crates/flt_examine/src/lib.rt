//! A reader of dumps and traces: `inspect` reports what the image of a dump holds, and lists it line by line; `trace` prints the last life
//! of a script as JSON; `audit` says whether the answers of a trace are those of the status machine.
//!
//! It depends on `flt_dump` for the dump and its image, on `flt_filter` for the input and what is reported about it, on `flt_report` for the
//! text of a refusal, on `flt_run` and `flt_trace` for the trace, and on `flt_audit` for the audit. The program above makes one
//! call, `examine`, over the real streams, and a test makes it over streams in memory. Read `specs/Examination.antt` first, then
//! `Inspection` and `Traced`.
#![tactic(auto)]

mod command;
mod examining;
mod inspecting;
mod source;
mod tracing;
pub mod worked;

pub use examining::{Examined, examine};
pub use inspecting::inspect;
