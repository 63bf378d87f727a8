//! The whole program as one call: a run over a flash or over an EEPROM, or a watch.
//!
//! It depends on `flt_run` and `flt_watch`. The program above makes the one call `program` over the real streams, and a test makes it over
//! streams in memory. Its clause is that of the call which the words ask for: `specs/Words` says which, and `specs/Program` how it ends.
#![tactic(auto)]

mod choosing;
mod invocation;

pub use choosing::{Ended, program};
pub use flt_lane::OpenGate;
pub use invocation::Invocation;
