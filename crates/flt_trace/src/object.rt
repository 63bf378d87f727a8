//! The object of a trace, as JSON: read, and printed as one line.
mod printing;
mod reading;
mod tokens;
mod trace;

pub use printing::print_trace;
pub use reading::read_trace;
pub use tokens::read_line;
pub use trace::{LifeTexts, Trace};
