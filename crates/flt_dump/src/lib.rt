//! A dump of a flash: a configuration and the pages of an image, as text; and what that image holds.
//!
//! It depends on `flt_script`, by which the configuration is read, on the driver `flt_fee` and on `flt_restore`, by which an image is
//! judged. The layer above reads a dump by `read_dump`, whose clause gives for all bytes the dump or the first fault that `dump_of`
//! gives, and asks by `look_into` what its image holds. Read `specs/Dump.antt` first, then `specs/Listing.antt`.
#![tactic(auto)]

mod copy;
mod dump;
mod held;
mod lines;
mod listing;
mod pages;
mod reading;
pub mod worked;

pub use dump::{Dump, DumpFault};
pub use held::{Insight, look_into};
pub use reading::read_dump;
