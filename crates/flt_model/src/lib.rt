//! The meaning of the status machine of a fault memory: definitions, the types that they use, and laws about them.
//!
//! It depends on `flt_config`, whose types and ranges the definitions cite. Every crate of the status machine
//! is proved against `specs/Answer` (the answer to a call after a list of calls) and
//! `specs/Durable` (what is saved after it); no other crate states a rule of the machine. Read `specs/Start`,
//! `specs/Mark` and `specs/Status` first; `docs/MODEL.md` describes the machine in plain words.
#![tactic(auto)]

mod call;
pub mod laws;
mod life;
mod request;
mod status;
pub mod worked;

pub use call::{Cause, DebState, Op, Qualified, Reply, ReplyOf, Report, Shown};
pub use life::DemStart;
pub use request::{Asked, Negative, Request};
pub use status::{Rank, Status};

/// The most bytes of a request.
pub const REQUEST: usize = 16;

/// The most bytes of a response.
pub const RESPONSE: usize = 1_040;
