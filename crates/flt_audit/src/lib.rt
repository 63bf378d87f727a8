//! The audit of a trace: whether each answer in it is that of the status machine to its call, after the calls before it.
//!
//! It depends on `flt_filter` for the input and the verdict, on `flt_trace` for the JSON, the state and the
//! calls of the life, on `flt_script` for the script, on `flt_dcm`, whose machine makes the calls again, and on `flt_report` for the texts
//! of answers. The program above calls `audit`; read `specs/Audit.antt` first, then `specs/Shape.antt`.
#![tactic(auto)]

mod auditing;
mod replay;

pub use auditing::audit;
