//! The durable state of one event: how each mark changes its status byte (ISO 14229-1, DTC status
//! bits) and its counts, healing and aging (this profile). It depends on the definitions of `flt_model`.
//! The layer above uses the five calls: if a state stands for a base and some marks, then after a call it
//! stands for one mark more. Read `specs/Status` of `flt_model` first, then `specs/Standing`.
#![tactic(auto)]

pub mod laws;
mod step;

pub use flt_config::{EventCfg, EventState};
pub use step::{FailedMark, clear, cycle, displaced, failed, passed};
