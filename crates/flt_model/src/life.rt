//! What a life of the controller starts from.
use flt_config::{Config, Persist};

/// What a life of the controller starts from: its configuration, and the durable state that was
/// restored at power-up.
#[derive(Clone, Drop, PartialEq, Eq, Debug)]
pub struct DemStart {
    pub config: Config,
    pub base: Persist,
}
