//! What a life of lane 0 has come to so far.
use flt_life_model::{Entry, LaneReplies};
use flt_model::Op;

/// The calls of a life and the answers to its steps, as far as they are made.
#[derive(Drop)]
pub(crate) struct Account {
    pub(crate) journal: Vec<Entry<Op>>,
    pub(crate) replies: LaneReplies,
}
