//! A life of the controller: how it began, its calls, and its answers.
use crate::replies::LaneReplies;
use flt_config::Persist;
use flt_model::Op;
use flt_queue::QueueOp;
use flt_store::StartFault;
use flt_turn::Entry;

/// How a life began.
#[derive(Drop)]
pub enum Boot {
    /// The generation of this number was restored, and the life starts from its state.
    Started { generation: u32, start: Persist },
    /// The device failed three times in one job of the start-up.
    Dark,
    /// The image is damaged, of another configuration, or has no sequence number left.
    Refused(StartFault),
}

/// A life: how it began, the calls that it made, and the answers to its steps, each in their order.
#[derive(Drop)]
pub struct Life {
    /// How its power-up ended.
    pub boot: Boot,
    /// The calls that were carried out under the lock, each with the number of its lane; empty in a life that was not started.
    pub journal: Vec<Entry<Op>>,
    /// The calls of the queue of write jobs, in the same form.
    pub queue: Vec<Entry<QueueOp>>,
    /// The answers in the order of the lanes, lane 0 first; empty in a life that was refused.
    pub replies: Vec<LaneReplies>,
}
