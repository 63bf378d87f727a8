//! The queue of write jobs, as a machine and under the ticket lock.
//!
//! It depends on `flt_turn`. Urgent jobs are taken before standard ones, and of each kind the oldest first; a block has at most one job
//! that is not done, and at most 32 jobs wait. The layer above uses the four calls of `QueueLock`; a job that is taken is written where
//! the caller wants it, so that no answer under the lock has its size. Read `specs/Queue.antt` first.
#![tactic(auto)]

mod boxed_queue;
mod job;
pub mod laws;
mod lock;
mod queue;

pub use boxed_queue::BoxedQueue;
pub use job::{
    BLOCKS, BYTES, Job, LastResult, QueueKind, QueueOp, QueueReply, QueueReplyOf, WAITING,
};
pub use lock::{QueueAnswer, QueueEnd, QueueLock, QueueSeat, QueueTold};
pub use queue::JobQueue;
