//! What lies under the lock.
ghost use Rattle.std.specs.Prelude.{reverse};
ghost use Rattle.flt_queue.specs.Call.{reply_after};
ghost use Rattle.flt_queue.specs.Queue.{IsQueueCallFor};
ghost use Rattle.flt_queue.specs.Reply.{job_reply_with};
ghost use Rattle.flt_queue.specs.Stands.{QueueStands};

use crate::job::{Job, QueueKind, QueueOp, QueueReply};
use crate::queue::JobQueue;
use flt_turn::{Machine, Stepper};

/// The queue of write jobs. It is boxed, since it goes out of the lock's slot and back with each call.
#[derive(Drop)]
pub struct BoxedQueue {
    pub(crate) queue: Box<JobQueue>,
}

impl Machine for BoxedQueue {
    type Start = u8;

    type Op = QueueOp;

    ghost some_start = { 0 };

    ghost start = { λ guarded. guarded.queue.value.blocks };

    ghost admits = { IsQueueCallFor };

    ghost stands_for = { λ guarded blocks ops. QueueStands blocks (reverse ops) guarded.queue.value };
}

impl Stepper<Job> for BoxedQueue {
    type Context = ();

    type Kind = QueueKind;

    type Whole = QueueReply;

    ghost serves = { λ _ _. Unit {0} };

    ghost suits = { λ _. Unit {0} };

    ghost whole = { λ kind job. job_reply_with kind job };

    ghost answer = { reply_after };

    #[inline(always)]
    fn step(&mut self, _context: &(), op: &QueueOp, job: &mut Job) -> QueueKind {
        self.queue.apply_into(op, job)
    }
}
