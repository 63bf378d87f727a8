//! A drain: jobs are taken from the queue, written, and noted as done.
ghost use Rattle.std.specs.Prelude.{◌≡◌, ◌≤◌};
ghost use Rattle.flt_config.specs.declared.config.Config.{Config};
ghost use Rattle.flt_life_model.specs.declared.action.Action.TheVariants as action;
ghost use Rattle.flt_queue.specs.Call as queued;
ghost use Rattle.flt_queue.specs.Queue.{IsJob};
ghost use Rattle.flt_queue.specs.declared.job.QueueOp.TheVariants as ops;
ghost use Rattle.flt_queue.specs.Reply.{QueueReply as Replied};
ghost use Rattle.flt_turn.specs.declared.answer.Answer.{Answer};
ghost use Rattle.flt_step.specs.declared.step.Step.TheVariants as steps;
ghost use Rattle.flt_store.specs.Store.{IsAlive};
ghost use Rattle.flt_shared.specs.Call.{Seat};
ghost use Rattle.flt_turn.specs.Seats as turn;
ghost use Rattle.flt_life_model.specs.Draining.{WritesJob};
ghost use Rattle.flt_lane.specs.Draining.{LooksForJob};
ghost use Rattle.flt_lane.specs.Stepped.{HasRoomForAnswer, TakesStep};
ghost use Rattle.flt_lane.specs.Work.{CanDrain};

use flt_config::ValidConfig;
use flt_flash::Blocks;
use flt_life_model::{LaneReplies, StepAnswer};
use flt_queue::{Job, QueueKind, QueueLock, QueueSeat, WAITING};
use flt_store::Store;
use std::sync::Wait;

/// Writes a job, and notes what became of it: whether it was written. The lock is held for the note, but not while the job is written.
fn write_job<R: Wait, B: Blocks + Drop>(
    rt: &R,
    queue: &QueueLock,
    store: &mut Store<B>,
    seat: &mut QueueSeat,
    job: &Job,
) -> bool
    requires lock { turn.IsSeatOf queue.now.turn seat.old }
    requires job { IsJob seat.old.start job.now }
    requires blocks { seat.old.start ≤ 40 }
    requires alive { (c : Config) × (c.blocks ≡ seat.old.start) × IsAlive c store.old }
    requires calls { 1 ≤ seat.old.left }
    ensures wrote { (c : Config) → c.blocks ≡ seat.old.start → WritesJob c job.now result store.old store.new }
    ensures noted { (noted : Answer Replied) × queued.IsCall seat.old seat.new (ops.Done job.now.block result) noted }
    ensures lock { turn.IsSeatOf queue.now.turn seat.new }
{
    let written = store.put_block(job.block, &job.bytes).is_ok();
    let Ok(_noted) = queue.note_done(rt, seat, job.block, written) else {
        unreachable!()
    };
    written
}

/// Takes the next job, writes it, and notes what became of it: whether it was written, or nothing where no job waits. The job is
/// written in place of what `job` holds.
fn take_job<R: Wait, B: Blocks + Drop>(
    rt: &R,
    queue: &QueueLock,
    store: &mut Store<B>,
    config: &ValidConfig,
    seat: &mut QueueSeat,
    job: &mut Job,
) -> Option<bool>
    requires ready { CanDrain queue.now config.now seat.old }
    requires alive { IsAlive config.now store.old }
    requires calls { 2 ≤ seat.old.left }
    ensures looks { LooksForJob config.now seat.old seat.new result store.old store.new }
    ensures lock { turn.IsSeatOf queue.now.turn seat.new }
{
    let Ok(taken) = queue.take_into(rt, seat, job) else {
        unreachable!()
    };
    match taken.reply {
        QueueKind::Job(()) => Some(write_job(rt, queue, store, seat, job)),
        _ => None,
    }
}

/// Takes jobs until none waits, at most 32, and keeps how many were written and how many could not be.
pub(crate) fn drain<R: Wait, B: Blocks + Drop>(
    rt: &R,
    queue: &QueueLock,
    store: &mut Store<B>,
    config: &ValidConfig,
    seat: &mut QueueSeat,
    replies: &mut LaneReplies,
)
    requires ready { CanDrain queue.now config.now seat.old }
    requires alive { IsAlive config.now store.old }
    requires calls { 64 ≤ seat.old.left }
    requires room { HasRoomForAnswer replies.old action.Drain }
    ensures takes { (dem : Seat) → TakesStep config.now dem dem seat.old seat.new steps.Drain replies.old replies.new store.old store.new }
    ensures lock { turn.IsSeatOf queue.now.turn seat.new }
{
    let mut job = Job::room();
    let mut written: u16 = 0;
    let mut failed: u16 = 0;
    for _job in 0..WAITING {
        let Some(was_written) = take_job(rt, queue, store, config, seat, &mut job) else {
            replies.keep(StepAnswer::Drained { written, failed }, &[]);
            return;
        };
        written += u16::from(was_written);
        failed += u16::from(!was_written);
    }
    replies.keep(StepAnswer::Drained { written, failed }, &[]);
}
