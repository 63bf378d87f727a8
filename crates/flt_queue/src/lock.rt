//! The queue under the ticket lock.
ghost use Rattle.std.specs.Prelude.{◌≡◌, ◌<◌, ◌≤◌, ◌+◌, ◌^◌, ◌∷◌, IfOk, OnErr, All, length, reverse};
ghost use mathlib.Core.List.{IsPrefix};
ghost use Rattle.flt_queue.specs.declared.job.QueueOp.TheVariants as ops;
ghost use Rattle.flt_queue.specs.Queue.{IsQueueCallFor, IsFor, IsJob};
ghost use Rattle.flt_queue.specs.Stands.{QueueStands};
ghost use Rattle.flt_queue.specs.Call.{Calls, CallsAlone, CallsInto};
ghost use Rattle.flt_queue.specs.Reply.{job_reply_with};
ghost use Rattle.flt_turn.specs.Journal.{Interleaves, ops_of};
ghost use Rattle.flt_turn.specs.Seats.{IsSeatOf, main_seat, split_off, split_seat, joined_seat};

use crate::boxed_queue::BoxedQueue;
use crate::job::{Job, QueueKind, QueueOp, QueueReply};
use crate::queue::JobQueue;
use flt_turn::{Answer, Entry, HistoryFull, Seat, Turn, Vault};
use std::alloc::{AllocError, Global};
use std::sync::Wait;

/// The right to call a locked queue.
pub type QueueSeat = Seat<BoxedQueue>;

/// The answer to a call. At `Err` its seat has no call left, and nothing was changed: make the call on a seat that has calls left.
pub type QueueAnswer = Result<Answer<QueueReply>, HistoryFull<QueueOp>>;

/// The same without the job that was taken, which is kept elsewhere.
pub type QueueTold = Result<Answer<QueueKind>, HistoryFull<QueueOp>>;

/// What a lock leaves when it ends.
#[derive(Drop)]
pub struct QueueEnd {
    /// All calls in their order, each with the number of its seat.
    pub journal: Vec<Entry<QueueOp>>,
    /// The queue as it was left.
    pub queue: Box<JobQueue>,
}

/// The queue for many lanes.
#[derive(Drop)]
pub struct QueueLock {
    /// The ticket lock over the queue.
    pub turn: Turn<BoxedQueue>,
}

impl QueueLock {
    /// A lock over a queue of this many blocks, at most 40, and its main seat, to which all calls are left. The lock takes `room`
    /// calls in all: their entries in the journal are reserved here, and no later call takes memory.
    ///
    /// At `Err` there was not enough memory: ask for fewer calls, or try when memory is free.
    pub fn make(alloc: Global, blocks: u8, room: u32) -> Result<(QueueLock, QueueSeat), AllocError>
        requires { blocks ≤ 40 }
        ensures ok { IfOk result (λ made. made.1 ≡ main_seat made.0.turn blocks room) }
        ensures lock { IfOk result (λ made. IsSeatOf made.0.turn made.1) }
    {
        let queue = Box::new(alloc, JobQueue::new(alloc, blocks)?)?;
        let (turn, seat) = Turn::make(alloc, BoxedQueue { queue }, room)?;
        Ok((QueueLock { turn }, seat))
    }

    /// Makes a call when its turn comes. The answer has only the kind of the reply, and a job that is taken is written in place of what
    /// `job` holds, so that no reply of a job's size is moved. Where no job is taken, `job` holds anything.
    #[inline(always)]
    pub fn call_into<R: Wait>(
        &self,
        rt: &R,
        seat: &mut QueueSeat,
        op: QueueOp,
        job: &mut Job,
    ) -> QueueTold
        requires lock { IsSeatOf self.now.turn seat.old }
        requires admitted { IsQueueCallFor seat.old.start op }
        ensures call { CallsInto seat.old seat.new op job.new result }
        ensures kept { OnErr result (job.new ≡ job.old) }
    {
        self.turn.call(rt, seat, &(), op, job)
    }

    /// Makes a call as `call_into` does, with the job that was taken in the answer.
    #[inline(always)]
    pub fn call<R: Wait>(&self, rt: &R, seat: &mut QueueSeat, op: QueueOp) -> QueueAnswer
        requires lock { IsSeatOf self.now.turn seat.old }
        requires admitted { IsQueueCallFor seat.old.start op }
        ensures { Calls seat.old seat.new op result }
    {
        let mut job = Job::room();
        let Answer { place, reply } = self.call_into(rt, seat, op, &mut job)?;
        Ok(Answer {
            place,
            reply: reply.with(job),
        })
    }

    /// Posts a job, of 1 to 32 bytes for a block of the queue.
    pub fn post<R: Wait>(&self, rt: &R, seat: &mut QueueSeat, urgent: bool, job: Job) -> QueueAnswer
        requires lock { IsSeatOf self.now.turn seat.old }
        requires job { IsJob seat.old.start job }
        ensures { Calls seat.old seat.new (ops.Post urgent job) result }
    {
        self.call(rt, seat, QueueOp::Post { urgent, job })
    }

    /// Takes the next job, which is one of 1 to 32 bytes for a block of the queue.
    pub fn take<R: Wait>(&self, rt: &R, seat: &mut QueueSeat) -> QueueAnswer
        requires lock { IsSeatOf self.now.turn seat.old }
        ensures call { Calls seat.old seat.new ops.Take result }
        ensures job { IfOk result (λ told. IsFor seat.old.start told.reply) }
    {
        self.call(rt, seat, QueueOp::Take)
    }

    /// Takes the next job as `take` does, and writes it in place of what `job` holds.
    #[inline(always)]
    pub fn take_into<R: Wait>(&self, rt: &R, seat: &mut QueueSeat, job: &mut Job) -> QueueTold
        requires lock { IsSeatOf self.now.turn seat.old }
        ensures call { CallsInto seat.old seat.new ops.Take job.new result }
        ensures job { IfOk result (λ told. IsFor seat.old.start (job_reply_with told.reply job.new)) }
        ensures kept { OnErr result (job.new ≡ job.old) }
    {
        self.call_into(rt, seat, QueueOp::Take, job)
    }

    /// Notes what became of the job of a block that was taken.
    pub fn done<R: Wait>(
        &self,
        rt: &R,
        seat: &mut QueueSeat,
        block: u8,
        written: bool,
    ) -> QueueAnswer
        requires lock { IsSeatOf self.now.turn seat.old }
        requires block { block < seat.old.start }
        ensures { Calls seat.old seat.new (ops.Done block written) result }
    {
        self.call(rt, seat, QueueOp::Done { block, written })
    }

    /// Notes it as `done` does. The answer has only the kind of the reply.
    #[inline(always)]
    pub fn note_done<R: Wait>(
        &self,
        rt: &R,
        seat: &mut QueueSeat,
        block: u8,
        written: bool,
    ) -> QueueTold
        requires lock { IsSeatOf self.now.turn seat.old }
        requires block { block < seat.old.start }
        ensures { CallsAlone seat.old seat.new (ops.Done block written) result }
    {
        let mut none = Job::room();
        self.call_into(rt, seat, QueueOp::Done { block, written }, &mut none)
    }

    /// Asks a block for its last result.
    pub fn ask<R: Wait>(&self, rt: &R, seat: &mut QueueSeat, block: u8) -> QueueAnswer
        requires lock { IsSeatOf self.now.turn seat.old }
        requires block { block < seat.old.start }
        ensures { Calls seat.old seat.new (ops.Ask block) result }
    {
        self.call(rt, seat, QueueOp::Ask { block })
    }

    /// Splits a seat from the main seat, with this many of its calls.
    pub fn split(&self, main: &mut QueueSeat, calls: u32) -> QueueSeat
        requires lock { IsSeatOf self.now.turn main.old }
        requires main { main.old.number ≡ 0 }
        requires calls { calls ≤ main.old.left }
        requires children { main.old.children + 1 < 2 ^ 32 }
        ensures main { main.new ≡ split_off calls main.old }
        ensures seat { result ≡ split_seat calls main.old }
    {
        self.turn.split(main, calls)
    }

    /// Takes a seat back into the main seat, with the calls that are left to it and all that it knows.
    pub fn join(&self, main: &mut QueueSeat, other: QueueSeat)
        requires lock { IsSeatOf self.now.turn main.old × IsSeatOf self.now.turn other }
        requires main { main.old.number ≡ 0 }
        ensures { main.new ≡ joined_seat main.old other }
    {
        self.turn.join(main, other)
    }

    /// Ends the lock, once each seat that was split from the main seat was joined. The queue comes back with the whole journal,
    /// which has the calls of all seats and no others.
    pub fn close(self, main: QueueSeat) -> QueueEnd
        requires lock { IsSeatOf self.turn main }
        requires main { main.number ≡ 0 }
        requires whole { length main.ended ≡ main.children }
        ensures seen { IsPrefix main.seen result.journal.items }
        ensures olds { All (λ old. IsPrefix old result.journal.items) main.olds }
        ensures calls { Interleaves result.journal.items ((main.number, main.mine) ∷ main.ended) }
        ensures admitted { All (λ entry. IsQueueCallFor main.start entry.op) result.journal.items }
        ensures stands { ∥ QueueStands main.start (reverse (ops_of result.journal.items)) result.queue.value ∥₁ }
    {
        let QueueLock { turn } = self;
        let Vault { journal, machine } = turn.close(main);
        let BoxedQueue { queue } = machine;
        QueueEnd { journal, queue }
    }
}
