//! The queue itself: two lists of jobs, and a table of the blocks.
ghost use Rattle.std.specs.Prelude.{◌≡◌, ◌≤◌, ◌<◌, ◌∷◌, ◌++◌, [], ℕ, All, IfOk, length, reverse};
ghost use Rattle.circular_buffer.specs.Buffer.{buffer};
ghost use Rattle.flt_queue.specs.Queue.{History, IsQueueCallFor, IsFor, IsForAlone, IsJob, answer_q, last_result_of as result_is};
ghost use Rattle.flt_queue.specs.Reply.{MakesAlone, job_reply_with};
ghost use Rattle.flt_queue.specs.declared.job.QueueOp.TheVariants as ops;

use crate::job::{BLOCKS, Job, LastResult, QueueKind, QueueOp, QueueReply, WAITING};
use circular_buffer::HeapCircularBuffer;
use std::alloc::{AllocError, Global};

/// What is kept of a block.
#[derive(Clone, Copy)]
pub struct BlockState {
    /// A job of the block was accepted, and is not done.
    pub pending: bool,
    /// A job of the block was taken, and is not done.
    pub taken: bool,
    /// The result of the last job that was done.
    pub last: LastResult,
}

/// The jobs that wait, and what became of the others. The jobs of each kind are in a ring, so that the first is taken without a move
/// of the others. All memory is taken when the queue is made.
#[derive(Drop)]
pub struct JobQueue {
    pub(crate) blocks: u8,
    pub(crate) urgent: HeapCircularBuffer<Job>,
    pub(crate) standard: HeapCircularBuffer<Job>,
    pub(crate) table: [BlockState; BLOCKS],
    ghost few: { blocks ≤ 40 },
    ghost whole: { length table ≡ 40 },
    ghost urgent_room: { urgent.capacity ≡ 32 },
    ghost standard_room: { standard.capacity ≡ 32 },
    ghost urgent_jobs: { All (IsJob blocks) urgent.items },
    ghost standard_jobs: { All (IsJob blocks) standard.items },
}

/// What became of a job that was done.
fn result_of(written: bool) -> LastResult
    ensures { result ≡ result_is written }
{
    if written {
        LastResult::Written
    } else {
        LastResult::Failed
    }
}

/// A copy of a job, which takes no memory.
fn copy_of(job: &Job) -> Job
    ensures { result ≡ job.now }
{
    job.clone().unwrap()
}

/// Puts a job after those that wait.
fn put_last(jobs: &mut HeapCircularBuffer<Job>, job: Job)
    requires { length jobs.old.items < jobs.old.capacity }
    ensures { jobs.new ≡ buffer (jobs.old.items ++ job ∷ []) jobs.old.capacity }
{
    let Ok(()) = jobs.try_push_back(job) else {
        unreachable!()
    };
}

/// Takes the first of the jobs that wait.
fn take_first(jobs: &mut HeapCircularBuffer<Job>) -> Job
    requires { 0 < length jobs.old.items }
    ensures jobs { jobs.old.items ≡ result ∷ jobs.new.items }
    ensures room { jobs.new.capacity ≡ jobs.old.capacity }
{
    let Some(job) = jobs.pop_front() else {
        unreachable!()
    };
    job
}

impl JobQueue {
    ghost use Rattle.flt_queue.specs.Stands.{QueueStands};

    /// A queue of this many blocks, at most 40, that took no call yet. No later call takes memory. At `Err` there was not enough
    /// memory: try when it is free.
    pub fn new(alloc: Global, blocks: u8) -> Result<JobQueue, AllocError>
        requires { blocks ≤ 40 }
        ensures blocks { IfOk result (λ queue. queue.blocks ≡ blocks) }
        ensures stands { IfOk result (QueueStands blocks []) }
    {
        let resting = BlockState {
            pending: false,
            taken: false,
            last: LastResult::Never,
        };
        let urgent = HeapCircularBuffer::with_capacity(alloc, WAITING)?;
        let standard = HeapCircularBuffer::with_capacity(alloc, WAITING)?;
        Ok(JobQueue {
            blocks,
            urgent,
            standard,
            table: [resting; BLOCKS],
        })
    }

    /// Carries out a call, and answers it.
    #[inline(always)]
    pub fn apply(&mut self, op: &QueueOp) -> QueueReply
        requires admitted { IsQueueCallFor self.old.blocks op.now }
        ensures blocks { self.new.blocks ≡ self.old.blocks }
        ensures stands { (past : History) → QueueStands self.old.blocks past self.old → QueueStands self.old.blocks (op.now ∷ past) self.new }
        ensures answer { (past : History) → QueueStands self.old.blocks past self.old → result ≡ answer_q past op.now }
        ensures job { IsFor self.old.blocks result }
    {
        let mut job = Job::room();
        self.apply_into(op, &mut job).with(job)
    }

    /// Carries out a call as `apply` does. The answer has only the kind of the reply, and a job that is taken is written in place of
    /// what `job` holds, so that no reply of a job's size is moved. Where no job is taken, `job` holds anything.
    #[inline(always)]
    pub fn apply_into(&mut self, op: &QueueOp, job: &mut Job) -> QueueKind
        requires admitted { IsQueueCallFor self.old.blocks op.now }
        ensures blocks { self.new.blocks ≡ self.old.blocks }
        ensures stands { (past : History) → QueueStands self.old.blocks past self.old → QueueStands self.old.blocks (op.now ∷ past) self.new }
        ensures answer { (past : History) → QueueStands self.old.blocks past self.old → job_reply_with result job.new ≡ answer_q past op.now }
        ensures job { IsFor self.old.blocks (job_reply_with result job.new) }
    {
        match op {
            QueueOp::Post { urgent, job } => self.post(*urgent, job),
            QueueOp::Take => self.take(job),
            QueueOp::Done { block, written } => self.done(*block, *written),
            QueueOp::Ask { block } => self.ask(*block),
        }
    }

    #[inline(always)]
    fn post(&mut self, urgent: bool, job: &Job) -> QueueKind
        requires { IsJob self.old.blocks job.now }
        ensures blocks { self.new.blocks ≡ self.old.blocks }
        ensures stands { (past : History) → QueueStands self.old.blocks past self.old → QueueStands self.old.blocks (ops.Post urgent job.now ∷ past) self.new }
        ensures answer { (past : History) → QueueStands self.old.blocks past self.old → MakesAlone result (answer_q past (ops.Post urgent job.now)) }
        ensures job { IsForAlone self.old.blocks result }
    {
        let block = job.block as usize;
        if self.table[block].pending {
            return QueueKind::BlockPending;
        }
        if self.urgent.len() + self.standard.len() >= WAITING {
            return QueueKind::QueueFull;
        }
        if urgent {
            put_last(&mut self.urgent, copy_of(job));
        } else {
            put_last(&mut self.standard, copy_of(job));
        }
        self.table[block].pending = true;
        QueueKind::Accepted
    }

    #[inline(always)]
    fn take(&mut self, job: &mut Job) -> QueueKind
        ensures blocks { self.new.blocks ≡ self.old.blocks }
        ensures stands { (past : History) → QueueStands self.old.blocks past self.old → QueueStands self.old.blocks (ops.Take ∷ past) self.new }
        ensures answer { (past : History) → QueueStands self.old.blocks past self.old → job_reply_with result job.new ≡ answer_q past ops.Take }
        ensures job { IsFor self.old.blocks (job_reply_with result job.new) }
    {
        if !self.urgent.is_empty() {
            *job = take_first(&mut self.urgent);
        } else if !self.standard.is_empty() {
            *job = take_first(&mut self.standard);
        } else {
            return QueueKind::NoJob;
        }
        self.table[job.block as usize].taken = true;
        QueueKind::Job(())
    }

    #[inline(always)]
    fn done(&mut self, block: u8, written: bool) -> QueueKind
        requires { block < self.old.blocks }
        ensures blocks { self.new.blocks ≡ self.old.blocks }
        ensures stands { (past : History) → QueueStands self.old.blocks past self.old → QueueStands self.old.blocks (ops.Done block written ∷ past) self.new }
        ensures answer { (past : History) → QueueStands self.old.blocks past self.old → MakesAlone result (answer_q past (ops.Done block written)) }
        ensures job { IsForAlone self.old.blocks result }
    {
        if !self.table[block as usize].taken {
            return QueueKind::NotTaken;
        }
        self.table[block as usize] = BlockState {
            pending: false,
            taken: false,
            last: result_of(written),
        };
        QueueKind::Noted
    }

    #[inline(always)]
    fn ask(&self, block: u8) -> QueueKind
        requires { block < self.now.blocks }
        ensures stands { (past : History) → QueueStands self.now.blocks past self.now → QueueStands self.now.blocks (ops.Ask block ∷ past) self.now }
        ensures answer { (past : History) → QueueStands self.now.blocks past self.now → MakesAlone result (answer_q past (ops.Ask block)) }
        ensures job { IsForAlone self.now.blocks result }
    {
        let state = &self.table[block as usize];
        if state.pending {
            QueueKind::Last(LastResult::Pending)
        } else {
            QueueKind::Last(state.last)
        }
    }
}
