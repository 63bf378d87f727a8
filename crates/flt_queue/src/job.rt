//! Jobs, and the calls of the queue.
use arrayvec::ArrayVec;

/// How many blocks a queue has at most.
pub const BLOCKS: usize = 40;

/// How many jobs wait at most.
pub const WAITING: usize = 32;

/// How many bytes a block has at most.
pub const BYTES: usize = 32;

/// A write of a block.
#[derive(Clone, Drop, PartialEq, Eq, Debug, Default)]
pub struct Job {
    pub block: u8,
    /// What is written, 1 to 32 bytes.
    pub bytes: ArrayVec<u8, BYTES>,
}

impl Job {
    ghost use Rattle.std.specs.Prelude.{◌≡◌, []};

    /// A job of no bytes: a place to lend to calls that write a job.
    #[inline(always)]
    pub fn room() -> Job
        ensures { result.bytes.items ≡ [] }
    {
        Job {
            block: 0,
            bytes: ArrayVec::new(),
        }
    }
}

/// What became of the last job of a block (AUTOSAR NvM, in outline).
#[derive(Clone, Copy, PartialEq, Eq, Debug)]
pub enum LastResult {
    /// The block has no result.
    Never,
    /// A job of the block was accepted, and is not done.
    Pending,
    Written,
    Failed,
}

/// A call of the queue.
#[derive(Clone, Drop, PartialEq, Eq, Debug)]
pub enum QueueOp {
    /// A job is to be written. Urgent jobs are taken before standard ones.
    Post { urgent: bool, job: Job },
    /// The next job is taken.
    Take,
    /// The job of a block that was taken is done.
    Done { block: u8, written: bool },
    /// A block is asked for its last result.
    Ask { block: u8 },
}

/// What the queue answers, in which a job that was taken is a `J`.
#[derive(Clone, Copy, Drop, PartialEq, Eq, Debug)]
pub enum QueueReplyOf<J> {
    /// The job waits until it is taken.
    Accepted,
    /// The block has a job that is not done. Nothing was changed.
    BlockPending,
    /// 32 jobs wait. Nothing was changed.
    QueueFull,
    /// The job that was taken.
    Job(J),
    /// No job waits.
    NoJob,
    /// The result is noted.
    Noted,
    /// No job of the block was taken and is not done. Nothing was changed.
    NotTaken,
    Last(LastResult),
}

impl<J: Drop> QueueReplyOf<J> {
    ghost use Rattle.std.specs.Prelude.{◌≡◌};
    ghost use Rattle.flt_queue.specs.Reply.{job_reply_with};

    /// The same answer, in which a job that was taken is this one.
    #[inline(always)]
    pub fn with<K: Drop>(self, job: K) -> QueueReplyOf<K>
        ensures { result ≡ job_reply_with self job }
    {
        match self {
            QueueReplyOf::Accepted => QueueReplyOf::Accepted,
            QueueReplyOf::BlockPending => QueueReplyOf::BlockPending,
            QueueReplyOf::QueueFull => QueueReplyOf::QueueFull,
            QueueReplyOf::Job(_) => QueueReplyOf::Job(job),
            QueueReplyOf::NoJob => QueueReplyOf::NoJob,
            QueueReplyOf::Noted => QueueReplyOf::Noted,
            QueueReplyOf::NotTaken => QueueReplyOf::NotTaken,
            QueueReplyOf::Last(last) => QueueReplyOf::Last(last),
        }
    }
}

/// What the queue answers, with the job that was taken.
pub type QueueReply = QueueReplyOf<Job>;

/// What the queue answers, where the job that was taken is kept elsewhere. It is small, so that it costs little to move.
pub type QueueKind = QueueReplyOf<()>;
