//! The answers to steps.
ghost use Rattle.std.specs.Prelude.{◌≡◌, length};
ghost use Rattle.flt_life_model.specs.Answers.{IsRangeWithin, bytes_in};

use arrayvec::ArrayVec;
use flt_model::ReplyOf;
use flt_queue::{LastResult, QueueReply};
use flt_store::SaveFault;
use flt_store_model::APPLICATION_LENGTH;
use flt_turn::Answer;

/// Bytes of an answer as a lane keeps them: a range of the bytes of the lane's responses, so that an answer takes few bytes.
#[derive(Clone, Copy, Debug, PartialEq, Eq)]
pub struct KeptResponse {
    /// Where they begin.
    pub from: u32,
    /// How many they are: 1 to 1,040 of a response to a tester, 1 to 32 of a block.
    pub length: u32,
}

impl KeptResponse {
    /// These bytes, among those of the lane.
    pub fn among(self, responses: &[u8]) -> &[u8]
        requires { IsRangeWithin (length responses.now) self }
        ensures bytes { result.now ≡ (bytes_in responses.now self).items }
        ensures length { length result.now ≡ self.length }
    {
        let from = self.from as usize;
        &responses[from..from + self.length as usize]
    }
}

/// The reply to a call as a lane keeps it.
pub type KeptReply = ReplyOf<KeptResponse>;

/// The reply of the queue as a lane keeps it.
#[derive(Clone, Copy, Debug, PartialEq, Eq)]
pub enum KeptQueueReply {
    /// The job waits until it is taken.
    Accepted,
    /// The block has a job that is not done.
    BlockPending,
    /// 32 jobs wait.
    QueueFull,
    /// The job of this block was taken.
    Job { block: u8, bytes: KeptResponse },
    /// No job waits.
    NoJob,
    /// The result is noted.
    Noted,
    /// No job of the block was taken and is not done.
    NotTaken,
    /// What became of the last job of the block.
    Last(LastResult),
}

/// The answer to a step, in which the reply to a call is an `R`, that of the queue a `Q`, and the bytes of a block are a `B`.
#[derive(Drop)]
pub enum StepAnswer<R, Q = QueueReply, B = ArrayVec<u8, APPLICATION_LENGTH>> {
    /// The machine's reply to the call, and its place in the journal.
    Dem(Answer<R>),
    /// The number under which the state was saved, 1 to 2^32 - 1.
    Saved(u32),
    /// Why it was not saved.
    SaveFailed(SaveFault),
    /// The queue's reply to the call, and its place in the journal of the queue.
    Queue(Answer<Q>),
    /// The number of jobs that were taken and written, and of those that were taken and could not be written; together at most 32.
    Drained { written: u16, failed: u16 },
    /// What the application block holds, 1 to 32 bytes.
    Bytes(B),
    /// The application block was never written.
    NoBlock,
    /// The application block could not be read in three tries.
    BlockFlash,
    /// The arm was made.
    Armed,
    /// The life is dark, and the step was not made.
    Dark,
}

/// The answer to a step as a lane keeps it, in 20 bytes.
pub type KeptAnswer = StepAnswer<KeptReply, KeptQueueReply, KeptResponse>;

const _: () = prove!(size_of::<KeptAnswer>() == 20);
