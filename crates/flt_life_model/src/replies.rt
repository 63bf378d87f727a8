//! The answers of a lane.
ghost use Rattle.std.specs.Prelude.{◌≡◌, ◌≤◌, ◌<◌, ◌+◌, ◌++◌, ◌∷◌, ◌^◌, [], ℕ, List, All, IfOk, length, vec_len};
ghost use Rattle.std.specs.Vec.{vec_capacity};
ghost use Rattle.flt_dcm.specs.ReplyKind.{reply_with};
ghost use Rattle.flt_life_model.specs.Answers.{IsRangeWithin, IsReplyWithin, IsQueueReplyWithin, IsAnswerWithin, bytes_in, reply_in, queue_reply_in, told_of, told_by, told_with, byte_room, reply_size, queue_reply_size, response_length};

use crate::answer::{KeptAnswer, KeptQueueReply, KeptReply, KeptResponse, StepAnswer};
use flt_dcm::ReplyKind;
use flt_model::ReplyOf;
use flt_queue::QueueReply;
use flt_turn::Answer;
use std::alloc::{AllocError, Global};

/// The answers to the steps of a lane, in their order.
#[derive(Drop)]
pub struct LaneReplies {
    /// One answer for each step that was made, in their order.
    pub answers: Vec<KeptAnswer>,
    /// The bytes of its answers: of the responses, and of the blocks that were read, in their order.
    pub responses: Vec<u8>,
    /// Each range lies within these bytes.
    pub ghost within: { All (IsAnswerWithin (length responses.items)) answers.items },
}

impl LaneReplies {
    /// No answer yet, with room for this many, and for this many bytes of them. The error means that memory ran out.
    pub fn with_room(alloc: Global, answers: usize, bytes: usize) -> Result<LaneReplies, AllocError>
        requires few { bytes < 2 ^ 32 }
        ensures none { IfOk result (λ replies. replies.answers.items ≡ []) }
        ensures no_bytes { IfOk result (λ replies. replies.responses.items ≡ []) }
        ensures answers { IfOk result (λ replies. vec_len replies.answers + answers ≤ vec_capacity replies.answers) }
        ensures responses { IfOk result (λ replies. vec_len replies.responses + bytes ≤ byte_room replies.responses) }
    {
        let answers = Vec::with_capacity(alloc, answers)?;
        let responses = Vec::with_capacity(alloc, bytes)?;
        Ok(LaneReplies { answers, responses })
    }

    /// Keeps the answer to one more step, with these bytes of its response if it has one.
    #[inline(always)]
    pub fn keep(&mut self, answer: StepAnswer<ReplyKind>, response: &[u8])
        requires answers { vec_len self.old.answers < vec_capacity self.old.answers }
        requires responses { vec_len self.old.responses + response_length answer response.now ≤ byte_room self.old.responses }
        ensures told { told_by self.new.responses.items self.new.answers.items
            ≡ told_by self.old.responses.items self.old.answers.items ++ told_with response.now answer ∷ [] }
        ensures answers { vec_len self.new.answers ≡ vec_len self.old.answers + 1 }
        ensures room { vec_capacity self.new.answers ≡ vec_capacity self.old.answers }
        ensures responses { vec_len self.new.responses ≡ vec_len self.old.responses + response_length answer response.now }
        ensures bytes { byte_room self.old.responses ≤ byte_room self.new.responses }
    {
        let answer = kept(answer, response, &mut self.responses);
        self.answers.push_reserved(answer);
    }
}

/// Keeps these bytes after the others.
#[inline(always)]
fn kept_bytes(bytes: &[u8], responses: &mut Vec<u8>) -> KeptResponse
    requires { vec_len responses.old + length bytes.now ≤ byte_room responses.old }
    ensures range { (bytes_in responses.new.items result).items ≡ bytes.now }
    ensures within { IsRangeWithin (length responses.new.items) result }
    ensures more { responses.new.items ≡ responses.old.items ++ bytes.now }
    ensures bytes { vec_len responses.new ≡ vec_len responses.old + length bytes.now }
    ensures room { byte_room responses.old ≤ byte_room responses.new }
{
    let kept = KeptResponse {
        from: responses.len() as u32,
        length: bytes.len() as u32,
    };
    let Ok(()) = responses.extend_from_slice(bytes) else {
        unreachable!()
    };
    kept
}

/// The reply of this kind as it is kept. The bytes of a response are added after the others.
#[inline(always)]
fn kept_reply(kind: ReplyKind, response: &[u8], responses: &mut Vec<u8>) -> KeptReply
    requires { vec_len responses.old + reply_size (reply_with kind response.now) ≤ byte_room responses.old }
    ensures reply { reply_in responses.new.items result ≡ reply_with kind response.now }
    ensures within { IsReplyWithin (length responses.new.items) result }
    ensures more { (more : List ℕ) × (responses.new.items ≡ responses.old.items ++ more) }
    ensures bytes { vec_len responses.new ≡ vec_len responses.old + reply_size (reply_with kind response.now) }
    ensures room { byte_room responses.old ≤ byte_room responses.new }
{
    match kind {
        ReplyOf::Taken => ReplyOf::Taken,
        ReplyOf::Ignored(cause) => ReplyOf::Ignored(cause),
        ReplyOf::Shown(shown) => ReplyOf::Shown(shown),
        ReplyOf::Response(()) => ReplyOf::Response(kept_bytes(response, responses)),
        ReplyOf::Silent => ReplyOf::Silent,
    }
}

/// The reply of the queue as it is kept. The bytes of a job are added after the others.
#[inline(always)]
fn kept_queue_reply(reply: QueueReply, responses: &mut Vec<u8>) -> KeptQueueReply
    requires { vec_len responses.old + queue_reply_size reply ≤ byte_room responses.old }
    ensures reply { queue_reply_in responses.new.items result ≡ reply }
    ensures within { IsQueueReplyWithin (length responses.new.items) result }
    ensures more { (more : List ℕ) × (responses.new.items ≡ responses.old.items ++ more) }
    ensures bytes { vec_len responses.new ≡ vec_len responses.old + queue_reply_size reply }
    ensures room { byte_room responses.old ≤ byte_room responses.new }
{
    match reply {
        QueueReply::Accepted => KeptQueueReply::Accepted,
        QueueReply::BlockPending => KeptQueueReply::BlockPending,
        QueueReply::QueueFull => KeptQueueReply::QueueFull,
        QueueReply::Job(job) => KeptQueueReply::Job {
            block: job.block,
            bytes: kept_bytes(&job.bytes, responses),
        },
        QueueReply::NoJob => KeptQueueReply::NoJob,
        QueueReply::Noted => KeptQueueReply::Noted,
        QueueReply::NotTaken => KeptQueueReply::NotTaken,
        QueueReply::Last(last) => KeptQueueReply::Last(last),
    }
}

/// The answer as it is kept.
#[inline(always)]
fn kept(answer: StepAnswer<ReplyKind>, response: &[u8], responses: &mut Vec<u8>) -> KeptAnswer
    requires { vec_len responses.old + response_length answer response.now ≤ byte_room responses.old }
    ensures told { told_of responses.new.items result ≡ told_with response.now answer }
    ensures within { IsAnswerWithin (length responses.new.items) result }
    ensures more { (more : List ℕ) × (responses.new.items ≡ responses.old.items ++ more) }
    ensures bytes { vec_len responses.new ≡ vec_len responses.old + response_length answer response.now }
    ensures room { byte_room responses.old ≤ byte_room responses.new }
{
    match answer {
        StepAnswer::Dem(told) => {
            let reply = kept_reply(told.reply, response, responses);
            StepAnswer::Dem(Answer {
                place: told.place,
                reply,
            })
        }
        StepAnswer::Saved(generation) => StepAnswer::Saved(generation),
        StepAnswer::SaveFailed(fault) => StepAnswer::SaveFailed(fault),
        StepAnswer::Queue(told) => {
            let reply = kept_queue_reply(told.reply, responses);
            StepAnswer::Queue(Answer {
                place: told.place,
                reply,
            })
        }
        StepAnswer::Drained { written, failed } => StepAnswer::Drained { written, failed },
        StepAnswer::Bytes(bytes) => StepAnswer::Bytes(kept_bytes(&bytes, responses)),
        StepAnswer::NoBlock => StepAnswer::NoBlock,
        StepAnswer::BlockFlash => StepAnswer::BlockFlash,
        StepAnswer::Armed => StepAnswer::Armed,
        StepAnswer::Dark => StepAnswer::Dark,
    }
}
