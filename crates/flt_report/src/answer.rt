//! The answer to a step.
ghost use Rattle.std.specs.Prelude.{◌≡◌, ◌≤◌, ◌+◌, ◌*◌, ◌++◌, ◌∷◌, [], ℕ, List, OnOk, OnErr, length, vec_len};
ghost use Rattle.std.specs.Vec.{vec_capacity};
ghost use Rattle.flt_dcm.specs.ReplyKind.{reply_with};
ghost use Rattle.flt_life_model.specs.Answers.{IsReplyWithin, IsAnswerWithin, reply_in, queue_reply_in, told_of};
ghost use Rattle.flt_step.specs.Puts.{Puts};
ghost use Rattle.flt_report.specs.Room.{reply_room, kept_room, answer_room};
ghost use Rattle.flt_report.specs.Answer.{flag_text, shown_text, ignored_text, reply_text, save_fault_text, last_text, queue_text, drained_text, answer_text, answer_part};

use flt_life_model::{Answer, KeptAnswer, KeptQueueReply, KeptReply, StepAnswer};
use flt_model::{Cause, ReplyOf, Shown};
use flt_queue::LastResult;
use flt_step::{put_byte, put_bytes, put_number, put_signed, put_text};
use flt_store::SaveFault;
use std::alloc::AllocError;

/// How many bytes an answer has at most, without a response and the bytes of a block.
const ANSWER_ROOM: usize = 96;

/// How many bytes an answer's line has beside it: the arrow and the end of the line.
const ABOUT_ANSWER: usize = 5;

/// Puts 0 or 1.
fn put_flag(flag: bool, out: &mut Vec<u8>)
    requires { vec_len out.old + 1 ≤ vec_capacity out.old }
    ensures { Puts out.old out.new (flag_text flag) 1 }
{
    match flag {
        false => put_text(b"0", out),
        true => put_text(b"1", out),
    }
}

/// Puts what is shown of an event, in at most 93 bytes.
#[tactic(auto, unfolding(crate::specs::Answer::shown_text))]
fn put_shown(shown: &Shown, out: &mut Vec<u8>)
    requires { vec_len out.old + 93 ≤ vec_capacity out.old }
    ensures { Puts out.old out.new (shown_text shown.now) 93 }
{
    let Shown {
        status,
        fdc,
        failed,
        clean,
        stored,
        overflow,
    } = *shown;
    put_text(b"status ", out);
    put_byte(status, out);
    put_text(b" fdc ", out);
    put_signed(fdc, out);
    put_text(b" failed ", out);
    put_number(u32::from(failed), out);
    put_text(b" clean ", out);
    put_number(u32::from(clean), out);
    put_text(b" stored ", out);
    put_number(u32::from(stored), out);
    put_text(b" overflow ", out);
    put_flag(overflow, out);
}

/// Puts why a report was ignored.
fn put_ignored(cause: Cause, out: &mut Vec<u8>)
    requires { vec_len out.old + 15 ≤ vec_capacity out.old }
    ensures { Puts out.old out.new (ignored_text cause) 15 }
{
    match cause {
        Cause::SettingOff => put_text(b"ignored setting", out),
        Cause::NotStarted => put_text(b"ignored cycle", out),
        Cause::NotEnabled => put_text(b"ignored enable", out),
    }
}

/// Puts why a state was not saved.
fn put_save_fault(fault: SaveFault, out: &mut Vec<u8>)
    requires { vec_len out.old + 8 ≤ vec_capacity out.old }
    ensures { Puts out.old out.new (save_fault_text fault) 8 }
{
    match fault {
        SaveFault::Flash => put_text(b"flash", out),
        SaveFault::Spent => put_text(b"spent", out),
        SaveFault::SequenceSpent => put_text(b"sequence", out),
    }
}

/// Puts what became of the last job of a block.
fn put_last(last: LastResult, out: &mut Vec<u8>)
    requires { vec_len out.old + 7 ≤ vec_capacity out.old }
    ensures { Puts out.old out.new (last_text last) 7 }
{
    match last {
        LastResult::Never => put_text(b"none", out),
        LastResult::Pending => put_text(b"pending", out),
        LastResult::Written => put_text(b"written", out),
        LastResult::Failed => put_text(b"failed", out),
    }
}

/// Puts the queue's reply to a post or a question.
fn put_queue_reply(reply: &KeptQueueReply, out: &mut Vec<u8>)
    requires { vec_len out.old + 8 ≤ vec_capacity out.old }
    ensures { (bytes : List ℕ) → Puts out.old out.new (queue_text (queue_reply_in bytes reply.now)) 8 }
{
    match reply {
        KeptQueueReply::Accepted => put_text(b"accepted", out),
        KeptQueueReply::BlockPending => put_text(b"pending", out),
        KeptQueueReply::QueueFull => put_text(b"full", out),
        KeptQueueReply::Last(last) => put_last(*last, out),
        KeptQueueReply::Job { .. }
        | KeptQueueReply::NoJob
        | KeptQueueReply::Noted
        | KeptQueueReply::NotTaken => {}
    }
}

/// Puts what a drain did, in at most 36 bytes.
#[tactic(auto, unfolding(crate::specs::Answer::drained_text))]
fn put_drained(written: u16, failed: u16, out: &mut Vec<u8>)
    requires { vec_len out.old + 36 ≤ vec_capacity out.old }
    ensures { Puts out.old out.new (drained_text written failed) 36 }
{
    put_text(b"written ", out);
    put_number(u32::from(written), out);
    put_text(b" failed ", out);
    put_number(u32::from(failed), out);
}

/// Puts a reply, with these bytes if it is a response.
fn put_beside<B>(reply: &ReplyOf<B>, response: &[u8], out: &mut Vec<u8>)
    requires { vec_len out.old + reply_room reply.now response.now ≤ vec_capacity out.old }
    ensures { Puts out.old out.new (reply_text (reply_with reply.now response.now)) (reply_room reply.now response.now) }
{
    match reply {
        ReplyOf::Taken => put_text(b"taken", out),
        ReplyOf::Ignored(cause) => put_ignored(*cause, out),
        ReplyOf::Shown(shown) => put_shown(shown, out),
        ReplyOf::Response(_) => put_bytes(response, out),
        ReplyOf::Silent => put_text(b"silent", out),
    }
}

/// The bytes of a response that is kept among these, and none of another reply.
fn response_in(reply: KeptReply, responses: &[u8]) -> &[u8]
    requires { IsReplyWithin (length responses.now) reply }
    ensures reply { reply_with reply result.now ≡ reply_in responses.now reply }
    ensures room { reply_room reply result.now ≡ kept_room reply }
{
    match reply {
        ReplyOf::Response(kept) => kept.among(responses),
        _ => &[],
    }
}

/// Puts the text of a reply, with these bytes if it is a response. Where memory is short it puts nothing.
pub fn put_reply<B: Drop>(
    reply: ReplyOf<B>,
    response: &[u8],
    out: &mut Vec<u8>,
) -> Result<(), AllocError>
    ensures ok { OnOk result (out.new.items ≡ out.old.items ++ reply_text (reply_with reply response.now)) }
    ensures err { OnErr result (out.new.items ≡ out.old.items) }
{
    let room = match reply {
        ReplyOf::Response(_) => response.len().checked_mul(3).ok_or(AllocError)?,
        _ => ANSWER_ROOM,
    };
    out.reserve(room)?;
    put_beside(&reply, response, out);
    Ok(())
}

/// Puts the text of a reply as a lane keeps it, whose response lies among these bytes. Where memory is short it puts nothing.
pub fn put_kept_reply(
    reply: &KeptReply,
    responses: &[u8],
    out: &mut Vec<u8>,
) -> Result<(), AllocError>
    requires { IsReplyWithin (length responses.now) reply.now }
    ensures ok { OnOk result (out.new.items ≡ out.old.items ++ reply_text (reply_in responses.now reply.now)) }
    ensures err { OnErr result (out.new.items ≡ out.old.items) }
{
    put_reply(*reply, response_in(*reply, responses), out)
}

/// Puts an answer.
fn put_told(answer: &KeptAnswer, responses: &[u8], out: &mut Vec<u8>)
    requires within { IsAnswerWithin (length responses.now) answer.now }
    requires room { vec_len out.old + answer_room answer.now ≤ vec_capacity out.old }
    ensures { Puts out.old out.new (answer_text (told_of responses.now answer.now)) (answer_room answer.now) }
{
    match answer {
        StepAnswer::Dem(told) => {
            put_beside(&told.reply, response_in(told.reply, responses), out);
        }
        StepAnswer::Saved(generation) => put_number(*generation, out),
        StepAnswer::SaveFailed(fault) => put_save_fault(*fault, out),
        StepAnswer::Queue(told) => put_queue_reply(&told.reply, out),
        StepAnswer::Drained { written, failed } => put_drained(*written, *failed, out),
        StepAnswer::Bytes(kept) => put_bytes(kept.among(responses), out),
        StepAnswer::NoBlock => put_text(b"missing", out),
        StepAnswer::BlockFlash => put_text(b"flash", out),
        StepAnswer::Armed => put_text(b"armed", out),
        StepAnswer::Dark => put_text(b"dark", out),
    }
}

/// Puts an arrow, an answer and the end of the line. Where memory is short it puts nothing.
pub(crate) fn put_answer(
    answer: &KeptAnswer,
    responses: &[u8],
    out: &mut Vec<u8>,
) -> Result<(), AllocError>
    requires { IsAnswerWithin (length responses.now) answer.now }
    ensures ok { OnOk result (out.new.items ≡ out.old.items ++ answer_part (told_of responses.now answer.now)) }
    ensures err { OnErr result (out.new.items ≡ out.old.items) }
{
    let room = match answer {
        StepAnswer::Dem(
            Answer {
                reply: ReplyOf::Response(kept),
                ..
            },
        ) => kept.length as usize * 3,
        StepAnswer::Bytes(kept) => kept.length as usize * 3,
        _ => ANSWER_ROOM,
    };
    out.reserve(room + ABOUT_ANSWER)?;
    put_text(b" -> ", out);
    put_told(answer, responses, out);
    put_text(b"\n", out);
    Ok(())
}
