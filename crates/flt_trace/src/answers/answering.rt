//! The texts of the answers of a life.
ghost use Rattle.std.specs.Prelude.{◌≡◌, IfOk, OnOk, length, map, replicate, slice_set};
ghost use Rattle.std.specs.String.{string_bytes};
ghost use Rattle.flt_life_model.specs.Answers.{IsAnswerWithin, IsReplyWithin, reply_in, told_of};
ghost use Rattle.flt_life_model.specs.Room.{told_in};
ghost use Rattle.flt_report.specs.Answer.{reply_text};
ghost use Rattle.flt_trace.specs.Answered.{answer_texts, taken_text, with_lane, with_lanes, with_told};

use crate::text::text_of;
use flt_life_model::{Entry, KeptAnswer, KeptReply, LaneReplies, StepAnswer};
use flt_model::Op;
use flt_report::put_kept_reply;
use std::alloc::{AllocError, Global};

/// The text of a reply of a lane, whose response is among these bytes.
fn reply_text(alloc: Global, reply: &KeptReply, responses: &[u8]) -> Result<String, AllocError>
    requires { IsReplyWithin (length responses.now) reply.now }
    ensures { IfOk result (λ text. string_bytes text ≡ reply_text (reply_in responses.now reply.now)) }
{
    let mut text = Vec::new(alloc);
    put_kept_reply(reply, responses, &mut text)?;
    text_of(text)
}

/// Puts a text at a place, if there is such a place.
fn put_at(texts: &mut Vec<String>, place: usize, text: String)
    ensures { map string_bytes texts.new.items ≡ slice_set (map string_bytes texts.old.items) place (string_bytes text) }
{
    if place < texts.len() {
        texts[place] = text;
    }
}

/// Puts the text of an answer at its place, where it is a reply of the status machine.
fn put_told(
    alloc: Global,
    answer: &KeptAnswer,
    responses: &[u8],
    texts: &mut Vec<String>,
) -> Result<(), AllocError>
    requires { IsAnswerWithin (length responses.now) answer.now }
    ensures { OnOk result (map string_bytes texts.new.items ≡ with_told (map string_bytes texts.old.items) (told_of responses.now answer.now)) }
{
    if let StepAnswer::Dem(told) = answer {
        let text = reply_text(alloc, &told.reply, responses)?;
        put_at(texts, told.place as usize, text);
    }
    Ok(())
}

/// Puts the texts of the answers of a lane.
fn put_lane(alloc: Global, lane: &LaneReplies, texts: &mut Vec<String>) -> Result<(), AllocError>
    ensures { OnOk result (map string_bytes texts.new.items ≡ with_lane (map string_bytes texts.old.items) (told_in lane.now)) }
{
    for answer in &lane.answers {
        put_told(alloc, answer, &lane.responses, texts)?;
    }
    Ok(())
}

/// As many texts of a call that was taken.
fn taken_texts(alloc: Global, count: usize) -> Result<Vec<String>, AllocError>
    ensures { IfOk result (λ texts. map string_bytes texts.items ≡ replicate count taken_text) }
{
    let mut texts = Vec::with_capacity(alloc, count)?;
    for _ in 0..count {
        let text = String::from_str(alloc, "taken")?;
        texts.push(text)?;
    }
    Ok(texts)
}

/// The texts of the answers of a life, one for each call of its journal: what its steps were answered, each at its place, and elsewhere
/// that the call was taken. The error means that memory ran out.
pub fn answer_texts(
    alloc: Global,
    journal: &[Entry<Op>],
    replies: &[LaneReplies],
) -> Result<Vec<String>, AllocError>
    ensures { IfOk result (λ texts. map string_bytes texts.items ≡ answer_texts journal.now replies.now) }
{
    let mut texts = taken_texts(alloc, journal.len())?;
    for lane in replies {
        put_lane(alloc, lane, &mut texts)?;
    }
    Ok(texts)
}
