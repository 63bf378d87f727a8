//! The lines of a life, written to a sink in pieces.
ghost use Rattle.std.specs.Prelude.{◌≡◌, ◌≢◌, ◌+◌, ◌++◌, ◌<◌, ◌^◌, [], OnOk, drop, length, map, slice_index_or, vec_len};
ghost use Rattle.flt_io.specs.Written.{Writes};
ghost use Rattle.flt_restore.specs.declared.fault.StartFault.TheVariants.{Flash};
ghost use Rattle.flt_step.specs.Part.{parts_of};
ghost use Rattle.flt_life_model.specs.declared.answer.StepAnswer.TheVariants as answers;
ghost use Rattle.flt_life_model.specs.declared.life.Boot.TheVariants.{Refused};
ghost use Rattle.flt_life_model.specs.Answers.{IsAnswerWithin, told_of};
ghost use Rattle.flt_life_model.specs.Parts.{widths};
ghost use Rattle.flt_life_model.specs.Room.{told_in};
ghost use Rattle.flt_report.specs.Answer.{step_line};
ghost use Rattle.flt_report.specs.Left.{WritesBut};
ghost use Rattle.flt_report.specs.Life.{block_text, lane_steps, lane_text, lanes_text, life_text, lines_text, parts_text};

use crate::block::{put_end, put_lane, put_par};
use crate::boot::put_boot;
use crate::step::put_step;
use flt_io::{Sink, StreamFault};
use flt_life_model::{Boot, KeptAnswer, LaneReplies};
use flt_step::{Part, Step};
use std::alloc::AllocError;

/// The lines of steps are pushed once they have come to this many bytes.
const PIECE: usize = 2048;

/// Writes a text.
pub fn write_text<K: Sink>(text: &[u8], sink: &mut K) -> Result<(), StreamFault>
    ensures { Writes K.held K.faults sink.old sink.new text.now result }
{
    sink.push(text)?;
    Ok(())
}

/// Puts the line of a step and its answer in place of what `line` holds.
fn put_answered(
    line: &mut Vec<u8>,
    step: &Step,
    answer: &KeptAnswer,
    responses: &[u8],
) -> Result<(), AllocError>
    requires { IsAnswerWithin (length responses.now) answer.now }
    ensures { OnOk result (line.new.items ≡ step_line step.now (told_of responses.now answer.now)) }
{
    line.clear();
    put_step(step, answer, responses, line)
}

/// Writes a line for each step that was answered.
fn write_steps<K: Sink>(
    line: &mut Vec<u8>,
    steps: &[Step],
    replies: &LaneReplies,
    sink: &mut K,
) -> Result<(), StreamFault>
    ensures { Writes K.held K.faults sink.old sink.new (lines_text steps.now (told_in replies.now)) result }
{
    let count = steps.len().min(replies.answers.len());
    for index in 0..count {
        put_answered(
            line,
            &steps[index],
            &replies.answers[index],
            &replies.responses,
        )?;
        sink.push(line)?;
    }
    Ok(())
}

/// Writes the lines of a lane of this number.
fn write_lane<K: Sink>(
    line: &mut Vec<u8>,
    number: u32,
    steps: &[Step],
    replies: &LaneReplies,
    sink: &mut K,
) -> Result<(), StreamFault>
    ensures { Writes K.held K.faults sink.old sink.new (lane_text number steps.now (told_in replies.now)) result }
{
    line.clear();
    put_lane(number, line)?;
    sink.push(line)?;
    write_steps(line, steps, replies, sink)
}

/// Writes the lines of lanes, from this number on.
fn write_lanes<K: Sink>(
    line: &mut Vec<u8>,
    number: u32,
    lanes: &[Vec<Step>],
    told: &[LaneReplies],
    sink: &mut K,
) -> Result<(), StreamFault>
    requires { number + length lanes.now < 2 ^ 32 }
    ensures { Writes K.held K.faults sink.old sink.new (lanes_text number (lane_steps lanes.now) (map told_in told.now)) result }
{
    let count = lanes.len().min(told.len());
    for index in 0..count {
        write_lane(
            line,
            number + index as u32,
            &lanes[index],
            &told[index],
            sink,
        )?;
    }
    Ok(())
}

/// Writes the lines of a block, whose lanes go on from this number.
fn write_block<K: Sink>(
    line: &mut Vec<u8>,
    number: u32,
    lanes: &[Vec<Step>],
    told: &[LaneReplies],
    sink: &mut K,
) -> Result<(), StreamFault>
    requires { number + length lanes.now < 2 ^ 32 }
    ensures { Writes K.held K.faults sink.old sink.new (block_text number (lane_steps lanes.now) (map told_in told.now)) result }
{
    line.clear();
    put_par(line)?;
    sink.push(line)?;
    write_lanes(line, number, lanes, told, sink)?;
    line.clear();
    put_end(line)?;
    sink.push(line)?;
    Ok(())
}

/// Puts the line of the next step of lane 0, which was answered, after the lines that `piece` holds, and pushes them where they
/// have come to a piece.
fn write_one<K: Sink>(
    piece: &mut Vec<u8>,
    step: &Step,
    own: &LaneReplies,
    index: usize,
    sink: &mut K,
) -> Result<(), StreamFault>
    requires { index < vec_len own.now.answers }
    ensures { WritesBut K.held K.faults sink.old sink.new piece.new.items
        (piece.old.items ++ step_line step.now (slice_index_or (told_in own.now) index answers.Dark)) result }
{
    put_step(step, &own.answers[index], &own.responses, piece)?;
    if piece.len() < PIECE {
        return Ok(());
    }
    sink.push(piece)?;
    piece.clear();
    Ok(())
}

/// Pushes the lines that `piece` holds, and writes the lines of a block after them. No line is kept.
fn write_next_block<K: Sink>(
    piece: &mut Vec<u8>,
    number: u32,
    lanes: &[Vec<Step>],
    told: &[LaneReplies],
    sink: &mut K,
) -> Result<(), StreamFault>
    requires { number + length lanes.now < 2 ^ 32 }
    ensures written { Writes K.held K.faults sink.old sink.new (piece.old.items ++ block_text number (lane_steps lanes.now) (map told_in told.now)) result }
    ensures none { OnOk result (piece.new.items ≡ []) }
{
    sink.push(piece)?;
    write_block(piece, number, lanes, told, sink)?;
    piece.clear();
    Ok(())
}

/// The answers of the lanes from an index on.
fn rest_of(told: &[LaneReplies], from: usize) -> &[LaneReplies]
    ensures { result.now ≡ drop from told.now }
{
    if from < told.len() {
        &told[from..]
    } else {
        &told[told.len()..]
    }
}

/// Puts the lines of parts that were made, with the answers of lane 0 and those of the other lanes, after those that `piece` holds,
/// pushes them in pieces, and keeps the last ones.
fn put_parts<K: Sink>(
    piece: &mut Vec<u8>,
    parts: &[Part],
    own: &LaneReplies,
    told: &[LaneReplies],
    sink: &mut K,
) -> Result<(), StreamFault>
    requires { widths (parts_of parts.now) + 1 < 2 ^ 32 }
    ensures { WritesBut K.held K.faults sink.old sink.new piece.new.items
        (piece.old.items ++ parts_text 1 (parts_of parts.now) (told_in own.now) (map told_in told.now)) result }
{
    let mut answered = 0;
    let mut lanes_told = 0;
    for part in parts {
        match part {
            Part::One(step) => {
                if own.answers.len() <= answered {
                    return Ok(());
                }
                write_one(piece, step, own, answered, sink)?;
                answered += 1;
            }
            Part::Lanes(lanes) => {
                let number = lanes_told as u32 + 1;
                write_next_block(piece, number, lanes, rest_of(told, lanes_told), sink)?;
                lanes_told += lanes.len();
            }
        }
    }
    Ok(())
}

/// Writes the lines of a life of this number: how it began, and the steps of its parts that were answered. `line` is used again for
/// them.
pub fn write_life<K: Sink>(
    line: &mut Vec<u8>,
    number: u32,
    parts: &[Part],
    boot: &Boot,
    replies: &[LaneReplies],
    sink: &mut K,
) -> Result<(), StreamFault>
    requires flash { boot.now ≢ Refused Flash }
    requires lanes { widths (parts_of parts.now) + 1 < 2 ^ 32 }
    ensures { Writes K.held K.faults sink.old sink.new (life_text number (parts_of parts.now) boot.now replies.now) result }
{
    line.clear();
    put_boot(number, boot, line)?;
    sink.push(line)?;
    match boot {
        Boot::Started { .. } | Boot::Dark => match replies {
            [own, told @ ..] => {
                line.clear();
                put_parts(line, parts, own, told, sink)?;
                sink.push(line)?;
                Ok(())
            }
            [] => Ok(()),
        },
        Boot::Refused(_) => Ok(()),
    }
}
