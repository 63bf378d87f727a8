//! The answer to a line.
ghost use Rattle.std.specs.Prelude.{◌≡◌, ◌≤◌, IfErr, IfOk, length};
ghost use Rattle.std.specs.Vec.{vec_capacity};
ghost use Rattle.flt_io.specs.Written.{Writes};
ghost use Rattle.flt_dcm.specs.Whole.{config_of, unit_seen};
ghost use Rattle.flt_life_model.specs.Answers.{byte_room, told_with};
ghost use Rattle.flt_report.specs.Answer.{step_line};
ghost use Rattle.flt_live.specs.Answered.{IsLineAnswered, IsDarkLineAnswered, IsReady, IsUp};
ghost use Rattle.flt_live.specs.Due.{IsDueIn, due_at, refusal_line, step_due};

use crate::living::Room;
use crate::making::make;
use flt_config::ValidConfig;
use flt_dcm::{ReplyKind, Unit};
use flt_flash::Blocks;
use flt_io::{Sink, StreamFault};
use flt_life_model::{LaneReplies, StepAnswer, action_of};
use flt_queue::JobQueue;
use flt_report::put_step;
use flt_script::{AloneLine, LineCause, LineFault, read_alone};
use flt_step::Step;
use flt_store::Store;
use std::alloc::Global;

/// What a line was.
#[derive(Clone, Copy, Debug, PartialEq, Eq)]
pub enum Answered {
    /// It was answered.
    Line,
    /// It ends the life; the next one answers it.
    Power,
}

/// Why a line is refused.
#[derive(Clone, Copy)]
pub enum Refusal {
    /// As a line of a script is.
    Cause(LineCause),
    /// It would arm the bench, which a session does not have.
    Arm,
}

/// What is to be done at a line.
#[derive(Drop)]
pub enum Due {
    /// Nothing, which is answered by an empty line.
    Nothing,
    /// To refuse it.
    Refuse(Refusal),
    /// To make this step.
    Make(Step),
    /// To end the life.
    Power,
}

/// The line that answers a refused line.
fn refusal_line(refusal: Refusal) -> &'static [u8]
    ensures { result.now ≡ refusal_line refusal }
{
    match refusal {
        Refusal::Arm => b"refused arm\n",
        Refusal::Cause(LineCause::Large) => b"refused large\n",
        Refusal::Cause(LineCause::Long) => b"refused long\n",
        Refusal::Cause(LineCause::Byte) => b"refused byte\n",
        Refusal::Cause(LineCause::Word) => b"refused word\n",
        Refusal::Cause(LineCause::Form) => b"refused form\n",
        Refusal::Cause(LineCause::Order) => b"refused order\n",
        Refusal::Cause(LineCause::Range) => b"refused range\n",
        Refusal::Cause(LineCause::Many) => b"refused many\n",
        Refusal::Cause(LineCause::Block) => b"refused block\n",
        Refusal::Cause(LineCause::Did) => b"refused did\n",
        Refusal::Cause(LineCause::Config(_)) => b"refused config\n",
    }
}

/// What is to be done at a step.
#[inline(always)]
fn step_due(step: Step) -> Due
    ensures { result ≡ step_due step }
{
    if step.is_lane_step() {
        Due::Make(step)
    } else {
        Due::Refuse(Refusal::Arm)
    }
}

/// What is to be done at a line with this text.
#[inline(always)]
fn due_of(alloc: Global, text: &[u8], config: &ValidConfig) -> Result<Due, StreamFault>
    ensures due { IfOk result (λ due. due ≡ due_at config.now text.now) }
    ensures possible { IfOk result (IsDueIn config.now) }
    ensures memory { IfErr result (λ fault. fault ≡ StreamFault.Memory) }
{
    match read_alone(alloc, text, config.config()) {
        Ok(AloneLine::Skipped) => Ok(Due::Nothing),
        Ok(AloneLine::Power) => Ok(Due::Power),
        Ok(AloneLine::Step(step)) => Ok(step_due(step)),
        Err(LineFault::Cause(cause)) => Ok(Due::Refuse(Refusal::Cause(cause))),
        Err(LineFault::Memory) => Err(StreamFault::Memory),
    }
}

/// Pushes the line of a step with its answer, in one piece. The response is among these bytes, if it is one.
fn say<K: Sink>(
    step: &Step,
    answer: StepAnswer<ReplyKind>,
    response: &[u8],
    replies: &mut LaneReplies,
    line: &mut Vec<u8>,
    sink: &mut K,
) -> Result<Answered, StreamFault>
    requires answers { 1 ≤ vec_capacity replies.old.answers }
    requires responses { 1040 ≤ byte_room replies.old.responses }
    requires few { length response.now ≤ 1040 }
    ensures answers { vec_capacity replies.new.answers ≡ vec_capacity replies.old.answers }
    ensures responses { byte_room replies.old.responses ≤ byte_room replies.new.responses }
    ensures told { IfOk result (λ told. told ≡ Answered.Line) }
    ensures written { Writes K.held K.faults sink.old sink.new (step_line step.now (told_with response.now answer)) result }
{
    replies.answers.clear();
    replies.responses.clear();
    replies.keep(answer, response);
    line.clear();
    put_step(step, &replies.answers[0], &replies.responses, line)?;
    sink.push(line)?;
    Ok(Answered::Line)
}

/// Pushes a line that is known beforehand.
fn push_line<K: Sink>(line: &[u8], sink: &mut K) -> Result<Answered, StreamFault>
    ensures told { IfOk result (λ told. told ≡ Answered.Line) }
    ensures written { Writes K.held K.faults sink.old sink.new line.now result }
{
    sink.push(line)?;
    Ok(Answered::Line)
}

/// Makes the step of a line, and pushes its answer in one piece; a line that is refused is answered by why, and a line that says nothing
/// by an empty line. Neither changes anything. A `power` is not answered here.
pub fn answer_line<D: Blocks + Drop, K: Sink>(
    alloc: Global,
    unit: &mut Unit,
    queue: &mut JobQueue,
    store: &mut Store<D>,
    config: &ValidConfig,
    room: &mut Room,
    text: &[u8],
    sink: &mut K,
) -> Result<Answered, StreamFault>
    requires ready { IsReady room.old }
    requires same { config_of unit.old ≡ config.now }
    requires up { IsUp config.now (unit_seen unit.old) queue.old store.old }
    ensures ready { IsReady room.new }
    ensures same { config_of unit.new ≡ config.now }
    ensures up { IsUp config.now (unit_seen unit.new) queue.new store.new }
    ensures answered { IsLineAnswered config.now (due_at config.now text.now) K.held K.faults sink.old sink.new
        (unit_seen unit.old) (unit_seen unit.new) queue.old queue.new store.old store.new result }
{
    match due_of(alloc, text, config)? {
        Due::Nothing => push_line(b"\n", sink),
        Due::Refuse(why) => push_line(refusal_line(why), sink),
        Due::Power => Ok(Answered::Power),
        Due::Make(step) => {
            let action = action_of(&step);
            let answer = make(unit, queue, store, config, &mut room.buffers, action);
            say(
                &step,
                answer,
                room.buffers.response.as_slice(),
                &mut room.replies,
                &mut room.line,
                sink,
            )
        }
    }
}

/// The same in a dark life, which makes no step.
pub fn answer_dark_line<K: Sink>(
    alloc: Global,
    config: &ValidConfig,
    room: &mut Room,
    text: &[u8],
    sink: &mut K,
) -> Result<Answered, StreamFault>
    requires ready { IsReady room.old }
    ensures ready { IsReady room.new }
    ensures answered { IsDarkLineAnswered (due_at config.now text.now) K.held K.faults sink.old sink.new result }
{
    match due_of(alloc, text, config)? {
        Due::Nothing => push_line(b"\n", sink),
        Due::Refuse(refusal) => push_line(refusal_line(refusal), sink),
        Due::Power => Ok(Answered::Power),
        Due::Make(step) => say(
            &step,
            StepAnswer::Dark,
            &[],
            &mut room.replies,
            &mut room.line,
            sink,
        ),
    }
}
