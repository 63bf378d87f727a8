//! The calls of a journal, printed.
ghost use Rattle.std.specs.Prelude.{◌≡◌, ◌<◌, ◌^◌, ◌++◌, ◌∷◌, All, IfOk, IfSome, Some, codes, map, true};
ghost use Rattle.std.specs.Fmt.{decimal};
ghost use Rattle.std.specs.String.{string_bytes};
ghost use Rattle.flt_config.specs.declared.config.Config.{Config};
ghost use Rattle.flt_model.specs.declared.call.Op.{Op as Call};
ghost use Rattle.flt_script.specs.Laws.{are_bytes, is_held};
ghost use Rattle.flt_step.specs.Words.{with_number};
ghost use Rattle.flt_turn.specs.Journal.{ops_of};
ghost use Rattle.flt_trace.specs.Call.{AreCallTexts, CanBeMade, IsCallText, IsOfSave, IsOfStep, IsOpText, IsSaveCall, step_making};

use crate::text::text_of;
use flt_life_model::Entry;
use flt_model::Op;
use flt_script::laws::printed_step_is_read_again;
use flt_step::{Step, put_words};
use std::alloc::{AllocError, Global};

/// A witness for the checker: each of the bytes is below 256.
fn witness(bytes: &[u8])
    ensures { are_bytes bytes.now ≡ true }
{
    let _count = bytes.len();
}

/// The step that makes a call; none makes those of a save.
fn step_of(op: &Op) -> Option<Step>
    ensures step { result ≡ step_making op.now }
    ensures held { IfSome result (λ step. is_held step ≡ true) }
{
    match op {
        Op::Report { event, report } => Some(Step::Report {
            event: *event,
            report: *report,
        }),
        Op::Show { event } => Some(Step::Show { event: *event }),
        Op::Cycle { cycle } => Some(Step::Cycle { cycle: *cycle }),
        Op::Tick { ticks } => Some(Step::Tick { ticks: *ticks }),
        Op::Signal { index, value } => Some(Step::Signal {
            index: *index,
            value: *value,
        }),
        Op::Enable {
            condition,
            fulfilled,
        } => Some(Step::Enable {
            condition: *condition,
            fulfilled: *fulfilled,
        }),
        Op::Request { tester, bytes } => {
            witness(bytes.as_slice());
            Some(Step::Request {
                tester: *tester,
                bytes: bytes.clone().unwrap(),
            })
        }
        Op::Snapshot | Op::Saved { .. } => None,
    }
}

/// The words of the acknowledgement of a save.
fn saved_words(alloc: Global, generation: u32) -> Result<String, AllocError>
    ensures words { IfOk result (λ words. string_bytes words ≡ with_number (codes "saved") generation) }
    ensures within { generation < 2 ^ 32 }
{
    format!(in alloc; "saved {generation}")
}

/// The words of a call that a save makes.
fn save_words(alloc: Global, op: &Op) -> Result<String, AllocError>
    requires { IsSaveCall op.now }
    ensures { IfOk result (λ words. IsOfSave op.now (string_bytes words)) }
{
    match op {
        Op::Saved { generation } => saved_words(alloc, *generation),
        _ => String::from_str(alloc, "snapshot"),
    }
}

/// The words of a step.
fn step_words(alloc: Global, step: &Step) -> Result<String, AllocError>
    requires { is_held step.now ≡ true }
    ensures { IfOk result (λ words. (c : Config) (op : Call) → step_making op ≡ Some step.now → CanBeMade c op → IsOfStep c op (string_bytes words)) }
{
    printed_step_is_read_again();
    let mut words = Vec::new(alloc);
    put_words(step, &mut words)?;
    text_of(words)
}

/// The words of a call: those of its step, or of what a save makes.
fn op_words(alloc: Global, op: &Op) -> Result<String, AllocError>
    ensures { IfOk result (λ words. (c : Config) → CanBeMade c op.now → IsOpText c op.now (string_bytes words)) }
{
    match step_of(op) {
        Some(step) => step_words(alloc, &step),
        None => save_words(alloc, op),
    }
}

/// The text of words of a lane.
fn lane_text(alloc: Global, lane: u32, words: &str) -> Result<String, AllocError>
    ensures text { IfOk result (λ text. string_bytes text ≡ decimal lane ++ 32 ∷ words.now) }
    ensures within { lane < 2 ^ 32 }
{
    format!(in alloc; "{lane} {words}")
}

/// The text of a call of a lane.
fn call_text(alloc: Global, call: &Entry<Op>) -> Result<String, AllocError>
    ensures { IfOk result (λ text. (c : Config) → CanBeMade c call.now.op → IsCallText c call.now (string_bytes text)) }
{
    let words = op_words(alloc, &call.op)?;
    let text = lane_text(alloc, call.lane, &words)?;
    Ok(text)
}

/// The texts of the calls of a journal, one each. The error means that memory ran out.
pub fn call_texts(alloc: Global, journal: &[Entry<Op>]) -> Result<Vec<String>, AllocError>
    ensures { IfOk result (λ texts. (c : Config) → All (CanBeMade c) (ops_of journal.now) → AreCallTexts c journal.now (map string_bytes texts.items)) }
{
    let mut texts = Vec::with_capacity(alloc, journal.len())?;
    for call in journal {
        let text = call_text(alloc, call)?;
        texts.push(text)?;
    }
    Ok(texts)
}
