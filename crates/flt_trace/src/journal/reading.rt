//! The calls of a journal, read.
ghost use Rattle.std.specs.Prelude.{◌≡◌, ◌≢◌, ◌^◌, ◌<◌, ℕ, List, All, IfOk, IfSome, MatchOption, position};
ghost use Rattle.std.specs.Fmt.{decimal};
ghost use Rattle.flt_model.specs.declared.call.Op.{Op as Call};
ghost use Rattle.flt_dcm.specs.Unit.{IsAdmitted};
ghost use Rattle.flt_turn.specs.Journal.{ops_of};
ghost use Rattle.flt_turn.specs.declared.vault.Entry.{Entry as Made};
ghost use Rattle.flt_life_model.specs.Actions.{action_of};
ghost use Rattle.flt_trace.specs.Trace.{texts_seen};
ghost use Rattle.flt_trace.specs.Call.{AreCallTexts, IsCallText, IsOfSave, IsOfStep, IsOpText, is_space};

use flt_config::ValidConfig;
use flt_life_model::{Action, Entry, action_of};
use flt_model::Op;
use flt_script::{read_number, read_step};
use flt_step::{Step, put_words};
use std::alloc::{AllocError, Global};

/// The number below 2^32 that digits without a leading zero spell.
fn read_plain(word: &[u8]) -> Option<u32>
    ensures { MatchOption result
        ((n : ℕ) → n < 2 ^ 32 → word.now ≢ decimal n)
        (λ n. (n < 2 ^ 32) × (word.now ≡ decimal n)) }
{
    let value = read_number(word)?;
    if value > u64::from(u32::MAX) {
        return None;
    }
    if word.len() > 1 && word[0] == b'0' {
        return None;
    }
    Some(value as u32)
}

/// The call that a step makes, if it makes one.
fn call_of(step: &Step) -> Option<Op>
    ensures { MatchOption result
        ((op : Call) → action_of step.now ≢ Action.Call op)
        (λ op. action_of step.now ≡ Action.Call op) }
{
    match action_of(step) {
        Action::Call(op) => Some(op),
        _ => None,
    }
}

/// The call of the step whose text this is; none where it is that of no step within the configuration, or of one that makes no call.
fn read_step_call(
    config: &ValidConfig,
    words: &[u8],
    printed: &mut Vec<u8>,
) -> Result<Option<Op>, AllocError>
    ensures { IfOk result (λ found. MatchOption found
        ((op : Call) → IsOfStep config.now op words.now → ⊥)
        (λ op. IsOfStep config.now op words.now)) }
{
    let Some(step) = read_step(words, config.config()) else {
        return Ok(None);
    };
    printed.clear();
    put_words(&step, printed)?;
    if printed.as_slice() != words {
        return Ok(None);
    }
    Ok(call_of(&step))
}

/// The call whose text this is, of those that a save makes.
fn read_save_call(words: &[u8]) -> Option<Op>
    ensures { MatchOption result
        ((op : Call) → IsOfSave op words.now → ⊥)
        (λ op. IsOfSave op words.now) }
{
    if words == b"snapshot".as_slice() {
        return Some(Op::Snapshot);
    }
    let number = words.strip_prefix(b"saved ")?;
    let generation = read_plain(number)?;
    Some(Op::Saved { generation })
}

/// The call whose text this is.
fn read_op(
    config: &ValidConfig,
    words: &[u8],
    printed: &mut Vec<u8>,
) -> Result<Option<Op>, AllocError>
    ensures { IfOk result (λ found. MatchOption found
        ((op : Call) → IsOpText config.now op words.now → ⊥)
        (λ op. IsOpText config.now op words.now)) }
{
    match read_step_call(config, words, printed)? {
        Some(op) => Ok(Some(op)),
        None => Ok(read_save_call(words)),
    }
}

/// The place of the first space of a text, if it has one.
fn first_space(text: &[u8]) -> Option<usize>
    ensures { result ≡ position is_space text.now }
{
    text.iter().position(|byte| *byte == b' ')
}

/// The call of a lane whose text this is; none where it is that of no call.
fn read_call(
    config: &ValidConfig,
    text: &[u8],
    printed: &mut Vec<u8>,
) -> Result<Option<Entry<Op>>, AllocError>
    ensures { IfOk result (λ found. MatchOption found
        ((call : Made Call) → IsCallText config.now call text.now → ⊥)
        (λ call. IsCallText config.now call text.now)) }
{
    let Some(at) = first_space(text) else {
        return Ok(None);
    };
    let Some(lane) = read_plain(&text[..at]) else {
        return Ok(None);
    };
    match read_op(config, &text[at + 1..], printed)? {
        Some(op) => Ok(Some(Entry { lane, op })),
        None => Ok(None),
    }
}

/// The calls whose texts these are; none where one of them is that of no call. The error means that memory ran out.
pub fn read_calls(
    alloc: Global,
    config: &ValidConfig,
    texts: &[&str],
) -> Result<Option<Vec<Entry<Op>>>, AllocError>
    ensures read { IfOk result (λ found. MatchOption found
        ((calls : List (Made Call)) → AreCallTexts config.now calls (texts_seen texts.now) → ⊥)
        (λ calls. AreCallTexts config.now calls.items (texts_seen texts.now))) }
    ensures admitted { IfOk result (λ found. IfSome found (λ calls. All (IsAdmitted config.now) (ops_of calls.items))) }
{
    let mut calls = Vec::with_capacity(alloc, texts.len())?;
    let mut printed = Vec::new(alloc);
    for text in texts {
        match read_call(config, text.as_bytes(), &mut printed)? {
            Some(call) => calls.push(call)?,
            None => return Ok(None),
        }
    }
    Ok(Some(calls))
}
