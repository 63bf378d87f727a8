//! The trace of a script: the last of its lives, as one line.
ghost use Rattle.std.specs.Prelude.{IfOk, IfSome};
ghost use Rattle.std.specs.String.{string_bytes};
ghost use Rattle.flt_config.specs.Durable.{Fits};
ghost use Rattle.flt_did.specs.Table.{dids_of};
ghost use Rattle.flt_script.specs.Script.{content};
ghost use Rattle.flt_trace.specs.Trace.{own_texts};
ghost use Rattle.flt_filter.specs.Verdict.{due_of};
ghost use Rattle.flt_examine.specs.Lines.{AreTextsOf, IsLastLine, IsLineOf, IsNoScript, IsReadAs, LastFits};
ghost use Rattle.flt_examine.specs.Traced.{IsTraceDue, RunsOnBlank};

use crate::source::Held;
use flt_config::{Persist, ValidConfig};
use flt_did::{DID_ROWS, DidTable};
use flt_fee::Fee;
use flt_filter::Verdict;
use flt_flash::FlashMem;
use flt_io::{Discard, Status};
use flt_life_model::{Boot, Life};
use flt_run::{Command, OpenGate, Outcome, run};
use flt_script::{ParseFault, Script, parse};
use flt_trace::laws::{calls_can_be_made, told_answers_are_due};
use flt_trace::{LifeTexts, answer_texts, base_texts, call_texts, print_trace};
use std::alloc::{AllocError, Global};
use std::marker::Sync;
use std::sync::Wait;
use std::thread::Threads;

/// The pages of a sector of the flash.
const PAGES: u16 = 1024;

/// How often its power may come.
const BOOTS: u16 = 256;

/// Runs a script over a blank flash, with an open gate; nothing if memory runs out.
fn run_on_blank<R: Threads + Wait + Sync>(
    rt: &R,
    alloc: Global,
    bytes: &[u8],
    dids: DidTable<DID_ROWS>,
) -> Option<Outcome<FlashMem>>
    ensures { IfSome result (RunsOnBlank (dids_of dids) bytes.now) }
{
    let flash = FlashMem::blank(alloc, PAGES, BOOTS).ok()?;
    let mut source = Held::new(bytes);
    let outcome = run::<R, Held<'_>, Discard, Fee<FlashMem>, OpenGate>(
        rt,
        alloc,
        Some(Command::Run),
        &mut source,
        &mut Discard,
        flash,
        dids,
        &OpenGate,
    );
    if outcome.status == Status::OutOfMemory.number() {
        return None;
    }
    Some(outcome)
}

/// The texts of a life that was started from this state.
fn life_texts(
    alloc: Global,
    config: &ValidConfig,
    script: String,
    start: &Persist,
    life: &Life,
) -> Result<LifeTexts, AllocError>
    requires { Fits config.now start.now }
    ensures { IfOk result (λ texts. AreTextsOf config.now (string_bytes script) start.now life.now (own_texts texts)) }
{
    let base = base_texts(alloc, config, start)?;
    let journal = call_texts(alloc, &life.journal)?;
    let answers = answer_texts(alloc, &life.journal, &life.replies)?;
    Ok(LifeTexts {
        script,
        base,
        journal,
        answers,
    })
}

/// The line of a life that was started from this state.
fn life_line(
    alloc: Global,
    config: &ValidConfig,
    bytes: Vec<u8>,
    start: &Persist,
    life: &Life,
) -> Result<Vec<u8>, AllocError>
    requires { Fits config.now start.now }
    ensures { IfOk result (λ line. IsLineOf config.now bytes.items start.now life.now line.items) }
{
    let Ok(script) = String::from_utf8(bytes) else {
        return Err(AllocError);
    };
    let texts = life_texts(alloc, config, script, start, life)?;
    print_trace(alloc, texts)
}

/// The line of the last life if it was started, otherwise nothing.
fn last_line(
    alloc: Global,
    config: &ValidConfig,
    bytes: Vec<u8>,
    lives: &[Life],
) -> Result<Vec<u8>, AllocError>
    requires { LastFits config.now lives.now }
    ensures { IfOk result (λ line. IsLastLine config.now bytes.items lives.now line.items) }
{
    let Some(life) = lives.last() else {
        return Ok(Vec::new(alloc));
    };
    match &life.boot {
        Boot::Started { start, .. } => life_line(alloc, config, bytes, start, life),
        Boot::Dark | Boot::Refused(_) => Ok(Vec::new(alloc)),
    }
}

/// A run, and what is reported about it.
#[derive(Drop)]
pub(crate) struct Traced {
    pub(crate) outcome: Outcome<FlashMem>,
    pub(crate) verdict: Verdict,
}

/// The run of a script, and the line of its last life; nothing if memory runs out.
fn trace_script<R: Threads + Wait + Sync>(
    rt: &R,
    alloc: Global,
    script: Script,
    bytes: Vec<u8>,
    dids: DidTable<DID_ROWS>,
) -> Option<Traced>
    requires { IsReadAs (dids_of dids) bytes.items (content script) }
    ensures { IfSome result (λ traced. RunsOnBlank (dids_of dids) bytes.items traced.outcome
        × IsTraceDue (dids_of dids) bytes.items traced.outcome (due_of traced.verdict)) }
{
    told_answers_are_due();
    calls_can_be_made();
    let outcome = run_on_blank(rt, alloc, &bytes, dids)?;
    let text = last_line(alloc, &script.config, bytes, &outcome.lives).ok()?;
    let status = outcome.status;
    Some(Traced {
        outcome,
        verdict: Verdict { status, text },
    })
}

/// The run of bytes that are not a script; nothing if memory runs out.
fn trace_refused<R: Threads + Wait + Sync>(
    rt: &R,
    alloc: Global,
    bytes: &[u8],
    dids: DidTable<DID_ROWS>,
) -> Option<Traced>
    requires { IsNoScript (dids_of dids) bytes.now }
    ensures { IfSome result (λ traced. RunsOnBlank (dids_of dids) bytes.now traced.outcome
        × IsTraceDue (dids_of dids) bytes.now traced.outcome (due_of traced.verdict)) }
{
    let outcome = run_on_blank(rt, alloc, bytes, dids)?;
    let status = outcome.status;
    Some(Traced {
        outcome,
        verdict: Verdict {
            status,
            text: Vec::new(alloc),
        },
    })
}

/// The run of bytes, and what is reported about it; nothing if memory runs out.
pub(crate) fn trace_bytes<R: Threads + Wait + Sync>(
    rt: &R,
    alloc: Global,
    bytes: Vec<u8>,
    dids: DidTable<DID_ROWS>,
) -> Option<Traced>
    ensures { IfSome result (λ traced. RunsOnBlank (dids_of dids) bytes.items traced.outcome
        × IsTraceDue (dids_of dids) bytes.items traced.outcome (due_of traced.verdict)) }
{
    match parse(alloc, &bytes, &dids) {
        Ok(script) => trace_script(rt, alloc, script, bytes, dids),
        Err(ParseFault::At(_)) => trace_refused(rt, alloc, &bytes, dids),
        Err(ParseFault::Memory) => None,
    }
}
