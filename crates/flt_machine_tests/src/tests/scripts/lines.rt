//! The lines of the report, written by hand.
ghost use Rattle.std.specs.Prelude.{◌≢◌};
ghost use Rattle.flt_life_model.specs.Answers.{IsAnswerWithin};
ghost use Rattle.flt_restore.specs.declared.fault.StartFault.TheVariants as faults;

use super::holds;
use arrayvec::ArrayVec;
use flt_config::{CfgFault, Persist};
use flt_life_model::{
    Answer, Boot, KeptAnswer, KeptQueueReply, KeptReply, KeptResponse, StepAnswer,
};
use flt_model::{Cause, REQUEST, Report, Shown};
use flt_report::{put_boot, put_end, put_lane, put_par, put_step};
use flt_restore::StartFault;
use flt_script::{LineCause, ScriptFault, put_script_fault};
use flt_step::Step;
use flt_store::SaveFault;
use flt_store_model::{Mark, Place};
use std::alloc::{AllocError, Global};
use std::process::Abort;
use std::test::Fail;

/// The bytes of two responses, of 3 and 2 bytes.
const RESPONSES: [u8; 5] = [0x7F, 0x0A, 0xB9, 0xFF, 0x00];

/// What is before a line.
const BEFORE: &[u8] = b"x\n";

/// Whether this is exactly what follows the bytes before it.
fn stands(out: &[u8], line: &str) -> bool {
    out.strip_prefix(BEFORE) == Some(line.as_bytes())
}

/// Whether a step that is answered so has this line.
fn is_step(alloc: Global, step: &Step, answer: &KeptAnswer, line: &str) -> Result<bool, AllocError>
    requires { IsAnswerWithin 5 answer.now }
{
    let mut out = Vec::new(alloc);
    out.extend_from_slice(BEFORE)?;
    put_step(step, answer, &RESPONSES, &mut out)?;
    Ok(stands(&out, line))
}

/// Stops the test unless a step that is answered so has this line.
fn has_line(rt: &impl Abort, alloc: Global, step: &Step, answer: &KeptAnswer, line: &str)
    requires { IsAnswerWithin 5 answer.now }
{
    let has_it = matches!(is_step(alloc, step, answer, line), Ok(true));
    holds(rt, has_it, line);
}

/// The answer of a call, whose response is within the bytes.
fn told(reply: KeptReply) -> KeptAnswer
    ensures { IsAnswerWithin 5 result }
{
    match reply {
        KeptReply::Response(kept) if kept.from > 3 || kept.length > 5 - kept.from => {
            StepAnswer::Dark
        }
        reply => StepAnswer::Dem(Answer { place: 7, reply }),
    }
}

/// Replies to `cycle 3`, each with what is reported of it.
static REPLIES: [(KeptReply, &str); 9] = [
    (KeptReply::Taken, "cycle 3 -> taken\n"),
    (
        KeptReply::Ignored(Cause::SettingOff),
        "cycle 3 -> ignored setting\n",
    ),
    (
        KeptReply::Ignored(Cause::NotStarted),
        "cycle 3 -> ignored cycle\n",
    ),
    (
        KeptReply::Ignored(Cause::NotEnabled),
        "cycle 3 -> ignored enable\n",
    ),
    (KeptReply::Silent, "cycle 3 -> silent\n"),
    (
        KeptReply::Response(KeptResponse { from: 0, length: 3 }),
        "cycle 3 -> 7F 0A B9\n",
    ),
    (
        KeptReply::Response(KeptResponse { from: 3, length: 2 }),
        "cycle 3 -> FF 00\n",
    ),
    (
        KeptReply::Shown(Shown {
            status: 0xAF,
            fdc: 127,
            failed: 255,
            clean: 0,
            stored: 2,
            overflow: true,
        }),
        "cycle 3 -> status AF fdc 127 failed 255 clean 0 stored 2 overflow 1\n",
    ),
    (
        KeptReply::Shown(Shown {
            status: 0x05,
            fdc: -128,
            failed: 9,
            clean: 510,
            stored: 100,
            overflow: false,
        }),
        "cycle 3 -> status 05 fdc -128 failed 9 clean 510 stored 100 overflow 0\n",
    ),
];

#[test]
fn replies_to_calls(rt: HostRuntime) {
    let cycle = Step::Cycle { cycle: 3 };
    for (reply, line) in &REPLIES {
        has_line(&rt, rt.alloc(), &cycle, &told(*reply), line);
    }
}

/// Stops the test unless a save that fails so has this line.
fn fails_to_save(rt: &impl Abort, alloc: Global, fault: SaveFault, line: &str) {
    has_line(rt, alloc, &Step::Save, &StepAnswer::SaveFailed(fault), line);
}

#[test]
fn answers_of_saves(rt: HostRuntime) {
    let alloc = rt.alloc();
    let saved = StepAnswer::Saved(4_294_967_295);
    has_line(&rt, alloc, &Step::Save, &saved, "save -> 4294967295\n");
    fails_to_save(&rt, alloc, SaveFault::Flash, "save -> flash\n");
    fails_to_save(&rt, alloc, SaveFault::Spent, "save -> spent\n");
    let fault = SaveFault::SequenceSpent;
    fails_to_save(&rt, alloc, fault, "save -> sequence\n");
}

#[test]
fn other_answers(rt: HostRuntime) {
    let alloc = rt.alloc();
    has_line(
        &rt,
        alloc,
        &Step::Drain,
        &StepAnswer::Armed,
        "drain -> armed\n",
    );
    let get = Step::Get { block: 9 };
    let bytes = StepAnswer::Bytes(KeptResponse { from: 1, length: 2 });
    has_line(&rt, alloc, &get, &bytes, "get 9 -> 0A B9\n");
    let ask = Step::Ask { block: 9 };
    let full = StepAnswer::Queue(Answer {
        place: 7,
        reply: KeptQueueReply::QueueFull,
    });
    has_line(&rt, alloc, &ask, &full, "ask 9 -> full\n");
}

/// Stops the test unless this step has this line in a dark life.
fn is_dark(rt: &impl Abort, alloc: Global, step: &Step, line: &str) {
    has_line(rt, alloc, step, &StepAnswer::Dark, line);
}

/// Reports in a dark life, each with its line.
static REPORTS: [(Report, &str); 4] = [
    (Report::Passed, "pass 0 -> dark\n"),
    (Report::Failed, "fail 0 -> dark\n"),
    (Report::PrePassed, "prepass 0 -> dark\n"),
    (Report::PreFailed, "prefail 0 -> dark\n"),
];

#[test]
fn words_of_reports(rt: HostRuntime) {
    for (report, line) in &REPORTS {
        let report = Step::Report {
            event: 0,
            report: *report,
        };
        is_dark(&rt, rt.alloc(), &report, line);
    }
}

fn enable(fulfilled: bool) -> Step {
    let condition = 7;
    Step::Enable {
        condition,
        fulfilled,
    }
}

#[test]
fn words_of_numbers(rt: HostRuntime) {
    let alloc = rt.alloc();
    is_dark(&rt, alloc, &Step::Show { event: 63 }, "show 63 -> dark\n");
    let tick = Step::Tick { ticks: 65535 };
    is_dark(&rt, alloc, &tick, "tick 65535 -> dark\n");
    let (index, value) = (7, 1000);
    let signal = Step::Signal { index, value };
    is_dark(&rt, alloc, &signal, "sig 7 1000 -> dark\n");
    is_dark(&rt, alloc, &enable(false), "enable 7 0 -> dark\n");
    is_dark(&rt, alloc, &enable(true), "enable 7 1 -> dark\n");
}

/// A request of these bytes.
fn request(tester: u8, written: &[u8]) -> Step {
    let mut bytes: ArrayVec<u8, REQUEST> = ArrayVec::new();
    let _full = bytes.try_extend_from_slice(written);
    Step::Request { tester, bytes }
}

#[test]
fn words_of_requests(rt: HostRuntime) {
    is_dark(&rt, rt.alloc(), &request(0, &[0x19]), "t A 19 -> dark\n");
    let three = request(3, &[0x19, 0xFA, 0x0B]);
    is_dark(&rt, rt.alloc(), &three, "t D 19 FA 0B -> dark\n");
}

/// A state at rest of no event.
fn at_rest() -> Persist {
    Persist {
        events: ArrayVec::new(),
        entries: ArrayVec::new(),
        overflow: false,
        first_failed: None,
        first_confirmed: None,
        recent_failed: None,
        recent_confirmed: None,
    }
}

/// Whether a life that began so has this line.
fn is_boot(alloc: Global, life: u32, boot: &Boot, line: &str) -> Result<bool, AllocError>
    requires { boot.now ≢ Boot.Refused faults.Flash }
{
    let mut out = Vec::new(alloc);
    out.extend_from_slice(BEFORE)?;
    put_boot(life, boot, &mut out)?;
    Ok(stands(&out, line))
}

#[test]
fn beginnings_of_lives(rt: HostRuntime) {
    let started = Boot::Started {
        generation: 12,
        start: at_rest(),
    };
    let is_told = is_boot(rt.alloc(), 1, &started, "life 1 generation 12\n");
    holds(&rt, matches!(is_told, Ok(true)), "a life with a generation");
    let is_told = is_boot(rt.alloc(), 10, &Boot::Dark, "life 10 dark\n");
    holds(&rt, matches!(is_told, Ok(true)), "a dark life");
}

/// Faults for which a start-up is refused, each with the line of the second life.
static REFUSED: [(StartFault, &str); 4] = [
    (
        StartFault::Damaged(Place::Page {
            sector: 1,
            page: 1023,
        }),
        "life 2 refused sector 1 page 1023\n",
    ),
    (
        StartFault::Damaged(Place::Block { id: 23 }),
        "life 2 refused block 23\n",
    ),
    (StartFault::SequenceSpent, "life 2 refused sequence\n"),
    (
        StartFault::OtherConfig {
            found: Mark {
                id: 65535,
                events: 64,
                entries: 255,
            },
            wanted: Mark {
                id: 1,
                events: 2,
                entries: 3,
            },
        },
        "life 2 refused config 65535 events 64 entries 255 wanted config 1 events 2 entries 3\n",
    ),
];

/// Whether the second life that is refused so has this line.
fn is_refused(alloc: Global, fault: StartFault, line: &str) -> Result<bool, AllocError> {
    match fault {
        StartFault::Flash => Ok(false),
        fault => is_boot(alloc, 2, &Boot::Refused(fault), line),
    }
}

#[test]
fn refused_lives(rt: HostRuntime) {
    for (fault, line) in &REFUSED {
        let is_told = is_refused(rt.alloc(), *fault, line);
        holds(&rt, matches!(is_told, Ok(true)), line);
    }
}

/// Faults of scripts by their line, each with what is reported of it.
static FAULTS: [(u32, LineCause, &str); 3] = [
    (0, LineCause::Large, "script line 0 large\n"),
    (12, LineCause::Form, "script line 12 form\n"),
    (
        3,
        LineCause::Config(CfgFault::DtcTwice {
            first: 0,
            second: 1,
        }),
        "script line 3 twice 0 1\n",
    ),
];

/// Whether this is reported of a fault.
fn is_fault(alloc: Global, line: u32, cause: LineCause, text: &str) -> Result<bool, AllocError> {
    let mut out = Vec::new(alloc);
    out.extend_from_slice(BEFORE)?;
    put_script_fault(&ScriptFault { line, cause }, &mut out)?;
    Ok(stands(&out, text))
}

#[test]
fn faults_of_scripts(rt: HostRuntime) {
    for (line, cause, text) in &FAULTS {
        let is_told = is_fault(rt.alloc(), *line, *cause, text);
        holds(&rt, matches!(is_told, Ok(true)), text);
    }
}

/// Puts the lines of a block of two lanes.
fn put_block(out: &mut Vec<u8>) -> Result<(), AllocError> {
    put_par(out)?;
    put_lane(1, out)?;
    put_lane(u32::MAX, out)?;
    put_end(out)
}

#[test]
fn lines_of_a_block(rt: HostRuntime) -> Result<(), Fail> {
    let mut out = Vec::new(rt.alloc());
    put_block(&mut out)?;
    let wanted = "par\nlane 1\nlane 4294967295\nend\n";
    holds(&rt, out.as_slice() == wanted.as_bytes(), "the lines");
    Ok(())
}
