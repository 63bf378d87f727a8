//! The words of a step.
ghost use Rattle.std.specs.Prelude.{◌≡◌, ◌≤◌, ◌+◌, ◌++◌, ◌∷◌, OnOk, OnErr, length, vec_len};
ghost use Rattle.std.specs.Fmt.{decimal};
ghost use Rattle.std.specs.Vec.{vec_capacity};
ghost use Rattle.flt_step.specs.Puts.{Puts};
ghost use Rattle.flt_step.specs.Words.{arm_text, letter_of, pattern_text, step_text};

use crate::digits::{put_bytes, put_number, put_text};
use crate::step::{BLOCK_BYTES, Step};
use arrayvec::ArrayVec;
use flt_flash::{Arm, Pattern};
use flt_model::{REQUEST, Report};
use std::alloc::AllocError;

/// How many bytes the words of a step have at most.
const WORDS_ROOM: usize = 112;

/// Puts the words of a report of this kind, in at most 18 bytes.
fn put_report(event: u16, report: Report, out: &mut Vec<u8>)
    requires { vec_len out.old + 18 ≤ vec_capacity out.old }
    ensures { Puts out.old out.new (step_text (Step.Report event report)) 18 }
{
    match report {
        Report::Passed => put_text(b"pass ", out),
        Report::Failed => put_text(b"fail ", out),
        Report::PrePassed => put_text(b"prepass ", out),
        Report::PreFailed => put_text(b"prefail ", out),
    }
    put_number(u32::from(event), out);
}

/// Puts the words of a signal, in at most 25 bytes.
fn put_signal(index: u8, value: u16, out: &mut Vec<u8>)
    requires { vec_len out.old + 25 ≤ vec_capacity out.old }
    ensures { Puts out.old out.new (step_text (Step.Signal index value)) 25 }
{
    put_text(b"sig ", out);
    put_number(u32::from(index), out);
    put_text(b" ", out);
    put_number(u32::from(value), out);
}

/// Puts the words of an enable condition, in at most 28 bytes.
fn put_enable(condition: u8, fulfilled: bool, out: &mut Vec<u8>)
    requires { vec_len out.old + 28 ≤ vec_capacity out.old }
    ensures { Puts out.old out.new (step_text (Step.Enable condition fulfilled)) 28 }
{
    put_text(b"enable ", out);
    put_number(u32::from(condition), out);
    put_text(b" ", out);
    put_number(u32::from(fulfilled), out);
}

/// Puts the words of a request, in at most 52 bytes. A tester above 3, which no step in its ranges has, is put as D.
fn put_request(tester: u8, bytes: &ArrayVec<u8, REQUEST>, out: &mut Vec<u8>)
    requires { vec_len out.old + 52 ≤ vec_capacity out.old }
    ensures { Puts out.old out.new (step_text (Step.Request tester bytes.now)) 52 }
{
    put_text(&[b't', b' ', b'A' + tester.min(3), b' '], out);
    put_bytes(bytes, out);
}

/// Puts a word and the number of an application block, in at most 15 bytes.
fn put_block(word: &[u8], block: u8, out: &mut Vec<u8>)
    requires word { length word.now ≤ 5 }
    requires room { vec_len out.old + 15 ≤ vec_capacity out.old }
    ensures { Puts out.old out.new (word.now ++ decimal block) 15 }
{
    put_text(word, out);
    put_number(u32::from(block), out);
}

/// Puts the words of a post, in at most 112 bytes.
fn put_post(urgent: bool, block: u8, bytes: &ArrayVec<u8, BLOCK_BYTES>, out: &mut Vec<u8>)
    requires { vec_len out.old + 112 ≤ vec_capacity out.old }
    ensures { Puts out.old out.new (step_text (Step.Post urgent block bytes.now)) 112 }
{
    if urgent {
        put_block(b"urge ", block, out);
    } else {
        put_block(b"post ", block, out);
    }
    put_text(b" ", out);
    put_bytes(bytes, out);
}

/// The word of a pattern.
pub fn pattern_word(pattern: Pattern) -> &'static str
    ensures { result.now ≡ pattern_text pattern }
{
    match pattern {
        Pattern::Nothing => "none",
        Pattern::All => "all",
        Pattern::Tail => "tail",
        Pattern::Odd => "odd",
    }
}

/// Puts a word, the number of operations after which one is torn, and the word of the pattern, in at most 21 bytes.
fn put_torn(word: &[u8], after: u32, pattern: Pattern, out: &mut Vec<u8>)
    requires word { length word.now ≤ 6 }
    requires room { vec_len out.old + 21 ≤ vec_capacity out.old }
    ensures { Puts out.old out.new (word.now ++ decimal after ++ 32 ∷ pattern_text pattern) 21 }
{
    put_text(word, out);
    put_number(after, out);
    put_text(b" ", out);
    put_text(pattern_word(pattern).as_bytes(), out);
}

/// Puts the words of a fault to be armed, in at most 37 bytes.
fn put_arm(arm: Arm, out: &mut Vec<u8>)
    requires { vec_len out.old + 37 ≤ vec_capacity out.old }
    ensures { Puts out.old out.new (arm_text arm) 37 }
{
    match arm {
        Arm::Cut { after, pattern } => put_torn(b"cut ", after, pattern, out),
        Arm::Fault { after, pattern } => put_torn(b"fault ", after, pattern, out),
        Arm::Mute {
            sector,
            page,
            times,
        } => {
            put_text(b"mute ", out);
            put_number(u32::from(sector), out);
            put_text(b" ", out);
            put_number(u32::from(page), out);
            put_text(b" ", out);
            put_number(u32::from(times), out);
        }
    }
}

/// Puts the words of a step. Where memory is short it puts nothing.
pub fn put_words(step: &Step, out: &mut Vec<u8>) -> Result<(), AllocError>
    ensures ok { OnOk result (out.new.items ≡ out.old.items ++ step_text step.now) }
    ensures err { OnErr result (out.new.items ≡ out.old.items) }
{
    out.reserve(WORDS_ROOM)?;
    match step {
        Step::Report { event, report } => put_report(*event, *report, out),
        Step::Show { event } => {
            put_text(b"show ", out);
            put_number(u32::from(*event), out);
        }
        Step::Cycle { cycle } => {
            put_text(b"cycle ", out);
            put_number(u32::from(*cycle), out);
        }
        Step::Tick { ticks } => {
            put_text(b"tick ", out);
            put_number(u32::from(*ticks), out);
        }
        Step::Signal { index, value } => put_signal(*index, *value, out),
        Step::Enable {
            condition,
            fulfilled,
        } => put_enable(*condition, *fulfilled, out),
        Step::Request { tester, bytes } => put_request(*tester, bytes, out),
        Step::Save => put_text(b"save", out),
        Step::Post {
            urgent,
            block,
            bytes,
        } => put_post(*urgent, *block, bytes, out),
        Step::Drain => put_text(b"drain", out),
        Step::Get { block } => put_block(b"get ", *block, out),
        Step::Ask { block } => put_block(b"ask ", *block, out),
        Step::Arming(arm) => put_arm(*arm, out),
    }
    Ok(())
}
