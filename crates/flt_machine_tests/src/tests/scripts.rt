//! The script: worked lines and blocks, and each limit; and what a life makes of its steps: which parts are possible, what is kept of their
//! answers, the room for its calls, and the lines of the report.
use super::{holds, holds_at};
use flt_did::{DID_ROWS, DidTable, did_0101, did_0103, did_0107};
use flt_flash::{Arm, Pattern};
use flt_model::Report;
use flt_script::*;
use flt_step::{BLOCK_BYTES, Part, Step, put_words};
use std::alloc::{AllocError, Global};
use std::process::Abort;
use std::test::Fail;

mod answers;
mod blocks;
mod configuration;
mod jobs;
mod limits;
mod lines;
mod loads;
mod possible;
mod room;
mod worked;

/// A table with three data identifiers, of 2, 1 and 8 bytes.
fn table() -> DidTable<DID_ROWS> {
    let mut table = DidTable::new();
    let _ = table.add(0x0101, 2, did_0101);
    let _ = table.add(0x0103, 1, did_0103);
    let _ = table.add(0x0107, 8, did_0107);
    table
}

/// Puts the words of a step, with a full stop after them.
fn put_step(text: &mut String, alloc: Global, step: &Step) -> Result<(), AllocError> {
    let mut words = Vec::new(alloc);
    put_words(step, &mut words)?;
    text.push_str(str::from_utf8(&words).unwrap_or("?"))?;
    text.push_str(".")
}

/// Puts a block in brackets, with a colon before the steps of each lane.
fn put_block(text: &mut String, alloc: Global, lanes: &[Vec<Step>]) -> Result<(), AllocError> {
    text.push_str("[")?;
    for lane in lanes {
        text.push_str(":")?;
        for step in lane {
            put_step(text, alloc, step)?;
        }
    }
    text.push_str("]")
}

/// Puts a part.
fn put_part(text: &mut String, alloc: Global, part: &Part) -> Result<(), AllocError> {
    match part {
        Part::One(step) => put_step(text, alloc, step),
        Part::Lanes(lanes) => put_block(text, alloc, lanes),
    }
}

/// What is reported of lives: their parts, and a bar before each life but the first.
fn told_of(alloc: Global, lives: &[Vec<Part>]) -> Result<String, AllocError> {
    let mut text = String::new(alloc);
    let mut bar = "";
    for life in lives {
        text.push_str(bar)?;
        bar = "|";
        for part in life {
            put_part(&mut text, alloc, part)?;
        }
    }
    Ok(text)
}

/// What is reported of a script: its lives, or its fault.
fn outcome(alloc: Global, bytes: &[u8]) -> Result<String, AllocError> {
    match parse(alloc, bytes, &table()) {
        Ok(script) => told_of(alloc, &script.lives),
        Err(fault) => fault.to_string(alloc),
    }
}

/// Scripts of steps, and what is reported of each.
static STEPS: [(&str, &str); 113] = [
    ("", ""),
    ("event 0 dtc 123456\r\ncycle 0", "cycle 0."),
    (
        "event 0 dtc 123456\npass 0\nfail 0\nprepass 0\nprefail 0\nshow 0\ncycle 3\ntick 65535\n",
        "pass 0.fail 0.prepass 0.prefail 0.show 0.cycle 3.tick 65535.",
    ),
    (
        " \t cycle\t \t1 \n\n \t \n# fail 9\n#fail 9\n  # x\ntick 1",
        "cycle 1.tick 1.",
    ),
    ("\r\n", ""),
    ("#\t ~", ""),
    ("#\0", "script line 1 byte"),
    ("#\u{7f}", "script line 1 byte"),
    ("#\u{1f}", "script line 1 byte"),
    ("#\u{80}", "script line 1 byte"),
    ("cycle 0\r", "script line 1 byte"),
    ("cycle 0\r\r\n", "script line 1 byte"),
    ("cycle\r0\n", "script line 1 byte"),
    ("cycle 0\nnothing \u{b}", "script line 2 byte"),
    ("nothing", "script line 1 word"),
    ("Cycle 0", "script line 1 word"),
    ("cycle0", "script line 1 word"),
    ("pars", "script line 1 word"),
    ("Save", "script line 1 word"),
    ("powers", "script line 1 word"),
    ("save\n\tsave ", "save.save."),
    ("save 1", "script line 1 form"),
    ("save # x", "script line 1 form"),
    ("power", "|"),
    ("power\n# x\npower", "||"),
    (
        "save\npower\n\nsave\ncycle 1\npower\ntick 1",
        "save.|save.cycle 1.|tick 1.",
    ),
    ("power 1", "script line 1 form"),
    ("power power", "script line 1 form"),
    (
        "cut 15 none\ncut 1 all\ncut 65535 tail\n cut\t00002  odd",
        "cut 15 none.cut 1 all.cut 65535 tail.cut 2 odd.",
    ),
    (
        "fault 15 none\nfault 1 all\nfault 65535 tail\nfault 0000000002 odd",
        "fault 15 none.fault 1 all.fault 65535 tail.fault 2 odd.",
    ),
    (
        "mute 0 13 3\nmute 1 1023 65535\nmute 00 00 01",
        "mute 0 13 3.mute 1 1023 65535.mute 0 0 1.",
    ),
    ("cut 0 none", "script line 1 range"),
    ("cut 65536 none", "script line 1 range"),
    ("fault 0 all", "script line 1 range"),
    ("fault 65536 all", "script line 1 range"),
    ("mute 2 0 1", "script line 1 range"),
    ("mute 0 1024 1", "script line 1 range"),
    ("mute 0 0 0", "script line 1 range"),
    ("mute 0 0 65536", "script line 1 range"),
    ("cut", "script line 1 form"),
    ("cut 1", "script line 1 form"),
    ("cut none", "script line 1 form"),
    ("cut none 1", "script line 1 form"),
    ("cut 1 none 1", "script line 1 form"),
    ("cut 1 None", "script line 1 form"),
    ("cut 1 nothing", "script line 1 form"),
    ("cut 1 0", "script line 1 form"),
    ("cut -1 none", "script line 1 form"),
    ("cut 0 some", "script line 1 form"),
    ("fault 1", "script line 1 form"),
    ("fault 1 some", "script line 1 form"),
    ("fault all 1", "script line 1 form"),
    ("fault 1 tails", "script line 1 form"),
    ("mute", "script line 1 form"),
    ("mute 0 0", "script line 1 form"),
    ("mute 0 0 1 1", "script line 1 form"),
    ("mute 2 x 1", "script line 1 form"),
    ("mute 0 0 all", "script line 1 form"),
    ("save\nmemory 1", "script line 2 order"),
    ("power\nmemory 1", "script line 2 order"),
    ("power\nconfig 65536", "script line 2 order"),
    ("power\npower\nblocks 1", "script line 3 order"),
    ("mute 0 0 1\nflash 2 300", "script line 2 order"),
    ("power\nevent 0 dtc 000001", "script line 2 order"),
    (
        "event 0 dtc 000001\npower\ndid 0 0101",
        "script line 3 order",
    ),
    ("power\nmemory", "script line 2 form"),
    (
        "event 0 dtc 000001\nfail 0\npower\nshow 0",
        "fail 0.|show 0.",
    ),
    (
        "event 0 dtc 000001\nfail 0\npower\nshow 1",
        "script line 4 range",
    ),
    ("memory 0\npower\nsave", "script line 1 range"),
    ("cycle", "script line 1 form"),
    ("cycle 0 0", "script line 1 form"),
    ("cycle x", "script line 1 form"),
    ("cycle 0 # x", "script line 1 form"),
    ("tick -1", "script line 1 form"),
    ("tick +1", "script line 1 form"),
    ("tick -0", "script line 1 form"),
    ("tick 00000000001", "script line 1 form"),
    ("tick 0000000001", "tick 1."),
    ("tick 9999999999", "script line 1 range"),
    ("tick 0", "script line 1 range"),
    ("tick 65536", "script line 1 range"),
    ("cycle 4", "script line 1 range"),
    ("fail 0", "script line 1 range"),
    ("event 0 dtc 000001\nshow 1", "script line 2 range"),
    ("sig 0 0\nsig 007 0000065535", "sig 0 0.sig 7 65535."),
    ("sig 8 0", "script line 1 range"),
    ("sig 0 65536", "script line 1 range"),
    ("sig 0", "script line 1 form"),
    ("sig 0 0 0", "script line 1 form"),
    ("sig 0 -1", "script line 1 form"),
    ("enable 0 0\nenable 7 01", "enable 0 0.enable 7 1."),
    ("enable 8 0", "script line 1 range"),
    ("enable 0 2", "script line 1 range"),
    ("enable 0", "script line 1 form"),
    ("enable 0 0 0", "script line 1 form"),
    ("event 0 dtc 000001 needs 256", "script line 1 range"),
    ("event 0 dtc 000001 needs 1 needs 1", "script line 1 form"),
    ("event 0 dtc 000001 needs", "script line 1 form"),
    (
        "t A 3E 00\nt D 19 82 fF\n\tt \t C  0a",
        "t A 3E 00.t D 19 82 FF.t C 0A.",
    ),
    (
        "t B 00 11 22 33 44 55 66 77 88 99 AA BB CC DD EE FF",
        "t B 00 11 22 33 44 55 66 77 88 99 AA BB CC DD EE FF.",
    ),
    (
        "t B 00 11 22 33 44 55 66 77 88 99 AA BB CC DD EE FF 00",
        "script line 1 form",
    ),
    ("t", "script line 1 form"),
    ("t A", "script line 1 form"),
    ("t E 3E 00", "script line 1 form"),
    ("t @ 3E 00", "script line 1 form"),
    ("t a 3E 00", "script line 1 form"),
    ("t AA 3E 00", "script line 1 form"),
    ("t A 3", "script line 1 form"),
    ("t A 3E0", "script line 1 form"),
    ("t A 0x3E", "script line 1 form"),
    ("t A 3E 0G", "script line 1 form"),
    ("t 3E 00", "script line 1 form"),
    ("T A 3E 00", "script line 1 word"),
];

/// Scripts of settings, events and data identifiers, and what is reported of each.
static SETTINGS: [(&str, &str); 83] = [
    ("did 0 0101", "script line 1 order"),
    ("event 0 dtc 000001\ndid 1 0101", "script line 2 order"),
    (
        "event 0 dtc 000001\ndid 0 0101\ncycle 0\ndid 0 0101",
        "script line 4 order",
    ),
    ("event 0 dtc 000001\ndid 0 FFFF", "script line 2 did"),
    ("event 0 dtc 000001\ndid 0 0102", "script line 2 did"),
    ("event 0 dtc 000001\ndid 1 FFFF", "script line 2 order"),
    ("event 0 dtc 000001\ndid 0 101", "script line 2 form"),
    ("event 0 dtc 000001\ndid 0 00101", "script line 2 form"),
    ("event 0 dtc 000001\ndid 0 010G", "script line 2 form"),
    ("event 0 dtc 000001\ndid 0", "script line 2 form"),
    ("event 0 dtc 000001\ndid 0 0101 0103", "script line 2 form"),
    (
        "event 0 dtc 000001\ndid 0 0103\ndid 0 0103\ndid 0 0103\ndid 0 0103\ndid 0 0103\ndid 0 0103\ndid 0 0103\ndid 0 0103",
        "",
    ),
    (
        "event 0 dtc 000001\ndid 0 0103\ndid 0 0103\ndid 0 0103\ndid 0 0103\ndid 0 0103\ndid 0 0103\ndid 0 0103\ndid 0 0103\ndid 0 FFFF",
        "script line 10 many",
    ),
    (
        "event 0 dtc 000001\nevent 1 dtc 000002\ndid 1 0107\ndid 1 0107\ndid 1 0107\ndid 1 0107",
        "",
    ),
    (
        "event 0 dtc 000001\nevent 1 dtc 000002\ndid 1 0107\ndid 1 0107\ndid 1 0107\ndid 1 0107\ndid 1 0103",
        "script line 2 range",
    ),
    ("event 0 count 1 1 1 1", "script line 1 form"),
    ("event 0", "script line 1 form"),
    ("event", "script line 1 form"),
    ("event 0 dtc 00001", "script line 1 form"),
    ("event 0 dtc 0x0001", "script line 1 form"),
    ("event 0 dtc 000001 x", "script line 1 form"),
    ("event 0 x dtc 000001", "script line 1 form"),
    ("event 0 dtc 000001 prio 1 prio 1", "script line 1 form"),
    ("event 0 dtc 000001 prio", "script line 1 form"),
    ("event 0 dtc 000001 count 1 1 1", "script line 1 form"),
    (
        "event 0 dtc 000001 time 1 1 count 1 1 1 1",
        "script line 1 form",
    ),
    (
        "event 0 dtc 000001 jumpdown 0 time 1 1",
        "script line 1 form",
    ),
    ("event 0 dtc 000001 time 1 1 jumpup 0", "script line 1 form"),
    ("event 0 dtc 000001 jumpup +0", "script line 1 form"),
    ("event 0 dtc 000001 jumpup -", "script line 1 form"),
    ("event 0 dtc 000001 jumpup --1", "script line 1 form"),
    ("event 0 dtc 000001 jumpup -0000000000", ""),
    (
        "event 0 dtc 000001 prio 255 cycle 3 confirm 255 heal 255 age 255",
        "",
    ),
    (
        "event 0 dtc 000001 count 32767 32768 32767 32767 jumpup 32766 jumpdown -32767",
        "",
    ),
    ("event 0 dtc 000001 jumpup -0 jumpdown 0", ""),
    (
        "event 0 jumpdown 9 count 10 32768 1 1 dtc abCDef jumpup -32767",
        "",
    ),
    (
        "event 0 dtc 000001 count 1 32769 1 1",
        "script line 1 range",
    ),
    (
        "event 0 dtc 000001 count 32768 1 1 1",
        "script line 1 range",
    ),
    ("event 0 dtc 000001 count 0 1 1 1", "script line 1 range"),
    ("event 0 dtc 000001 count 1 0 1 1", "script line 1 range"),
    ("event 0 dtc 000001 jumpup -32769", "script line 1 range"),
    ("event 0 dtc 000001 jumpup 1", "script line 1 range"),
    ("event 0 dtc 000001 time 65536 1", "script line 1 range"),
    ("event 0 dtc 000001 time 0 1", "script line 1 range"),
    ("event 0 dtc 000001 time 65535 65535", ""),
    ("event 0 dtc 000001 prio 256", "script line 1 range"),
    ("event 0 dtc 000001 prio 0", "script line 1 range"),
    ("event 0 dtc 000001 cycle 4", "script line 1 range"),
    ("event 0 dtc 000001 lamp 2", "script line 1 range"),
    ("event 0 dtc 000000", "script line 1 range"),
    ("event 0 dtc FFFFFF", "script line 1 range"),
    ("event 0 dtc FFFFFE", ""),
    ("event 1 dtc 000001", "script line 1 order"),
    (
        "event 0 dtc 000001\nevent 0 dtc 000002",
        "script line 2 order",
    ),
    ("cycle 0\nevent 0 dtc 000001", "script line 2 order"),
    ("cycle 0\nmemory 1", "script line 2 order"),
    ("config 65535\nconfig 65535", "script line 2 order"),
    ("blocks 1\nblocks 1", "script line 2 order"),
    ("flash 2 300\nflash 2 300", "script line 2 order"),
    ("flash 2 300\nflash 3 300", "script line 2 order"),
    ("memory 1\nmemory 256", "script line 2 order"),
    ("config 65536", "script line 1 range"),
    ("#\nmemory 17", "script line 2 range"),
    ("#\nmemory 256", "script line 2 range"),
    ("#\nmemory 0", "script line 2 range"),
    ("#\nblocks 41", "script line 2 range"),
    ("#\nflash 2 63", "script line 2 range"),
    ("flash 2 65536", "script line 1 range"),
    ("flash 1 64", "script line 1 range"),
    ("flash 2", "script line 1 form"),
    ("flash 2 64", "script line 1 room 206 64"),
    ("#\nflash 2 64\nmemory 1\nblocks 0", ""),
    (
        "event 0 dtc 000001\nevent 1 dtc 000001",
        "script line 2 twice 0 1",
    ),
    (
        "#\nevent 0 dtc 000001\nevent 1 dtc 000002\n\nevent 2 dtc 000001\nevent 3 dtc 000002",
        "script line 5 twice 0 2",
    ),
    ("cycle 0 0\nnothing", "script line 1 form"),
    ("nothing\ncycle 0 0", "script line 1 word"),
    ("event 0 dtc 000000\nnothing", "script line 2 word"),
    ("cycle 0\nmemory", "script line 2 form"),
    ("cycle 0\nmemory 256", "script line 2 order"),
    ("event 5 dtc 000001 prio 256", "script line 1 order"),
    (
        "event 0 dtc 000001\nevent 1 dtc 000001 prio 0",
        "script line 2 range",
    ),
    ("event 0 dtc 000001 prio 0\nmemory 0", "script line 2 range"),
    (
        "flash 2 64\nevent 0 dtc 000001\nevent 1 dtc 000001",
        "script line 3 twice 0 1",
    ),
];

/// Stops the test unless this is reported of a script.
fn compare(rt: &impl Abort, script: &str, told: &str, wanted: &str) {
    assert!(rt; told == wanted, "{script:?} {told:?}");
}

/// Each script is reported as its case says.
fn all_are_told(rt: &impl Abort, alloc: Global, cases: &[(&str, &str)]) -> Result<(), Fail> {
    for case in cases {
        let told = outcome(alloc, case.0.as_bytes())?;
        compare(rt, case.0, told.as_str(), case.1);
    }
    Ok(())
}

/// Whether the life at this place has these parts and no others.
fn has_parts(lives: &[Vec<Part>], place: usize, wanted: &[Part]) -> bool {
    match lives.get(place) {
        Some(parts) => parts.as_slice() == wanted,
        None => false,
    }
}

#[test]
fn first_faults_of_steps(rt: HostRuntime) -> Result<(), Fail> {
    all_are_told(&rt, rt.alloc(), &STEPS)
}

#[test]
fn first_faults_of_settings(rt: HostRuntime) -> Result<(), Fail> {
    all_are_told(&rt, rt.alloc(), &SETTINGS)
}

/// The arms of a script, as they are written.
fn cut() -> Part {
    let (after, pattern) = (2, Pattern::Tail);
    Part::One(Step::Arming(Arm::Cut { after, pattern }))
}

fn fault() -> Part {
    let (after, pattern) = (3, Pattern::Odd);
    Part::One(Step::Arming(Arm::Fault { after, pattern }))
}

fn mute() -> Part {
    Part::One(Step::Arming(Arm::Mute {
        sector: 1,
        page: 5,
        times: 7,
    }))
}

#[test]
fn arms_are_made_as_written(rt: HostRuntime) -> Result<(), Fail> {
    let text = "cut 2 tail\npower\nfault 3 odd\nmute 1 5 7";
    let script = parse(rt.alloc(), text.as_bytes(), &table())?;
    holds(&rt, script.lives.len() == 2, "how many lives");
    let is_cut = has_parts(&script.lives, 0, &[cut()]);
    holds(&rt, is_cut, "the arm of the first life");
    let are_made = has_parts(&script.lives, 1, &[fault(), mute()]);
    holds(&rt, are_made, "the arms of the second life");
    Ok(())
}
