//! The whole program, which does what its words ask.
use super::holds;
use super::watches::{ONE, ONE_TOLD, table};
use flt_did::DidTable;
use flt_ea::{Eeprom, EepromMem};
use flt_flash::{Bench, Flash, FlashMem};
use flt_io::{MemSink, MemSource};
use flt_program::{Ended, OpenGate, program};
use std::alloc::{AllocError, Global};
use std::marker::Sync;
use std::sync::Wait;
use std::test::Fail;
use std::thread::Threads;

/// A script that no watch makes, with what is written of its life.
const SAVE: &str = "save\n";

const SAVE_TOLD: &str = "life 1 generation 0\nsave -> 1\n";

/// What is written of a script that is refused, and of one that is checked.
const FORM: &str = "script line 1 form\n";

const CHECKED: &str = "ok events 0 entries 16 needed 206 pages 512 steps 1 lives 1\n";

/// What is written where the words are no command.
const USAGE: &str = "usage: faultmem run | check | load N plain | load N lanes | ea | watch\n";

/// What ended, and with which status, and whether it made operations of its device.
#[derive(Clone, Copy, PartialEq, Eq, Debug)]
enum End {
    Flash(u8, bool),
    Eeprom(u8, bool),
    Watch(u8),
}

/// Words with a script, how the program ends on them, and what is written.
static CASES: [(&[&str], &str, End, &str); 14] = [
    (&["run"], SAVE, End::Flash(0, true), SAVE_TOLD),
    (&["ea"], SAVE, End::Eeprom(0, true), SAVE_TOLD),
    (&["ea"], "save 1", End::Eeprom(2, false), FORM),
    (&["check"], SAVE, End::Flash(0, false), CHECKED),
    (&["watch"], ONE, End::Watch(0), ONE_TOLD),
    (&["watch"], SAVE, End::Watch(2), "script other\n"),
    (&[], ONE, End::Flash(1, false), USAGE),
    (&["walk"], ONE, End::Flash(1, false), USAGE),
    (&["watch", "run"], ONE, End::Flash(1, false), USAGE),
    (&["ea", "watch"], ONE, End::Flash(1, false), USAGE),
    (&["load", "0", "plain"], "", End::Flash(1, false), USAGE),
    (&["load", "60001", "lanes"], "", End::Flash(1, false), USAGE),
    (
        &["load", "000004", "plain"],
        "",
        End::Flash(1, false),
        USAGE,
    ),
    (&["load", "4", "both"], "", End::Flash(1, false), USAGE),
];

/// How the program ended.
fn how_it_ended(ended: Ended<FlashMem, EepromMem>) -> End {
    match ended {
        Ended::Flash(outcome) => End::Flash(outcome.status, outcome.device.operations() > 0),
        Ended::Eeprom(outcome) => End::Eeprom(outcome.status, outcome.device.operations() > 0),
        Ended::Watch(outcome) => End::Watch(outcome.status),
    }
}

/// Calls the whole program on these words and this script, over a blank flash and a blank EEPROM.
fn end_of<R: Threads + Wait + Sync>(
    rt: &R,
    texts: &[&str],
    script: &str,
    alloc: Global,
) -> Result<(End, MemSink), AllocError> {
    let mut words = Vec::new(alloc);
    for text in texts {
        words.push(String::from_str(alloc, text)?)?;
    }
    let mut source = MemSource::new(Vec::from_slice(alloc, script.as_bytes())?, Vec::new(alloc));
    let mut sink = MemSink::new(alloc, 8000, Vec::new(alloc))?;
    let flash = FlashMem::blank(alloc, 1024, 256)?;
    let eeprom = EepromMem::blank(alloc, 1090, 256)?;
    let ended = program(
        rt,
        alloc,
        &words,
        &mut source,
        &mut sink,
        flash,
        eeprom,
        DidTable::new(),
        table(),
        &OpenGate,
    );
    Ok((how_it_ended(ended), sink))
}

#[test]
fn the_program_does_what_its_words_ask(rt: HostRuntime) -> Result<(), Fail> {
    for (words, script, end, told) in &CASES {
        let (ended, sink) = end_of(&rt, words, script, rt.alloc())?;
        let is_told = ended == *end && sink.bytes() == told.as_bytes();
        holds(&rt, is_told, script);
    }
    Ok(())
}
