//! The calls `program` and `examine`, over streams in memory.
ghost use Rattle.flt_notify.specs.Table.{IsAtZero};

use crate::case::{Answer, Case, Word};
use flt_did::{DID_ROWS, DidTable, program_table};
use flt_ea::EepromMem;
use flt_examine::examine;
use flt_flash::FlashMem;
use flt_io::{MemSink, MemSource};
use flt_notify::{KINDS, SubTable, note_0, note_1, note_2};
use flt_program::{OpenGate, program};
use std::alloc::{AllocError, Global};
use std::marker::Sync;
use std::sync::Wait;
use std::thread::Threads;

/// How many bytes a sink takes beyond those of the report that is written down.
const SPARE: usize = 1_000;

/// The pages of a sector of the flash.
const PAGES: u16 = 1024;

/// The units of the EEPROM.
const UNITS: u16 = 1090;

/// How often the power may come.
const BOOTS: u16 = 256;

/// The words of a case, its script as a source, and a sink for its report.
fn streams_of(
    alloc: Global,
    case: &Case<'_>,
) -> Result<(Vec<String>, MemSource, MemSink), AllocError> {
    let mut words = Vec::new(alloc);
    words.push(String::from_str(alloc, case.word.text())?)?;
    let source = MemSource::new(Vec::from_slice(alloc, case.script)?, Vec::new(alloc));
    let room = case.report.len().saturating_add(SPARE);
    let sink = MemSink::new(alloc, room, Vec::new(alloc))?;
    Ok((words, source, sink))
}

/// The status that `program` ends with, given these data identifiers and subscribers, and what it writes.
fn run_with<R: Threads + Wait + Sync>(
    rt: &R,
    alloc: Global,
    case: &Case<'_>,
    dids: DidTable<DID_ROWS>,
    subs: SubTable<KINDS>,
) -> Result<(u8, MemSink), AllocError>
    requires { IsAtZero subs }
{
    let (words, mut source, mut sink) = streams_of(alloc, case)?;
    let flash = FlashMem::blank(alloc, PAGES, BOOTS)?;
    let eeprom = EepromMem::blank(alloc, UNITS, BOOTS)?;
    let ended = program(
        rt,
        alloc,
        &words,
        &mut source,
        &mut sink,
        flash,
        eeprom,
        dids,
        subs,
        &OpenGate,
    );
    Ok((ended.status(), sink))
}

/// The same with the data identifiers 0101 to 0107, and a subscriber of each kind.
fn run_program<R: Threads + Wait + Sync>(
    rt: &R,
    alloc: Global,
    case: &Case<'_>,
) -> Result<(u8, MemSink), AllocError> {
    let mut subs: SubTable<KINDS> = SubTable::new();
    let _taken = subs.add(0, note_0).is_err()
        || subs.add(1, note_1).is_err()
        || subs.add(2, note_2).is_err();
    run_with(rt, alloc, case, program_table!(), subs)
}

/// The status that `examine` ends with, given these data identifiers, and what it writes.
fn examine_with<R: Threads + Wait + Sync>(
    rt: &R,
    alloc: Global,
    case: &Case<'_>,
    dids: DidTable<DID_ROWS>,
) -> Result<(u8, MemSink), AllocError> {
    let (words, mut source, mut sink) = streams_of(alloc, case)?;
    let examined = examine(rt, alloc, &words, &mut source, &mut sink, dids);
    Ok((examined.status, sink))
}

/// The same with the data identifiers 0101 to 0107.
fn run_examination<R: Threads + Wait + Sync>(
    rt: &R,
    alloc: Global,
    case: &Case<'_>,
) -> Result<(u8, MemSink), AllocError> {
    examine_with(rt, alloc, case, program_table!())
}

/// The status that the call which has the word of a case ends with, and what it writes.
fn run_word<R: Threads + Wait + Sync>(
    rt: &R,
    alloc: Global,
    case: &Case<'_>,
) -> Result<(u8, MemSink), AllocError> {
    match case.word {
        Word::Run | Word::Ea | Word::Watch | Word::Check => run_program(rt, alloc, case),
        Word::Inspect | Word::Audit | Word::Trace => run_examination(rt, alloc, case),
    }
}

/// How what the program makes of a case compares with what is written down.
pub(crate) fn answer_to<R: Threads + Wait + Sync>(
    rt: &R,
    alloc: Global,
    case: &Case<'_>,
) -> Result<Answer, AllocError> {
    let (status, sink) = run_word(rt, alloc, case)?;
    if status != case.status {
        return Ok(Answer::OtherStatus(status));
    }
    if sink.bytes() != case.report {
        return Ok(Answer::OtherReport);
    }
    Ok(Answer::AsWritten)
}
