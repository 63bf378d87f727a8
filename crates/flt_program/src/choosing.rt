//! The call that does what the words ask for.
ghost use Rattle.std.specs.Prelude.{◌≡◌, map};
ghost use Rattle.std.specs.String.{string_bytes};
ghost use Rattle.flt_did.specs.Table.{dids_of};
ghost use Rattle.flt_notify.specs.Table.{IsAtZero};
ghost use Rattle.flt_run.specs.Seen.{inside_of, outside_of};
ghost use Rattle.flt_filter.specs.Verdict.{reading_of, writing_of};
ghost use Rattle.flt_program.specs.Program.{EndsOver, IsEepromForAll, IsFlashForAll};
ghost use Rattle.flt_program.specs.Words.{invocation_of};

use crate::invocation::{Invocation, read_words};
use flt_did::{DID_ROWS, DidTable};
use flt_ea::{Ea, Eeprom};
use flt_fee::Fee;
use flt_flash::Bench;
use flt_io::{Sink, Source};
use flt_lane::SharedGate;
use flt_notify::{KINDS, SubTable};
use flt_run::{Outcome, run};
use flt_watch::{WatchGate, WatchOutcome, watch};
use std::alloc::Global;
use std::marker::Sync;
use std::sync::Wait;
use std::thread::Threads;

/// How the program ended, with the device that it used, if it used one.
#[derive(Drop)]
pub enum Ended<B, E> {
    /// It ran over the flash.
    Flash(Outcome<B>),
    /// It ran over the EEPROM.
    Eeprom(Outcome<E>),
    /// It watched.
    Watch(WatchOutcome),
}

impl<B, E> Ended<B, E> {
    ghost use Rattle.flt_program.specs.Program.{program_status};

    /// The exit status.
    pub fn status(&self) -> u8
        ensures { result ≡ program_status self.now }
    {
        match self {
            Ended::Flash(outcome) => outcome.status,
            Ended::Eeprom(outcome) => outcome.status,
            Ended::Watch(outcome) => outcome.status,
        }
    }
}

/// Does what the program does. The words after the program's name are read once: `run`, `check`, `load N plain` and `load N lanes` are
/// commands over the flash, `ea` is a run over the EEPROM, and `watch` a watch with these subscribers, each at 0. All other words are no
/// command, and are answered with the usage line. What is not used of the flash, the EEPROM and the subscribers is let go.
///
/// `dids` has the data identifiers that a script may name. The flash has sectors of 1,024 pages, and the EEPROM at least 1,090 units; each
/// has at least 256 boots left and nothing armed.
pub fn program<
    R: Threads + Wait + Sync,
    S: Source,
    K: Sink,
    B: Bench + Drop,
    E: Eeprom + Drop,
    G: SharedGate + WatchGate,
>(
    rt: &R,
    alloc: Global,
    words: &[String],
    source: &mut S,
    sink: &mut K,
    flash: B,
    eeprom: E,
    dids: DidTable<DID_ROWS>,
    subs: SubTable<KINDS>,
    gate: &G,
) -> Ended<B, E>
    requires flash { IsFlashForAll (B.state flash) }
    requires eeprom { IsEepromForAll (E.state eeprom) }
    requires zero { IsAtZero subs }
    ensures { EndsOver B.state E.state (dids_of dids) (inside_of S.left S.faults source.old source.new) (outside_of K.held K.faults sink.old sink.new)
        (reading_of S.left S.faults source.old source.new) (writing_of K.held K.faults sink.old sink.new)
        (B.state flash) (E.state eeprom) subs (invocation_of (map string_bytes words.now)) result }
{
    match read_words(words) {
        Invocation::Flash(command) => Ended::Flash(run::<R, S, K, Fee<B>, G>(
            rt, alloc, command, source, sink, flash, dids, gate,
        )),
        Invocation::Eeprom(command) => Ended::Eeprom(run::<R, S, K, Ea<E>, G>(
            rt,
            alloc,
            Some(command),
            source,
            sink,
            eeprom,
            dids,
            gate,
        )),
        Invocation::Watch => Ended::Watch(watch(rt, alloc, source, sink, dids, subs, gate)),
    }
}
