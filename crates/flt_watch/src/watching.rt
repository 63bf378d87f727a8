//! A watch: a script of one life is made on a lock over the watched machine, and reported with the values of the subscribers.
ghost use Rattle.std.specs.Prelude.{◌≡◌, ◌⊎◌, IsTrue};
ghost use Rattle.flt_config.specs.declared.persist.Persist.{Persist};
ghost use Rattle.flt_did.specs.Serves.{Serves};
ghost use Rattle.flt_did.specs.Table.{dids_of};
ghost use Rattle.flt_io.specs.Status.{status_number};
ghost use Rattle.flt_life_model.specs.declared.life.Boot.TheVariants.{Started};
ghost use Rattle.flt_notify.specs.Table.{IsAtZero, kinds_in, values_in};
ghost use Rattle.flt_script.specs.Script.{content};
ghost use Rattle.flt_watch.specs.Asked.{is_watchable};
ghost use Rattle.flt_watch.specs.Watch.{IsMadeOf, IsUnmade, WantsMemory, Watches, status_written};
ghost use Rattle.flt_filter.specs.Verdict.{reading_of, writing_of};

use crate::asking::{Asked, ask};
use crate::keeping::WatchGate;
use crate::life::{WatchedLife, live};
use crate::telling::{write_other, write_watched};
use flt_config::Persist;
use flt_did::{DID_ROWS, DidTable};
use flt_io::{Sink, Source, Status, StreamFault};
use flt_life_model::{Boot, Entry, LaneReplies, Life};
use flt_notify::{KINDS, SubTable};
use flt_script::{Script, write_script_fault, write_unread};
use flt_shared::{Op, no_state};
use std::alloc::Global;
use std::marker::Sync;
use std::sync::Wait;
use std::thread::Threads;

/// What a watch leaves.
#[derive(Drop)]
pub struct WatchOutcome {
    /// The number of a `Status`: 0 where the life was made and reported, 2 where the script was refused or is another one, 3 where the source
    /// failed, 4 where the sink did, and 7 where memory ran out.
    pub status: u8,
    /// The state from which the life began; without events where no life was made.
    pub base: Persist,
    /// All calls of the life, each with the number of its lane.
    pub journal: Vec<Entry<Op>>,
    /// The answers of each lane, lane 0 first.
    pub answers: Vec<LaneReplies>,
    /// The subscribers, with the values that the changes of the journal gave them.
    pub subs: SubTable<KINDS>,
}

/// The status, by whether the text that is due was written.
fn status_by(due: Status, written: Result<(), StreamFault>) -> Status
    ensures { status_number result ≡ status_written (status_number due) written }
{
    match written {
        Ok(()) => due,
        Err(StreamFault::Failed) => Status::WriteFault,
        Err(StreamFault::Memory) => Status::OutOfMemory,
    }
}

/// No life was made.
fn unmade(alloc: Global, status: Status, subs: SubTable<KINDS>) -> WatchOutcome
    ensures status { result.status ≡ status_number status }
    ensures unmade { IsUnmade (kinds_in subs) (values_in subs) result }
{
    WatchOutcome {
        status: status.number(),
        base: no_state(),
        journal: Vec::new(alloc),
        answers: Vec::new(alloc),
        subs,
    }
}

/// A life was made, and reported with this status.
fn made(status: Status, watched: WatchedLife) -> WatchOutcome
    requires { (base : Persist) × (watched.life.boot ≡ Started 0 base) }
    ensures status { result.status ≡ status_number status }
    ensures boot { watched.life.boot ≡ Started 0 result.base }
    ensures journal { result.journal.items ≡ watched.life.journal.items }
    ensures answers { result.answers.items ≡ watched.life.replies.items }
    ensures subs { (kinds_in result.subs ≡ kinds_in watched.subs) × (values_in result.subs ≡ values_in watched.subs) }
{
    let WatchedLife { life, subs } = watched;
    let Life {
        boot,
        journal,
        queue: _,
        replies: answers,
    } = life;
    let Boot::Started { start: base, .. } = boot else {
        unreachable!()
    };
    WatchOutcome {
        status: status.number(),
        base,
        journal,
        answers,
        subs,
    }
}

/// Makes the life of a script, and reports it.
fn watch_script<R: Threads + Wait + Sync, K: Sink, G: WatchGate>(
    rt: &R,
    alloc: Global,
    script: &Script,
    sink: &mut K,
    dids: DidTable<DID_ROWS>,
    subs: SubTable<KINDS>,
    gate: &G,
) -> WatchOutcome
    requires watchable { IsTrue (is_watchable (content script.now)) }
    requires served { Serves (dids_of dids) script.now.config.events.items }
    requires zero { IsAtZero subs }
    ensures { IsMadeOf (writing_of K.held K.faults sink.old sink.new) (content script.now) (kinds_in subs) result
        ⊎ WantsMemory (writing_of K.held K.faults sink.old sink.new) result }
{
    let parts = &script.lives[0];
    let Ok(watched) = live(rt, alloc, gate, &script.config, parts, dids, subs) else {
        return unmade(alloc, Status::OutOfMemory, SubTable::new());
    };
    match write_watched(alloc, parts, &watched, sink) {
        Ok(()) => made(Status::Done, watched),
        Err(StreamFault::Failed) => made(Status::WriteFault, watched),
        Err(StreamFault::Memory) => unmade(alloc, Status::OutOfMemory, watched.subs),
    }
}

/// Reads a script from `source`, makes its one life on a lock over a watched machine, the lanes of a block at the same time on threads of
/// `rt`, and writes to `sink` its lines and then the value of each kind that has a subscriber. The life begins as one of a controller that
/// never saved a state, and keeps none. Each step is made between the two calls of `gate`.
#[inline(never)]
pub fn watch<R: Threads + Wait + Sync, S: Source, K: Sink, G: WatchGate>(
    rt: &R,
    alloc: Global,
    source: &mut S,
    sink: &mut K,
    dids: DidTable<DID_ROWS>,
    subs: SubTable<KINDS>,
    gate: &G,
) -> WatchOutcome
    requires { IsAtZero subs }
    ensures { Watches (dids_of dids) (reading_of S.left S.faults source.old source.new) (writing_of K.held K.faults sink.old sink.new)
        (kinds_in subs) (values_in subs) result }
{
    match ask(alloc, source, &dids) {
        Asked::Watch(script) => watch_script(rt, alloc, &script, sink, dids, subs, gate),
        Asked::Other => {
            let status = status_by(Status::Refused, write_other(sink));
            unmade(alloc, status, subs)
        }
        Asked::Refused(fault) => {
            let status = status_by(Status::Refused, write_script_fault(alloc, &fault, sink));
            unmade(alloc, status, subs)
        }
        Asked::Unread => {
            let status = status_by(Status::ReadFault, write_unread(sink));
            unmade(alloc, status, subs)
        }
        Asked::Memory => unmade(alloc, Status::OutOfMemory, subs),
    }
}
