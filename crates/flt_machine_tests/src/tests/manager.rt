//! The entries, frames and noted events of a manager, as its calls give them. Its steps are worked in the scripts of the examples.
ghost use Rattle.std.specs.Prelude.{◌<◌, ◌↔◌, IsTrue, length};
ghost use Rattle.flt_dem.specs.Dem.{manager_config};

use super::holds;
use arrayvec::ArrayVec;
use flt_config::{Config, DIDS, DidUse, EventCfg, check, initial};
use flt_dem::*;
use flt_did::{DID_ROWS, DidTable, did_0101, did_0103};
use flt_model::Report;

/// The two data identifiers of each frame.
static USES: [DidUse; 2] = [
    DidUse {
        id: 0x0101,
        width: 2,
    },
    DidUse {
        id: 0x0103,
        width: 1,
    },
];

/// A configuration of one event with these data identifiers.
fn configured() -> Config {
    let mut dids: ArrayVec<DidUse, DIDS> = ArrayVec::new();
    let _full = dids.try_extend_from_slice(&USES);
    let mut events = ArrayVec::new();
    events.push(EventCfg {
        dids,
        ..EventCfg::new(0x123456)
    });
    Config {
        id: 0,
        memory: 16,
        pages: 512,
        blocks: 8,
        events,
    }
}

/// Its manager, where the configuration is valid and the table has what it uses.
fn manager() -> Option<Dem> {
    let mut table: DidTable<DID_ROWS> = DidTable::new();
    let _added = table.add(0x0101, 2, did_0101).is_ok() && table.add(0x0103, 1, did_0103).is_ok();
    let config = check(configured()).ok()?;
    if table.serves(&config.config().events) {
        Some(Dem::make(config, table))
    } else {
        None
    }
}

fn has_event(dem: &Dem) -> bool
    ensures { IsTrue result ↔ (0 < length (manager_config dem.now).events.items) }
{
    0 < dem.config().config().events.len()
}

/// Whether a report of the event is taken.
fn reports(dem: &mut Dem, report: Report) -> bool {
    has_event(dem) && dem.report(0, report, true).is_none()
}

/// Whether the event's entry has this occurrence and these frames.
fn has_frames(dem: &Dem, occurrence: u8, first: &[u8], recent: &[u8]) -> bool {
    match dem.entry(0) {
        Some(entry) => {
            entry.occurrence == occurrence
                && entry.first.as_slice() == first
                && entry.recent.as_slice() == recent
        }
        None => false,
    }
}

#[test]
fn frames_are_taken_at_the_first_and_the_last_failure(rt: HostRuntime) {
    let mut dem = manager().expect(&rt, "the configuration is valid");
    dem.signal(0, 258);
    dem.signal(2, 7);
    dem.cycle(0);
    let is_taken = reports(&mut dem, Report::Failed);
    holds(&rt, is_taken, "the first failure");
    let has_entry = has_frames(&dem, 1, &[1, 2, 7], &[1, 2, 7]);
    holds(&rt, has_entry, "the entry after it");
    dem.signal(0, 3);
    let are_taken = reports(&mut dem, Report::Passed) && reports(&mut dem, Report::Failed);
    holds(&rt, are_taken, "a pass and the last failure");
    let has_entry = has_frames(&dem, 2, &[1, 2, 7], &[0, 3, 7]);
    holds(&rt, has_entry, "the entry after them");
}

/// Whether the first to fail and the last to be confirmed is this event, and the last to fail.
fn notes(dem: &Dem, event: Option<u16>) -> bool {
    dem.noted(Which::FirstFailed) == event
        && dem.noted(Which::RecentFailed) == event
        && dem.noted(Which::RecentConfirmed) == event
}

/// How many entries a save keeps.
fn saved_entries(dem: &Dem) -> usize {
    let mut saved = initial(dem.config());
    dem.persist(&mut saved);
    saved.entries.len()
}

#[test]
fn noted_events_are_told_until_all_are_cleared(rt: HostRuntime) {
    let mut dem = manager().expect(&rt, "the configuration is valid");
    dem.cycle(0);
    let is_noted = reports(&mut dem, Report::Failed) && notes(&dem, Some(0));
    holds(&rt, is_noted, "the event after its failure");
    let is_found = dem.find(0x123456) == Some(0) && dem.find(0x123457).is_none();
    holds(&rt, is_found, "the events by their DTCs");
    holds(&rt, saved_entries(&dem) == 1, "the entries of a save");
    dem.clear_all();
    let is_cleared = notes(&dem, None) && dem.entry(0).is_none();
    holds(&rt, is_cleared, "the event after a clear");
}
