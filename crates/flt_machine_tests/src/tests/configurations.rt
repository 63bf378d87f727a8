//! Configurations from the check to their first state.
ghost use Rattle.std.specs.Prelude.{◌≡◌, ◌<◌};

use super::{holds, holds_at};
use arrayvec::ArrayVec;
use flt_config::{
    CfgFault, Config, DidUse, EVENTS, EntryState, EventCfg, EventState, Field, Frame, Persist,
    ValidConfig, check, fits, initial, needed_pages,
};
use std::process::Abort;

fn config(pages: u16, events: ArrayVec<EventCfg, EVENTS>) -> Config {
    Config {
        id: 0,
        memory: 16,
        pages,
        blocks: 8,
        events,
    }
}

/// As many events as there may be.
fn full() -> ArrayVec<EventCfg, EVENTS> {
    let mut events = ArrayVec::new();
    for dtc in 0..EVENTS as u32 {
        if !events.is_full() && dtc < 999 {
            events.push(EventCfg::new(dtc + 1));
        }
    }
    events
}

/// A configuration that is valid.
fn accepted(rt: &impl Abort, config: Config) -> ValidConfig {
    let Ok(valid) = check(config) else {
        panic!(rt; "refused")
    };
    valid
}

#[test]
fn a_full_configuration_is_accepted(rt: HostRuntime) {
    let valid = accepted(&rt, config(512, full()));
    let is_full = valid.config().events.len() == EVENTS;
    holds(&rt, is_full, "how many events");
    let has_its_pages = needed_pages(valid.config()) == 334;
    holds(&rt, has_its_pages, "how many pages");
    holds(
        &rt,
        fits(&valid, &initial(&valid.twin())),
        "the first state",
    );
}

/// Whether this is the first fault of a configuration.
fn is_fault(pages: u16, events: ArrayVec<EventCfg, EVENTS>, fault: CfgFault) -> bool {
    check(config(pages, events)).err() == Some(fault)
}

#[test]
fn the_first_fault_is_told(rt: HostRuntime) {
    let mut events = ArrayVec::new();
    events.push(EventCfg::new(1));
    events.push(EventCfg::new(1));
    let (first, second) = (0, 1);
    let twice = CfgFault::DtcTwice { first, second };
    holds(
        &rt,
        is_fault(512, events, twice),
        "a DTC that is twice there",
    );
    let range = CfgFault::Range {
        event: None,
        field: Field::Pages,
        value: 63,
    };
    holds(&rt, is_fault(63, ArrayVec::new(), range), "63 pages");
    let (needed, pages) = (206, 64);
    let no_room = CfgFault::NoRoom { needed, pages };
    holds(&rt, is_fault(64, ArrayVec::new(), no_room), "64 pages");
}

/// Three events of a memory with two entries. The second lights the indicator and heals after three cycles, and its frames have two bytes.
fn three() -> Config {
    let mut events = ArrayVec::new();
    let mut dids = ArrayVec::new();
    dids.push(DidUse {
        id: 0x0101,
        width: 2,
    });
    events.push(EventCfg::new(1));
    events.push(EventCfg {
        indicator: true,
        dids,
        ..EventCfg::new(2)
    });
    events.push(EventCfg::new(3));
    Config {
        memory: 2,
        ..config(512, events)
    }
}

/// States of an event: its number; status, clean cycles and whether it is lit; and whether they fit. The others are untested.
static STATES: [(usize, u8, u16, bool, bool); 14] = [
    // An event that is lit is confirmed, and its warning is requested until it heals.
    (1, 0x88, 0, true, true),
    (1, 0x88, 2, true, true),
    (1, 0x88, 3, true, false),
    (1, 0x08, 3, true, true),
    (1, 0x08, 2, true, false),
    (1, 0x80, 2, true, false),
    (1, 0x00, 3, true, false),
    (1, 0x88, 0, false, false),
    (1, 0x80, 0, false, false),
    (1, 0x08, 0, false, true),
    // An event without an indicator is not lit.
    (0, 0x88, 0, true, false),
    (2, 0x08, 3, true, false),
    // Clean cycles are at most 510.
    (1, 0x50, 510, false, true),
    (1, 0x50, 511, false, false),
];

/// Entries, each by its event, its occurrence and the lengths of both frames; and whether they fit.
static ENTRIES: [(&[(u16, u8, usize, usize)], bool); 9] = [
    // An entry has an event, an occurrence and frames of the event's width.
    (&[(0, 1, 0, 0), (1, 255, 2, 2)], true),
    (&[(2, 1, 0, 0), (0, 1, 0, 0)], true),
    (&[(0, 0, 0, 0)], false),
    (&[(3, 1, 0, 0)], false),
    (&[(1, 1, 1, 2)], false),
    (&[(1, 1, 2, 3)], false),
    (&[(1, 1, 0, 0)], false),
    // Entries are of distinct events, and within the memory.
    (&[(0, 1, 0, 0), (0, 2, 0, 0)], false),
    (&[(0, 1, 0, 0), (1, 1, 2, 2), (2, 1, 0, 0)], false),
];

/// An event that is noted, or none.
type Note = Option<u16>;

/// The four noted events, and whether they fit: each is one of the three.
static NOTES: [(Note, Note, Note, Note, bool); 5] = [
    (Some(2), Some(0), Some(1), Some(2), true),
    (Some(3), None, None, None, false),
    (None, Some(3), None, None, false),
    (None, None, Some(3), None, false),
    (None, None, None, Some(3), false),
];

/// A frame of this many bytes.
fn frame(length: usize) -> Frame {
    let mut frame = ArrayVec::new();
    for _ in 0..length {
        if !frame.is_full() {
            frame.push(0);
        }
    }
    frame
}

/// Puts these entries.
fn put_entries(state: &mut Persist, entries: &[(u16, u8, usize, usize)]) {
    for (event, occurrence, first, recent) in entries {
        if !state.entries.is_full() {
            state.entries.push(EntryState {
                event: *event,
                occurrence: *occurrence,
                first: frame(*first),
                recent: frame(*recent),
            });
        }
    }
}

/// Whether the first state of a configuration, with this state of an event in it, fits.
fn fits_with(valid: &ValidConfig, event: usize, event_state: EventState) -> bool {
    let mut state = initial(valid);
    if let Some(place) = state.events.get_mut(event) {
        *place = event_state;
    }
    fits(valid, &state)
}

/// Whether the first state without its last event fits.
fn fits_short(valid: &ValidConfig) -> bool {
    let mut short = initial(valid);
    let _ = short.events.pop();
    fits(valid, &short)
}

#[test]
fn states_of_events_fit_or_not(rt: HostRuntime) {
    let valid = accepted(&rt, three());
    for (row, (event, status, clean, lit, fit)) in STATES.iter().enumerate() {
        let event_state = EventState {
            status: *status,
            failed: 0,
            clean: *clean,
            lit: *lit,
        };
        let is_so = fits_with(&valid, *event, event_state) == *fit;
        holds_at(&rt, is_so, "state", row);
    }
    holds(&rt, !fits_short(&valid), "a state of one event less");
}

#[test]
fn entries_fit_or_not(rt: HostRuntime) {
    let valid = accepted(&rt, three());
    for (row, (entries, fit)) in ENTRIES.iter().enumerate() {
        let mut state = initial(&valid);
        put_entries(&mut state, entries);
        holds_at(&rt, fits(&valid, &state) == *fit, "entries", row);
    }
}

#[test]
fn noted_events_fit_or_not(rt: HostRuntime) {
    let valid = accepted(&rt, three());
    for (row, (first_failed, first_confirmed, recent_failed, recent_confirmed, fit)) in NOTES
        .iter()
        .enumerate()
    {
        let mut state = initial(&valid);
        state.first_failed = *first_failed;
        state.first_confirmed = *first_confirmed;
        state.recent_failed = *recent_failed;
        state.recent_confirmed = *recent_confirmed;
        holds_at(&rt, fits(&valid, &state) == *fit, "notes", row);
    }
}
