//! The first durable state, and whether a state fits a configuration.
ghost use Rattle.std.specs.Prelude.{◌≡◌, ◌↔◌, ◌<◌, ◌≤◌, length, replicate, IsTrue, IfSome, All, AllPairs, position};
ghost use Rattle.flt_config.specs.Durable.{initial_state, start_state, Fits, IsStateOf, IsEntryOf, IsOfOtherEvent, IsNoted, AreStatesOf, is_of_event};
ghost use Rattle.flt_config.specs.Ranges.{frame_width};

use crate::{
    DIDS, DidUse, EVENTS, EntryState, EventCfg, EventState, Persist, UNTESTED, ValidConfig,
};
use arrayvec::ArrayVec;

/// Puts the state of an event that was not tested for each event, in place of those that are there.
#[inline(always)]
fn put_untested(config: &ValidConfig, events: &mut ArrayVec<EventState, EVENTS>)
    ensures { events.new.items ≡ replicate (length config.now.events.items) start_state }
{
    let count = config.config().events.len();
    events.clear();
    for _made in 0..count {
        events.push(UNTESTED);
    }
}

/// The state of a controller that never saved one: each event as after a clear, no entry, no noted event.
pub fn initial(config: &ValidConfig) -> Persist
    ensures value { result ≡ initial_state config.now }
    ensures fits { Fits config.now result }
{
    let mut events = ArrayVec::new();
    put_untested(config, &mut events);
    Persist {
        events,
        entries: ArrayVec::new(),
        overflow: false,
        first_failed: None,
        first_confirmed: None,
        recent_failed: None,
        recent_confirmed: None,
    }
}

/// Puts that state in place of another one.
pub fn put_initial(config: &ValidConfig, state: &mut Persist)
    ensures value { state.new ≡ initial_state config.now }
    ensures fits { Fits config.now state.new }
{
    put_untested(config, &mut state.events);
    state.entries.clear();
    state.overflow = false;
    state.first_failed = None;
    state.first_confirmed = None;
    state.recent_failed = None;
    state.recent_confirmed = None;
}

fn is_state_of(event: &EventCfg, state: EventState) -> bool
    ensures { IsTrue result ↔ IsStateOf event.now state }
{
    state.clean <= 510
        && ((state.status & 0x80 != 0) == (state.lit && state.clean < event.heal as u16))
        && (!state.lit || (state.status & 0x08 != 0 && event.indicator))
}

/// Whether these are states of these events, one for each: the indicator bit is set if and only if the state is lit and not
/// healed, and only a confirmed event with an indicator is lit.
pub fn are_states_of(events: &[EventCfg], states: &[EventState]) -> bool
    ensures { IsTrue result ↔ AreStatesOf events.now states.now }
{
    events.len() == states.len()
        && events
            .iter()
            .zip(states)
            .all(|(event, state)| is_state_of(event, *state))
}

fn frame_length(dids: &[DidUse]) -> usize
    requires { length dids.now ≤ DIDS }
    ensures { result ≡ frame_width dids.now }
{
    dids.iter().map(|did| did.width as usize).sum()
}

/// Whether the entry belongs to one of these events, with frames of its width.
pub fn is_entry_of(events: &[EventCfg], entry: &EntryState) -> bool
    ensures { IsTrue result ↔ IsEntryOf events.now entry.now }
{
    match events.get(entry.event as usize) {
        None => false,
        Some(event) => {
            let width = frame_length(&event.dids);
            1 <= entry.occurrence && entry.first.len() == width && entry.recent.len() == width
        }
    }
}

fn are_entries_of(events: &[EventCfg], entries: &[EntryState]) -> bool
    ensures { IsTrue result ↔ All (IsEntryOf events.now) entries.now }
{
    entries.iter().all(|entry| is_entry_of(events, entry))
}

fn have_distinct_events(entries: &[EntryState]) -> bool
    ensures { IsTrue result ↔ AllPairs IsOfOtherEvent entries.now }
{
    for (place, entry) in entries.iter().enumerate() {
        if let Some(_earlier) = place_of(&entries[..place], entry.event) {
            return false;
        }
    }
    true
}

/// The position of an event's entry among these, if there is one.
pub fn place_of(entries: &[EntryState], event: u16) -> Option<usize>
    ensures { result ≡ position (is_of_event event) entries.now }
{
    entries.iter().position(|entry| entry.event == event)
}

/// Whether the noted event, if there is one, is one of these.
pub fn is_noted(events: &[EventCfg], note: Option<u16>) -> bool
    ensures { IsTrue result ↔ IsNoted events.now note }
{
    match note {
        None => true,
        Some(event) => (event as usize) < events.len(),
    }
}

/// Whether the state can be that of a controller of this configuration: there is one state for each event; its
/// indicator bit is set if and only if it is lit and not healed; only a confirmed event with an indicator
/// is lit; there are at most `memory` entries, of distinct events and with frames of their widths; and
/// the noted events are configured.
pub fn fits(config: &ValidConfig, state: &Persist) -> bool
    ensures { IsTrue result ↔ Fits config.now state.now }
{
    let config = config.config();
    are_states_of(&config.events, &state.events)
        && state.entries.len() <= config.memory as usize
        && are_entries_of(&config.events, &state.entries)
        && have_distinct_events(&state.entries)
        && is_noted(&config.events, state.first_failed)
        && is_noted(&config.events, state.first_confirmed)
        && is_noted(&config.events, state.recent_failed)
        && is_noted(&config.events, state.recent_confirmed)
}
