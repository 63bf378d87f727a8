//! The durable part of the event manager: states, entries and notes, one mark at a time.

ghost use Rattle.std.specs.Prelude.{◌≡◌, ◌≢◌, ◌<◌, ◌≤◌, [], ◌∷◌, ℕ, List, length, slice_get, find, position, All, Some, false, option_copied, is_some, slice_index_or};
ghost use Rattle.flt_config.specs.Validity.{IsValid, IsEventInRange, has_dtc};
ghost use Rattle.flt_config.specs.Durable.{Fits, is_of_event};
ghost use Rattle.flt_model.specs.Start.{Start, event_of, fresh};
ghost use Rattle.flt_model.specs.Mark.{Trace, Of, AllCleared};
ghost use Rattle.flt_model.specs.Mark.Mark.{Passed};
ghost use Rattle.flt_model.specs.Trace.{with_failed, with_result, with_cycle};
ghost use Rattle.flt_model.specs.Durable.{saved};
ghost use Rattle.flt_did.specs.Table.{dids_of};
ghost use Rattle.flt_did.specs.Serves.{Serves};
ghost use Rattle.flt_dem.specs.DurablePart.{with_memory, without_entry, KeepsOthers, KeepsOthersWithoutEntry};
ghost use Rattle.flt_dem.specs.Standing.{DurablePartStands, Bears, BearsClear, StatesFollow, IsDisplacedBelow, IsNotDisplaced, occurrence_of};

use crate::notes::{Notes, Which};
use arrayvec::ArrayVec;
use flt_config::{
    Config, ENTRIES, EVENTS, EntryState, EventCfg, EventState, Persist, ValidConfig, initial,
};
use flt_did::{DID_ROWS, DidTable, Signals};
use flt_memory::{EventMemory, Stored};
use flt_model::Qualified;
use std::marker::Model;

/// What outlives a power cut, and the configuration that it belongs to.
#[derive(Drop)]
pub struct DurablePart {
    config: ValidConfig,
    states: ArrayVec<EventState, EVENTS>,
    memory: EventMemory,
    notes: Notes,
}

impl Model for DurablePart {
    ghost use Rattle.flt_dem.specs.DurablePart.{DurablePartView, AreOfConfig};

    ghost Value = { DurablePartView };

    ghost view = { λ f. record { config = f.config; states = f.states.items; memory = f.memory; notes = f.notes } };

    ghost invariant = { λ f. AreOfConfig f.config f.states.items f.memory };
}

/// The place of the event that has a DTC, where one has.
fn place_of(events: &[EventCfg], dtc: u32) -> Option<usize>
    ensures { result ≡ position (has_dtc dtc) events.now }
{
    events.iter().position(|event| event.dtc == dtc)
}

/// A copy of the states of the events, all at once, which takes no memory.
fn copied_states(states: &ArrayVec<EventState, EVENTS>) -> ArrayVec<EventState, EVENTS>
    ensures { result.items ≡ states.now.items }
{
    let mut copy = ArrayVec::new();
    copy.try_extend_from_slice(states).unwrap();
    copy
}

/// A copy of the entries, which takes no memory.
fn copied_entries(entries: &ArrayVec<EntryState, ENTRIES>) -> ArrayVec<EntryState, ENTRIES>
    ensures { result.items ≡ entries.now.items }
{
    entries.clone().unwrap()
}

impl DurablePart {
    ghost use Rattle.flt_dem.specs.Notes.{noted_by};

    /// The durable part of a controller that never saved one.
    pub fn new(config: ValidConfig) -> DurablePart
        ensures config { result.config ≡ config }
        ensures stands { DurablePartStands (fresh config) [] result }
    {
        let base = initial(&config);
        DurablePart {
            notes: Notes::of(&base),
            states: base.events,
            memory: EventMemory::empty(),
            config,
        }
    }

    /// Takes over a saved state.
    pub fn restore(&mut self, base: &Persist)
        requires { Fits self.old.config base.now }
        ensures config { self.new.config ≡ self.old.config }
        ensures stands { DurablePartStands (record { config = self.old.config; base = base.now }) [] self.new }
    {
        self.states = copied_states(&base.events);
        self.memory.load(&base.entries, base.overflow);
        self.notes = Notes::of(base);
    }

    /// Writes the durable state.
    pub fn persist(&self, out: &mut Persist)
        ensures { (life : Start) (marks : Trace) → DurablePartStands life marks self.now → out.new ≡ saved life marks }
    {
        out.events = copied_states(&self.states);
        out.entries = copied_entries(self.memory.entries());
        out.overflow = self.memory.overflow();
        out.first_failed = self.notes.first_failed;
        out.first_confirmed = self.notes.first_confirmed;
        out.recent_failed = self.notes.recent_failed;
        out.recent_confirmed = self.notes.recent_confirmed;
    }

    /// The configuration.
    pub fn config(&self) -> &Config
        ensures value { result.now ≡ self.now.config }
        ensures valid { IsValid self.now.config }
    {
        self.config.config()
    }

    /// The rules of an event.
    #[inline(always)]
    pub fn rules(&self, event: u16) -> &EventCfg
        requires { event < length self.now.config.events.items }
        ensures found { slice_get self.now.config.events.items event ≡ Some result.now }
        ensures in_range { IsEventInRange result.now }
        ensures valid { IsValid self.now.config }
        ensures of_life { (life : Start) → life.config ≡ self.now.config → result.now ≡ event_of life event }
    {
        &self.config.config().events[event as usize]
    }

    /// The configuration, with what is known of it.
    pub fn valid_config(&self) -> &ValidConfig
        ensures value { result.now ≡ self.now.config }
        ensures room { length self.now.memory.entries ≤ result.now.memory }
    {
        &self.config
    }

    /// How many events there are; each entry is of one of them.
    pub fn count(&self) -> u16
        ensures count { result ≡ length self.now.config.events.items }
        ensures within { All (λ entry. entry.event < result) self.now.memory.entries }
    {
        self.config.config().events.len() as u16
    }

    /// The event that has a DTC, where one has.
    pub fn find(&self, dtc: u32) -> Option<u16>
        ensures { result ≡ position (has_dtc dtc) self.now.config.events.items }
    {
        match place_of(&self.config.config().events, dtc) {
            Some(event) => Some(event as u16),
            None => None,
        }
    }

    /// The state of an event.
    pub fn state(&self, event: u16) -> EventState
        requires { event < length self.now.config.events.items }
        ensures { slice_get self.now.states event ≡ Some result }
    {
        self.states[event as usize]
    }

    /// The states of all events, by number.
    pub fn states(&self) -> &[EventState]
        ensures value { result.now ≡ self.now.states }
        ensures one_each { length result.now ≡ length self.now.config.events.items }
        ensures few { length result.now ≤ EVENTS }
        ensures stands { (life : Start) (marks : Trace) → DurablePartStands life marks self.now → result.now ≡ (saved life marks).events.items }
    {
        &self.states
    }

    /// The entry of an event, where it has one.
    pub fn entry(&self, event: u16) -> Option<&EntryState>
        ensures { option_copied result ≡ find (is_of_event event) self.now.memory.entries }
    {
        self.memory.find(event)
    }

    /// Which events have an entry, by their numbers, found in one walk over the entries.
    pub fn stored(&self) -> [bool; EVENTS]
        ensures { (event : ℕ) → event < EVENTS → slice_index_or result event false ≡ is_some (find (is_of_event event) self.now.memory.entries) }
    {
        self.memory.stored()
    }

    /// How often an event occurred that has an entry, and 0 without an entry.
    pub fn occurrence(&self, event: u16) -> u8
        ensures { (life : Start) (marks : Trace) → DurablePartStands life marks self.now → result ≡ occurrence_of event life marks }
    {
        match self.memory.find(event) {
            Some(entry) => entry.occurrence,
            None => 0,
        }
    }

    /// The overflow flag.
    pub fn overflow(&self) -> bool
        ensures { result ≡ self.now.memory.overflow }
    {
        self.memory.overflow()
    }

    /// The noted event that is asked for.
    pub fn noted(&self, which: Which) -> Option<u16>
        ensures { result ≡ noted_by which self.now.notes }
    {
        self.notes.noted(which)
    }

    /// The test of an event failed, at these signals.
    fn fail(&mut self, dids: &DidTable<DID_ROWS>, signals: &Signals, event: u16)
        requires configured { event < length self.old.config.events.items }
        requires served { Serves (dids_of dids.now) self.old.config.events.items }
        ensures config { self.new.config ≡ self.old.config }
        ensures stands { Bears (λ life. with_failed life signals.now.values event) self.old self.new }
        ensures others { KeepsOthersWithoutEntry event self.old self.new }
    {
        let rules = &self.config.config().events[event as usize];
        let mark = flt_status::failed(rules, &mut self.states[event as usize]);
        self.notes = self.notes.after_failure(event, mark);
        if mark.entered {
            let frame = dids.frame(&rules.dids, signals);
            let outcome = self.memory.store(&self.config, &self.states, event, &frame);
            follow(&mut self.states, outcome);
        }
    }

    /// The test of an event passed.
    fn pass(&mut self, event: u16)
        requires { event < length self.old.config.events.items }
        ensures config { self.new.config ≡ self.old.config }
        ensures stands { (signals : List ℕ) → Bears (λ life marks. Of event Passed signals ∷ marks) self.old self.new }
        ensures others { KeepsOthers event self.old.states self.new.states }
    {
        flt_status::passed(&mut self.states[event as usize]);
    }

    /// Takes the result of an event, if there is one, at these signals.
    #[inline(always)]
    pub fn take(
        &mut self,
        dids: &DidTable<DID_ROWS>,
        signals: &Signals,
        event: u16,
        qualified: Option<Qualified>,
    )
        requires configured { event < length self.old.config.events.items }
        requires served { Serves (dids_of dids.now) self.old.config.events.items }
        ensures config { self.new.config ≡ self.old.config }
        ensures stands { Bears (λ life. with_result life signals.now.values event qualified) self.old self.new }
        ensures others { KeepsOthersWithoutEntry event self.old self.new }
    {
        match qualified {
            Some(Qualified::Failed) => self.fail(dids, signals, event),
            Some(Qualified::Passed) => self.pass(event),
            None => {}
        }
    }

    /// The operation cycle of an event ended: an event that ages by it gives up its entry.
    pub fn end_cycle(&mut self, event: u16)
        requires { event < length self.old.config.events.items }
        ensures config { self.new.config ≡ self.old.config }
        ensures stands { (signals : List ℕ) → Bears (λ life. with_cycle life signals event) self.old self.new }
        ensures others { KeepsOthers event self.old.states self.new.states }
    {
        let rules = &self.config.config().events[event as usize];
        if flt_status::cycle(rules, &mut self.states[event as usize]) {
            self.memory.remove(event);
        }
    }

    /// A tester cleared an event: its state is as one that was never tested, and it is in no note. The entries stay.
    pub fn forget(&mut self, event: u16)
        requires { event < length self.old.config.events.items }
        ensures config { self.new.config ≡ self.old.config }
        ensures memory { self.new.memory ≡ self.old.memory }
        ensures stands { BearsClear event self.old self.new }
        ensures others { KeepsOthers event self.old.states self.new.states }
    {
        flt_status::clear(&mut self.states[event as usize]);
        self.notes = self.notes.after_clear(event);
    }

    /// Gives up the entry of an event, where it has one.
    pub fn remove_entry(&mut self, event: u16)
        ensures { self.new ≡ with_memory (without_entry event self.old.memory) self.old }
    {
        self.memory.remove(event);
    }

    /// Gives up each entry, and takes the overflow flag back.
    pub fn remove_entries(&mut self)
        ensures { self.new ≡ with_memory (record { entries = []; overflow = false }) self.old }
    {
        self.memory.clear();
    }
}

/// What became of an event that was stored: the event whose entry gave way is displaced.
fn follow(states: &mut [EventState], outcome: Stored)
    requires { IsDisplacedBelow (length states.old) outcome }
    ensures stand { StatesFollow outcome states.old states.new }
    ensures others { (other : ℕ) → IsNotDisplaced other outcome → slice_get states.new other ≡ slice_get states.old other }
{
    match outcome {
        Stored::Displaced(other) => flt_status::displaced(&mut states[other as usize]),
        Stored::Updated => {}
        Stored::Added => {}
        Stored::Refused => {}
    }
}
