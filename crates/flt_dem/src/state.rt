//! The event manager without the functions of its table of data identifiers.

ghost use Rattle.std.specs.Prelude.{◌≡◌, ◌≢◌, ◌<◌, ◌≤◌, ℕ, [], length, slice_get, slice_set, find, position, option_copied, is_some, slice_index_or, Some, None, IfSome, false};
ghost use Rattle.flt_config.specs.Durable.{Fits, is_of_event};
ghost use Rattle.flt_config.specs.Validity.{IsValid, has_dtc};
ghost use Rattle.flt_model.specs.Start.{event_of, fresh};
ghost use Rattle.flt_model.specs.Happening.{all_dtcs, cause_of};
ghost use Rattle.flt_model.specs.Answer.{report_reply};
ghost use Rattle.flt_model.specs.Durable.{saved_after};
ghost use Rattle.flt_model.specs.declared.call.Op.TheVariants as ops;
ghost use Rattle.flt_model.specs.declared.call.ReplyOf.TheVariants as replies;
ghost use Rattle.flt_did.specs.Table.{dids_of};
ghost use Rattle.flt_did.specs.Serves.{Serves};
ghost use Rattle.flt_dem.specs.View.{detection_counter_of};
ghost use Rattle.flt_dem.specs.DurablePart.{KeepsOthers};
ghost use Rattle.flt_dem.specs.Manager.{StandsFor, KeepsEvent, IsOfOtherCycle, readiness_at};
ghost use Rattle.flt_dem.specs.Manager.{ManagerTakes, TakesUnder, TakesClear, IsValueOf, ManagerAnswers, AnswersUnder, LeavesOthers, states_after, entry_after, noted_after};

use crate::conditions::Conditions;
use crate::events::Events;
use crate::notes::Which;
use flt_config::{
    Condition, EVENTS, EntryState, EventState, OperationCycle, Persist, SignalIndex, ValidConfig,
};
use flt_did::{DID_ROWS, DidTable, Signals};
use flt_model::{Cause, Report, Shown};
use std::marker::Model;

/// The operation cycles, which have the numbers 0 to 3.
const CYCLES: usize = 4;

/// The event manager without its table of data identifiers: the events, which operation cycles are
/// started, the signals, and which enable conditions are fulfilled.
#[derive(Drop)]
pub struct DemState {
    events: Events,
    started: [bool; CYCLES],
    signals: Signals,
    conditions: Conditions,
}

impl Model for DemState {
    ghost use Rattle.flt_dem.specs.Manager.{Manager};

    ghost Value = { Manager };

    ghost view = { λ d. record { durable = d.events.durable; debounces = d.events.debounces; started = d.started; signals = d.signals.values; conditions = d.conditions } };
}

impl DemState {
    ghost use Rattle.flt_dem.specs.Notes.{noted_by};

    /// A manager with nothing saved, to which no call was made: no event was tested, there is no entry,
    /// every debouncing is at rest, no cycle is started, each signal is 0 and each enable condition is
    /// fulfilled.
    pub fn make(config: ValidConfig) -> DemState
        ensures config { result.durable.config ≡ config }
        ensures stands { StandsFor (fresh config) [] result }
    {
        DemState {
            events: Events::new(config),
            started: [false; CYCLES],
            signals: Signals::zero(),
            conditions: Conditions::fulfilled(),
        }
    }

    /// Starts again from a saved state that fits the configuration: what is not saved is at rest.
    pub fn boot(&mut self, base: &Persist)
        requires fits { Fits self.old.durable.config base.now }
        ensures config { self.new.durable.config ≡ self.old.durable.config }
        ensures stands { StandsFor (record { config = self.old.durable.config; base = base.now }) [] self.new }
    {
        self.events.restore(base);
        self.started = [false; CYCLES];
        self.signals = Signals::zero();
        self.conditions = Conditions::fulfilled();
    }

    /// Writes the durable state: what is to be saved. That changes nothing.
    pub fn persist(&self, out: &mut Persist)
        ensures saved { IsValueOf saved_after self.now out.new }
        ensures stands { ManagerTakes ops.Snapshot self.now self.now }
    {
        self.events.durable().persist(out);
    }

    /// The configuration, whose memory has room for the entries.
    pub fn config(&self) -> &ValidConfig
        ensures value { result.now ≡ self.now.durable.config }
        ensures room { length self.now.durable.memory.entries ≤ result.now.memory }
    {
        self.events.durable().valid_config()
    }

    /// Sets the signal with this number.
    pub fn signal(&mut self, index: SignalIndex, value: u16)
        ensures value { self.new ≡ record self.old { signals = slice_set self.old.signals index value } }
        ensures stands { ManagerTakes (ops.Signal index value) self.old self.new }
    {
        self.signals.set(index, value);
    }

    /// Notes whether the enable condition with this number is fulfilled.
    pub fn enable(&mut self, condition: Condition, fulfilled: bool)
        ensures value { self.new ≡ record self.old { conditions = slice_set self.old.conditions condition fulfilled } }
        ensures stands { ManagerTakes (ops.Enable condition fulfilled) self.old self.new }
    {
        self.conditions.set(condition, fulfilled);
    }

    /// Why a report of an event is ignored, in view of whether the setting is on.
    fn cause(&self, event: u16, setting: bool) -> Option<Cause>
        requires { event < length self.now.durable.config.events.items }
        ensures valid { IsValid self.now.durable.config }
        ensures cause { result ≡ cause_of (readiness_at setting self.now event) }
    {
        let rules = self.events.durable().rules(event);
        if !setting {
            Some(Cause::SettingOff)
        } else if !self.started[rules.cycle as usize] {
            Some(Cause::NotStarted)
        } else if !self.conditions.meet(rules.needs) {
            Some(Cause::NotEnabled)
        } else {
            None
        }
    }

    /// Takes a monitor's report of an event, in view of whether the setting is on. The answer says why
    /// it is ignored: the setting is off, else the event's cycle was not started since power-up, or else
    /// an enable condition that the event needs is not fulfilled; then nothing changes. A result that it
    /// qualifies changes the event's state, the entries and the notes.
    pub fn report(
        &mut self,
        dids: &DidTable<DID_ROWS>,
        event: u16,
        report: Report,
        setting: bool,
    ) -> Option<Cause>
        requires configured { event < length self.old.durable.config.events.items }
        requires served { Serves (dids_of dids.now) self.old.durable.config.events.items }
        ensures config { self.new.durable.config ≡ self.old.durable.config }
        ensures ignored { result ≡ cause_of (readiness_at setting self.old event) }
        ensures unchanged { IfSome result (λ _. self.new ≡ self.old) }
        ensures debouncing { KeepsOthers event self.old.debounces self.new.debounces }
        ensures others { LeavesOthers event self.old self.new }
        ensures stands { TakesUnder setting (ops.Report event report) self.old self.new }
        ensures answer { AnswersUnder setting (ops.Report event report) self.old (report_reply result) }
    {
        match self.cause(event, setting) {
            Some(cause) => Some(cause),
            None => {
                self.events.report(dids, &self.signals, event, report);
                None
            }
        }
    }

    /// Lets ticks of 10 ms go by, in view of whether the setting is on: with the setting off
    /// nothing changes, and else each event ticks that is enabled, in order of number.
    pub fn tick(&mut self, dids: &DidTable<DID_ROWS>, ticks: u16, setting: bool)
        requires served { Serves (dids_of dids.now) self.old.durable.config.events.items }
        ensures config { self.new.durable.config ≡ self.old.durable.config }
        ensures unchanged { setting ≡ false → self.new ≡ self.old }
        ensures stands { TakesUnder setting (ops.Tick ticks) self.old self.new }
    {
        if setting {
            self.events
                .tick(dids, &self.signals, &self.conditions, ticks);
        }
    }

    /// Ends an operation cycle for each of its events in order of number, and starts the next. An event
    /// that ages by it gives up its entry.
    pub fn cycle(&mut self, cycle: OperationCycle)
        ensures config { self.new.durable.config ≡ self.old.durable.config }
        ensures stands { ManagerTakes (ops.Cycle cycle) self.old self.new }
        ensures others { (event : ℕ) → IsOfOtherCycle self.old.durable.config cycle event → KeepsEvent event self.old self.new }
    {
        self.events.end_cycle(cycle.get());
        self.started[cycle.get() as usize] = true;
    }

    /// Clears all events, as a tester's request for the group of all DTCs does (ISO 14229-1, service
    /// 0x14): each is as one that was never tested, there is no entry and no note, and the overflow
    /// flag is taken back.
    pub fn clear_all(&mut self)
        ensures config { self.new.durable.config ≡ self.old.durable.config }
        ensures stands { TakesClear (λ _. all_dtcs) self.old self.new }
    {
        self.events.clear_all();
    }

    /// Clears one event, as a tester's request for its DTC does: it is as one that was never tested,
    /// without an entry, and the notes that name it are none. The overflow flag stays.
    pub fn clear_one(&mut self, event: u16)
        requires { event < length self.old.durable.config.events.items }
        ensures config { self.new.durable.config ≡ self.old.durable.config }
        ensures stands { TakesClear (λ life. (event_of life event).dtc) self.old self.new }
        ensures others { (other : ℕ) → other ≢ event → KeepsEvent other self.old self.new }
    {
        self.events.clear_one(event);
    }

    /// The event that has a DTC, where one has.
    pub fn find(&self, dtc: u32) -> Option<u16>
        ensures { result ≡ position (has_dtc dtc) self.now.durable.config.events.items }
    {
        self.events.durable().find(dtc)
    }

    /// The durable state of an event.
    pub fn state(&self, event: u16) -> EventState
        requires { event < length self.now.durable.config.events.items }
        ensures { slice_get self.now.durable.states event ≡ Some result }
    {
        self.events.durable().state(event)
    }

    /// The durable states of all events, by number.
    pub fn states(&self) -> &[EventState]
        ensures value { result.now ≡ self.now.durable.states }
        ensures one_each { length result.now ≡ length self.now.durable.config.events.items }
        ensures few { length result.now ≤ EVENTS }
        ensures stands { IsValueOf states_after self.now result.now }
    {
        self.events.durable().states()
    }

    /// The fault detection counter of an event, from -128 (passed) to 127 (failed).
    pub fn detection_counter(&self, event: u16) -> i8
        requires { event < length self.now.durable.config.events.items }
        ensures { result ≡ detection_counter_of self.now event }
    {
        self.events.detection_counter(event)
    }

    /// What is shown of an event. To show it changes nothing.
    pub fn show(&self, event: u16) -> Shown
        requires { event < length self.now.durable.config.events.items }
        ensures answer { ManagerAnswers (ops.Show event) self.now (replies.Shown result) }
        ensures stands { ManagerTakes (ops.Show event) self.now self.now }
    {
        let durable = self.events.durable();
        let state = durable.state(event);
        Shown {
            status: state.status,
            fdc: self.events.detection_counter(event),
            failed: state.failed,
            clean: state.clean,
            stored: durable.occurrence(event),
            overflow: durable.overflow(),
        }
    }

    /// The entry of an event, where it has one.
    pub fn entry(&self, event: u16) -> Option<&EntryState>
        ensures value { option_copied result ≡ find (is_of_event event) self.now.durable.memory.entries }
        ensures stands { IsValueOf (entry_after event) self.now (option_copied result) }
    {
        self.events.durable().entry(event)
    }

    /// Which events have an entry, by their numbers, found in one walk over the entries.
    pub fn stored(&self) -> [bool; EVENTS]
        ensures { (event : ℕ) → event < EVENTS → slice_index_or result event false ≡ is_some (find (is_of_event event) self.now.durable.memory.entries) }
    {
        self.events.durable().stored()
    }

    /// The noted event that is asked for, where there is one.
    pub fn noted(&self, which: Which) -> Option<u16>
        ensures value { result ≡ noted_by which self.now.durable.notes }
        ensures stands { IsValueOf (noted_after which) self.now result }
    {
        self.events.durable().noted(which)
    }
}
