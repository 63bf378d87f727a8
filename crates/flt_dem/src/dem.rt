//! The event manager with its table of data identifiers.

ghost use Rattle.std.specs.Prelude.{◌≡◌, ◌≢◌, ◌<◌, ℕ, [], length, slice_get, slice_set, find, position, option_copied, Some, None, IfSome, false};
ghost use Rattle.std.proofs.Props.{props};
ghost use Rattle.flt_config.specs.Durable.{Fits, is_of_event};
ghost use Rattle.flt_config.specs.Validity.{has_dtc};
ghost use Rattle.flt_model.specs.Start.{event_of, fresh};
ghost use Rattle.flt_model.specs.Happening.{all_dtcs, cause_of};
ghost use Rattle.flt_model.specs.Answer.{report_reply};
ghost use Rattle.flt_model.specs.Durable.{saved_after};
ghost use Rattle.flt_model.specs.declared.call.Op.TheVariants as ops;
ghost use Rattle.flt_model.specs.declared.call.ReplyOf.TheVariants as replies;
ghost use Rattle.flt_did.specs.Table.{dids_of};
ghost use Rattle.flt_did.specs.Serves.{Serves};
ghost use Rattle.flt_dem.specs.DurablePart.{KeepsOthers};
ghost use Rattle.flt_dem.specs.Manager.{StandsFor, KeepsEvent, IsOfOtherCycle, readiness_at};
ghost use Rattle.flt_dem.specs.Manager.{ManagerTakes, TakesUnder, TakesClear, IsValueOf, ManagerAnswers, AnswersUnder, LeavesOthers, entry_after, noted_after};

use crate::notes::Which;
use crate::state::DemState;
use flt_config::{Condition, EntryState, OperationCycle, Persist, SignalIndex, ValidConfig};
use flt_did::{DID_ROWS, DidTable};
use flt_model::{Cause, Report, Shown};

/// The event manager, and the table of data identifiers that its frames are made with: each identifier
/// that an event uses is in the table, with its width.
#[derive(Drop)]
pub struct Dem {
    /// The manager without the functions of its table.
    pub state: DemState,
    /// The table of data identifiers.
    pub dids: DidTable<DID_ROWS>,
    ghost served: { Serves (dids_of dids) state.durable.config.events.items } by { Prim.hlevel props },
}

impl Dem {
    ghost use Rattle.flt_dem.specs.Notes.{noted_by};
    ghost use Rattle.flt_dem.specs.Dem.{manager_of, manager_config, manager_table};

    /// A manager with nothing saved, to which no call was made: no event was tested, there is no entry,
    /// every debouncing is at rest, no cycle is started, each signal is 0 and each enable condition is
    /// fulfilled.
    pub fn make(config: ValidConfig, dids: DidTable<DID_ROWS>) -> Dem
        requires { Serves (dids_of dids) config.events.items }
        ensures config { manager_config result ≡ config }
        ensures dids { manager_table result ≡ dids_of dids }
        ensures stands { StandsFor (fresh config) [] (manager_of result) }
    {
        Dem {
            state: DemState::make(config),
            dids,
        }
    }

    /// Starts again from a saved state that fits the configuration: what is not saved is at rest.
    pub fn boot(&mut self, base: &Persist)
        requires fits { Fits (manager_config self.old) base.now }
        ensures config { manager_config self.new ≡ manager_config self.old }
        ensures dids { manager_table self.new ≡ manager_table self.old }
        ensures stands { StandsFor (record { config = manager_config self.old; base = base.now }) [] (manager_of self.new) }
    {
        self.state.boot(base);
    }

    /// Writes the durable state: what is to be saved. That changes nothing.
    pub fn persist(&self, out: &mut Persist)
        ensures saved { IsValueOf saved_after (manager_of self.now) out.new }
        ensures stands { ManagerTakes ops.Snapshot (manager_of self.now) (manager_of self.now) }
    {
        self.state.persist(out);
    }

    /// The configuration.
    pub fn config(&self) -> &ValidConfig
        ensures { result.now ≡ manager_config self.now }
    {
        self.state.config()
    }

    /// Sets a signal, of the number 0 to 7.
    pub fn signal(&mut self, index: u8, value: u16)
        requires { index < 8 }
        ensures dids { manager_table self.new ≡ manager_table self.old }
        ensures value { manager_of self.new ≡ record (manager_of self.old) { signals = slice_set (manager_of self.old).signals index value } }
        ensures stands { ManagerTakes (ops.Signal index value) (manager_of self.old) (manager_of self.new) }
    {
        self.state.signal(SignalIndex::new(index), value);
    }

    /// Notes whether an enable condition, of the number 0 to 7, is fulfilled.
    pub fn enable(&mut self, condition: u8, fulfilled: bool)
        requires { condition < 8 }
        ensures dids { manager_table self.new ≡ manager_table self.old }
        ensures value { manager_of self.new ≡ record (manager_of self.old) { conditions = slice_set (manager_of self.old).conditions condition fulfilled } }
        ensures stands { ManagerTakes (ops.Enable condition fulfilled) (manager_of self.old) (manager_of self.new) }
    {
        self.state.enable(Condition::new(condition), fulfilled);
    }

    /// Takes a monitor's report of an event, in view of whether the setting is on. The answer says why
    /// it is ignored: the setting is off, else the event's cycle was not started since power-up, or else
    /// an enable condition that the event needs is not fulfilled; then nothing changes. A result that it
    /// qualifies changes the event's state, the entries and the notes.
    pub fn report(&mut self, event: u16, report: Report, setting: bool) -> Option<Cause>
        requires configured { event < length (manager_config self.old).events.items }
        ensures config { manager_config self.new ≡ manager_config self.old }
        ensures dids { manager_table self.new ≡ manager_table self.old }
        ensures ignored { result ≡ cause_of (readiness_at setting (manager_of self.old) event) }
        ensures unchanged { IfSome result (λ _. manager_of self.new ≡ manager_of self.old) }
        ensures debouncing { KeepsOthers event (manager_of self.old).debounces (manager_of self.new).debounces }
        ensures others { LeavesOthers event (manager_of self.old) (manager_of self.new) }
        ensures stands { TakesUnder setting (ops.Report event report) (manager_of self.old) (manager_of self.new) }
        ensures answer { AnswersUnder setting (ops.Report event report) (manager_of self.old) (report_reply result) }
    {
        self.state.report(&self.dids, event, report, setting)
    }

    /// Lets ticks of 10 ms go by, in view of whether the setting is on: with the setting off
    /// nothing changes, and else each event ticks that is enabled, in order of number.
    pub fn tick(&mut self, ticks: u16, setting: bool)
        ensures config { manager_config self.new ≡ manager_config self.old }
        ensures dids { manager_table self.new ≡ manager_table self.old }
        ensures unchanged { setting ≡ false → manager_of self.new ≡ manager_of self.old }
        ensures stands { TakesUnder setting (ops.Tick ticks) (manager_of self.old) (manager_of self.new) }
    {
        self.state.tick(&self.dids, ticks, setting);
    }

    /// Ends an operation cycle, of the number 0 to 3, for each of its events in order of number, and
    /// starts the next. An event that ages by it gives up its entry.
    pub fn cycle(&mut self, cycle: u8)
        requires { cycle < 4 }
        ensures config { manager_config self.new ≡ manager_config self.old }
        ensures dids { manager_table self.new ≡ manager_table self.old }
        ensures stands { ManagerTakes (ops.Cycle cycle) (manager_of self.old) (manager_of self.new) }
        ensures others { (event : ℕ) → IsOfOtherCycle (manager_config self.old) cycle event → KeepsEvent event (manager_of self.old) (manager_of self.new) }
    {
        self.state.cycle(OperationCycle::new(cycle));
    }

    /// Clears all events, as a tester's request for the group of all DTCs does (ISO 14229-1, service
    /// 0x14): each is as one that was never tested, there is no entry and no note, and the overflow
    /// flag is taken back.
    pub fn clear_all(&mut self)
        ensures config { manager_config self.new ≡ manager_config self.old }
        ensures dids { manager_table self.new ≡ manager_table self.old }
        ensures stands { TakesClear (λ _. all_dtcs) (manager_of self.old) (manager_of self.new) }
    {
        self.state.clear_all();
    }

    /// Clears one event, as a tester's request for its DTC does: it is as one that was never tested,
    /// without an entry, and the notes that name it are none. The overflow flag stays.
    pub fn clear_one(&mut self, event: u16)
        requires { event < length (manager_config self.old).events.items }
        ensures config { manager_config self.new ≡ manager_config self.old }
        ensures dids { manager_table self.new ≡ manager_table self.old }
        ensures stands { TakesClear (λ life. (event_of life event).dtc) (manager_of self.old) (manager_of self.new) }
        ensures others { (other : ℕ) → other ≢ event → KeepsEvent other (manager_of self.old) (manager_of self.new) }
    {
        self.state.clear_one(event);
    }

    /// The event that has a DTC, where one has.
    pub fn find(&self, dtc: u32) -> Option<u16>
        ensures { result ≡ position (has_dtc dtc) (manager_config self.now).events.items }
    {
        self.state.find(dtc)
    }

    /// What is shown of an event. To show it changes nothing.
    pub fn show(&self, event: u16) -> Shown
        requires { event < length (manager_config self.now).events.items }
        ensures answer { ManagerAnswers (ops.Show event) (manager_of self.now) (replies.Shown result) }
        ensures stands { ManagerTakes (ops.Show event) (manager_of self.now) (manager_of self.now) }
    {
        self.state.show(event)
    }

    /// The entry of an event, where it has one.
    pub fn entry(&self, event: u16) -> Option<&EntryState>
        ensures value { option_copied result ≡ find (is_of_event event) (manager_of self.now).durable.memory.entries }
        ensures stands { IsValueOf (entry_after event) (manager_of self.now) (option_copied result) }
    {
        self.state.entry(event)
    }

    /// The noted event that is asked for, where there is one.
    pub fn noted(&self, which: Which) -> Option<u16>
        ensures value { result ≡ noted_by which (manager_of self.now).durable.notes }
        ensures stands { IsValueOf (noted_after which) (manager_of self.now) result }
    {
        self.state.noted(which)
    }
}
