//! The events, each of which takes its part of a call: in its debouncing, and in the durable part. A call that reaches all of them
//! goes over them in order of number.

ghost use Rattle.std.specs.Prelude.{◌≡◌, ◌<◌, [], length, map};
ghost use Rattle.flt_config.specs.Durable.{Fits};
ghost use Rattle.flt_config.specs.Validity.{IsValid};
ghost use Rattle.flt_model.specs.Start.{fresh};
ghost use Rattle.flt_model.specs.Debounce.{debounced};
ghost use Rattle.flt_did.specs.Table.{dids_of};
ghost use Rattle.flt_did.specs.Serves.{Serves};
ghost use Rattle.flt_dem.specs.DurablePart.{KeepsOthers, KeepsOthersWithoutEntry};
ghost use Rattle.flt_dem.specs.Calls.{StandsAfter, TakeReport, TakesPartOfTicks, TakeTicks, TakesPartOfCycle, TakeCycle};
ghost use Rattle.flt_dem.specs.Calls.{TakesPartOfClear, TakesPartOfAnyClear, TakeClearOfAll};
ghost use Rattle.flt_dem.specs.Events.{counter_at};
ghost use Rattle.flt_dem.specs.Manager.{KeepsOtherCycles};

use crate::conditions::Conditions;
use crate::durable::DurablePart;
use arrayvec::ArrayVec;
use flt_config::{Config, EVENTS, Persist, ValidConfig};
use flt_did::{DID_ROWS, DidTable, Signals};
use flt_model::{DebState, Report};
use std::marker::Model;

/// The durable part, and the debouncing of each of its events.
#[derive(Drop)]
pub struct Events {
    durable: DurablePart,
    debounces: ArrayVec<DebState, EVENTS>,
}

impl Model for Events {
    ghost use Rattle.flt_dem.specs.Events.{EventsView, IsOfConfig};

    ghost Value = { EventsView };

    ghost view = { λ e. record { durable = e.durable; debounces = e.debounces.items } };

    ghost invariant = { λ e. IsOfConfig e.durable.config e.debounces.items };
}

/// The debouncing of each event at rest, as at power-up.
fn at_rest(config: &Config) -> ArrayVec<DebState, EVENTS>
    requires { IsValid config.now }
    ensures { result.items ≡ map (λ event. debounced event.debounce []) config.now.events.items }
{
    let mut debounces = ArrayVec::new();
    for event in config.events.as_slice() {
        debounces.push(flt_debounce::rest(&event.debounce));
    }
    debounces
}

impl Events {
    /// The events of a controller that never saved a state, to which no call was made.
    pub fn new(config: ValidConfig) -> Events
        ensures config { result.durable.config ≡ config }
        ensures stands { StandsAfter (fresh config) [] result }
    {
        let durable = DurablePart::new(config);
        Events {
            debounces: at_rest(durable.config()),
            durable,
        }
    }

    /// Takes over a saved state: what is not saved is at rest.
    pub fn restore(&mut self, base: &Persist)
        requires { Fits self.old.durable.config base.now }
        ensures config { self.new.durable.config ≡ self.old.durable.config }
        ensures stands { StandsAfter (record { config = self.old.durable.config; base = base.now }) [] self.new }
    {
        self.durable.restore(base);
        self.debounces = at_rest(self.durable.config());
    }

    /// The durable part.
    pub fn durable(&self) -> &DurablePart
        ensures { result.now ≡ self.now.durable }
    {
        &self.durable
    }

    /// The fault detection counter of one event.
    pub fn detection_counter(&self, event: u16) -> i8
        requires { event < length self.now.durable.config.events.items }
        ensures { result ≡ counter_at self.now event }
    {
        let rules = self.durable.rules(event);
        flt_debounce::fdc(&rules.debounce, &self.debounces[event as usize])
    }

    /// Takes a report of one event, with the setting on and the event's cycle started, of an event that is enabled.
    pub fn report(
        &mut self,
        dids: &DidTable<DID_ROWS>,
        signals: &Signals,
        event: u16,
        report: Report,
    )
        requires configured { event < length self.old.durable.config.events.items }
        requires served { Serves (dids_of dids.now) self.old.durable.config.events.items }
        ensures config { self.new.durable.config ≡ self.old.durable.config }
        ensures stands { TakeReport event report signals.now.values self.old self.new }
        ensures debouncing { KeepsOthers event self.old.debounces self.new.debounces }
        ensures states { KeepsOthersWithoutEntry event self.old.durable self.new.durable }
    {
        let rules = self.durable.rules(event);
        let qualified = flt_debounce::report(
            &rules.debounce,
            &mut self.debounces[event as usize],
            report,
        );
        self.durable.take(dids, signals, event, qualified);
    }

    /// Lets ticks go by for one event, with the setting on. An event that needs a condition that is not fulfilled is left as it is.
    fn tick_one(
        &mut self,
        dids: &DidTable<DID_ROWS>,
        signals: &Signals,
        conditions: &Conditions,
        event: u16,
        ticks: u16,
    )
        requires configured { event < length self.old.durable.config.events.items }
        requires served { Serves (dids_of dids.now) self.old.durable.config.events.items }
        ensures config { self.new.durable.config ≡ self.old.durable.config }
        ensures part { TakesPartOfTicks ticks signals.now.values conditions.now event self.old self.new }
    {
        let rules = self.durable.rules(event);
        if conditions.meet(rules.needs) {
            let qualified = flt_debounce::tick(
                &rules.debounce,
                &mut self.debounces[event as usize],
                ticks,
            );
            self.durable.take(dids, signals, event, qualified);
        }
    }

    /// Lets ticks go by for each event that is enabled, with the setting on.
    pub fn tick(
        &mut self,
        dids: &DidTable<DID_ROWS>,
        signals: &Signals,
        conditions: &Conditions,
        ticks: u16,
    )
        requires served { Serves (dids_of dids.now) self.old.durable.config.events.items }
        ensures config { self.new.durable.config ≡ self.old.durable.config }
        ensures stands { TakeTicks ticks signals.now.values conditions.now self.old self.new }
    {
        for event in 0..self.durable.count() {
            self.tick_one(dids, signals, conditions, event, ticks);
        }
    }

    /// Ends the operation cycle of one event, where this is its cycle.
    fn end_cycle_one(&mut self, event: u16, cycle: u8)
        requires configured { event < length self.old.durable.config.events.items }
        ensures config { self.new.durable.config ≡ self.old.durable.config }
        ensures part { TakesPartOfCycle cycle event self.old self.new }
        ensures debouncing { KeepsOtherCycles self.old.durable.config cycle self.old.debounces self.new.debounces }
        ensures states { KeepsOtherCycles self.old.durable.config cycle self.old.durable.states self.new.durable.states }
    {
        let rules = self.durable.rules(event);
        if rules.cycle == cycle {
            self.debounces[event as usize] = flt_debounce::rest(&rules.debounce);
            self.durable.end_cycle(event);
        }
    }

    /// Ends an operation cycle for each of its events.
    pub fn end_cycle(&mut self, cycle: u8)
        ensures config { self.new.durable.config ≡ self.old.durable.config }
        ensures stands { TakeCycle cycle self.old self.new }
        ensures debouncing { KeepsOtherCycles self.old.durable.config cycle self.old.debounces self.new.debounces }
        ensures states { KeepsOtherCycles self.old.durable.config cycle self.old.durable.states self.new.durable.states }
    {
        for event in 0..self.durable.count() {
            self.end_cycle_one(event, cycle);
        }
    }

    /// Clears one event but for its entry: its debouncing is at rest, and its state is as one that was never tested.
    fn forget(&mut self, event: u16)
        requires configured { event < length self.old.durable.config.events.items }
        ensures config { self.new.durable.config ≡ self.old.durable.config }
        ensures valid { IsValid self.old.durable.config }
        ensures memory { self.new.durable.memory ≡ self.old.durable.memory }
        ensures part { TakesPartOfAnyClear event self.old self.new }
        ensures debouncing { KeepsOthers event self.old.debounces self.new.debounces }
        ensures states { KeepsOthers event self.old.durable.states self.new.durable.states }
    {
        let rules = self.durable.rules(event);
        self.debounces[event as usize] = flt_debounce::rest(&rules.debounce);
        self.durable.forget(event);
    }

    /// Clears one event, with its entry.
    pub fn clear_one(&mut self, event: u16)
        requires configured { event < length self.old.durable.config.events.items }
        ensures config { self.new.durable.config ≡ self.old.durable.config }
        ensures valid { IsValid self.old.durable.config }
        ensures part { TakesPartOfClear event self.old self.new }
        ensures debouncing { KeepsOthers event self.old.debounces self.new.debounces }
        ensures states { KeepsOthers event self.old.durable.states self.new.durable.states }
    {
        self.forget(event);
        self.durable.remove_entry(event);
    }

    /// Clears each event, and the overflow flag: the entries go first, all at once.
    pub fn clear_all(&mut self)
        ensures config { self.new.durable.config ≡ self.old.durable.config }
        ensures stands { TakeClearOfAll self.old self.new }
    {
        let count = self.durable.count();
        self.durable.remove_entries();
        for event in 0..count {
            self.forget(event);
        }
    }
}
