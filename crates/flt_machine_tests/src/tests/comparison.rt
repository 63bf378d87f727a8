//! The entries beside a plain restatement of which event has one, on calls drawn at random.

ghost use Rattle.std.specs.Prelude.{◌<◌, ◌↔◌, IsTrue, length};
ghost use Rattle.flt_dem.specs.Dem.{manager_config};

use super::{holds, holds_at};
use arrayvec::ArrayVec;
use flt_config::{Config, EventCfg, check};
use flt_dem::*;
use flt_did::DidTable;
use flt_model::Report;

/// The priority numbers of the events. Two entries fit.
static PRIORITIES: [u8; 6] = [5, 5, 4, 6, 5, 4];

/// The events with an entry, oldest first, and those whose last test failed.
#[derive(Drop)]
struct Plain {
    held: ArrayVec<u16, 16>,
    failing: ArrayVec<u16, 16>,
}

fn priority_of(event: u16) -> u8 {
    match PRIORITIES.get(event as usize) {
        Some(priority) => *priority,
        None => 0,
    }
}

impl Plain {
    /// The greater number is worse, and of equal numbers the event whose last test did not fail.
    fn badness(&self, event: u16) -> (u8, bool) {
        (priority_of(event), !self.failing.contains(&event))
    }

    fn pass(&mut self, event: u16) {
        self.failing.retain(|other| *other != event);
    }

    fn fail(&mut self, event: u16) {
        if self.failing.contains(&event) {
            return;
        }
        let _full = self.failing.try_push(event);
        if self.held.contains(&event) {
            return;
        }
        if self.held.len() == 2 {
            let worst = if self.badness(self.held[1]) > self.badness(self.held[0]) {
                1
            } else {
                0
            };
            if self.badness(self.held[worst]) <= (priority_of(event), false) {
                return;
            }
            self.held.remove(worst);
        }
        let _full = self.held.try_push(event);
    }
}

fn has_event(dem: &Dem, event: u16) -> bool
    ensures { IsTrue result ↔ (event < length (manager_config dem.now).events.items) }
{
    (event as usize) < dem.config().config().events.len()
}

fn event(number: u16) -> EventCfg {
    EventCfg {
        priority: priority_of(number),
        ..EventCfg::new(number as u32 + 1)
    }
}

fn configured() -> Config {
    let mut events = ArrayVec::new();
    events.push(event(0));
    events.push(event(1));
    events.push(event(2));
    events.push(event(3));
    events.push(event(4));
    events.push(event(5));
    Config {
        id: 0,
        memory: 2,
        pages: 512,
        blocks: 8,
        events,
    }
}

/// A manager of this configuration, where it is valid.
fn manager() -> Option<Dem> {
    let dids = DidTable::new();
    let config = check(configured()).ok()?;
    if dids.serves(&config.config().events) {
        Some(Dem::make(config, dids))
    } else {
        None
    }
}

/// Makes one report of an event, to both. Whether it is taken.
fn reports(dem: &mut Dem, plain: &mut Plain, event: u16, passes: bool) -> bool {
    let report = if passes {
        plain.pass(event);
        Report::Passed
    } else {
        plain.fail(event);
        Report::Failed
    };
    has_event(dem, event) && dem.report(event, report, true).is_none()
}

/// Whether the same events have an entry.
fn are_alike(dem: &Dem, plain: &Plain) -> bool {
    for event in 0..6u16 {
        if dem.entry(event).is_some() != plain.held.contains(&event) {
            return false;
        }
    }
    true
}

#[test]
fn entries_are_those_of_the_plain_rule(rt: HostRuntime) {
    let mut dem = manager().expect(&rt, "the configuration is valid");
    dem.cycle(0);
    let mut plain = Plain {
        held: ArrayVec::new(),
        failing: ArrayVec::new(),
    };
    let mut drawn = 1u32;
    for turn in 0..500u16 {
        drawn = drawn.wrapping_mul(1_664_525).wrapping_add(1_013_904_223);
        let event = ((drawn >> 20) % 6) as u16;
        let are_alike = reports(&mut dem, &mut plain, event, drawn & 0x8_0000 == 0)
            && are_alike(&dem, &plain);
        holds_at(&rt, are_alike, "the entries after report", turn as usize);
    }
    holds(&rt, plain.held.len() == 2, "the entries at the end");
}
