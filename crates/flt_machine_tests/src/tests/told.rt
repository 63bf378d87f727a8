//! Worked calls, and the values to which their changes lead.
ghost use Rattle.std.specs.Prelude.{◌≡◌, ◌<◌, length};
ghost use Rattle.std.proofs.Props.{props};
ghost use Rattle.flt_did.specs.Serves.{Serves};
ghost use Rattle.flt_did.specs.Table.{dids_of};
ghost use Rattle.flt_dcm.specs.Unit.{IsAdmitted};
ghost use Rattle.flt_notify.specs.Watched.{watched_unit};

use super::holds;
use arrayvec::ArrayVec;
use flt_config::{Config, EVENTS, EventCfg, check};
use flt_dcm::Op;
use flt_did::DidTable;
use flt_model::{REQUEST, RESPONSE, Report};
use flt_notify::{KINDS, Lent, SubTable, Watched, note_0, note_1, note_2};
use flt_shared::BoxedUnit;
use flt_turn::Stepper;
use std::alloc::Global;
use std::process::Abort;
use std::test::*;

/// A step of a worked example.
#[derive(Clone, Copy)]
enum Call<'a> {
    Cycle(u8),
    Fail(u16),
    Pass(u16),
    Ask(&'a [u8]),
}

/// A watched machine, what is lent to its steps, and room for a response.
#[derive(Drop)]
struct Watcher {
    watched: Watched,
    lent: Lent,
    response: ArrayVec<u8, RESPONSE>,
    events: u16,
    ghost served: { Serves (dids_of lent.dids) (watched_unit watched).dem.durable.config.events.items } by { Prim.hlevel props },
    ghost counted: { length (watched_unit watched).dem.durable.config.events.items ≡ events },
}

/// Two events.
fn configured() -> Config {
    let mut events: ArrayVec<EventCfg, EVENTS> = ArrayVec::new();
    events.push(EventCfg::new(1));
    events.push(EventCfg::new(2));
    Config {
        id: 0,
        memory: 16,
        pages: 512,
        blocks: 8,
        events,
    }
}

impl Watcher {
    fn call(&mut self, op: Op)
        requires { IsAdmitted (watched_unit self.old.watched).dem.durable.config op }
    {
        self.watched.step(&self.lent, &op, &mut self.response);
    }

    fn report(&mut self, event: u16, report: Report) {
        if event < self.events {
            self.call(Op::Report { event, report });
        }
    }

    fn ask(&mut self, request: &[u8]) {
        let mut bytes: ArrayVec<u8, REQUEST> = ArrayVec::new();
        let fits = bytes.try_extend_from_slice(request).is_ok();
        if fits && 0 < bytes.len() {
            self.call(Op::Request { tester: 0, bytes });
        }
    }

    fn take(&mut self, call: Call) {
        match call {
            Call::Cycle(cycle) => {
                if cycle < 4 {
                    self.call(Op::Cycle { cycle });
                }
            }
            Call::Fail(event) => self.report(event, Report::Failed),
            Call::Pass(event) => self.report(event, Report::Passed),
            Call::Ask(request) => self.ask(request),
        }
    }
}

/// The values of the three kinds after these calls.
fn values_after(alloc: Global, calls: &[Call]) -> Option<[Option<u64>; 3]> {
    let config = check(configured()).ok()?;
    let events = config.config().events.len() as u16;
    let dids = DidTable::new();
    if !dids.serves(&config.config().events) {
        return None;
    }
    let unit = BoxedUnit::make(alloc, &config, dids).ok()?;
    let mut subs: SubTable<KINDS> = SubTable::new();
    subs.add(0, note_0).ok()?;
    subs.add(1, note_1).ok()?;
    subs.add(2, note_2).ok()?;
    let (watched, lent) = Watched::make(alloc, unit, subs).ok()?;
    let mut watcher = Watcher {
        watched,
        lent,
        response: ArrayVec::new(),
        events,
    };
    for call in calls {
        watcher.take(*call);
    }
    let Watcher { watched, lent, .. } = watcher;
    let (_, subs) = watched.into_parts(lent);
    Some([subs.value(0), subs.value(1), subs.value(2)])
}

/// An event fails and passes; two fail, and a tester clears all.
#[test]
fn tells_each_change_once(rt: HostRuntime) {
    static FAIL_AND_PASS: [Call<'static>; 3] = [Call::Cycle(0), Call::Fail(0), Call::Pass(0)];
    static CLEAR_OF_TWO: [Call<'static>; 4] = [
        Call::Cycle(0),
        Call::Fail(0),
        Call::Fail(1),
        Call::Ask(&[0x14, 0xFF, 0xFF, 0xFF]),
    ];
    let told = values_after(rt.alloc(), &FAIL_AND_PASS);
    let wanted = Some([Some(2), Some(12_078), Some(648_415)]);
    holds(&rt, told == wanted, "a failure and a pass");
    let told = values_after(rt.alloc(), &CLEAR_OF_TWO);
    let wanted = Some([Some(4), Some(77_648), Some(694_679_520)]);
    holds(&rt, told == wanted, "two failures and a clear");
}
