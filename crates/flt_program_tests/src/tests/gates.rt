//! Lanes that are held by a gate: two that are at work at once, and one that reports while the store writes.
use super::holds;
use super::reports::run_held;
use flt_config::ValidConfig;
use flt_flash::{Arm, Bench, Blocks, Flash, FlashFailed, FlashMem};
use flt_run::*;
use flt_store::Store;
use std::marker::Sync;
use std::sync::Wait;
use std::sync::atomic::{AtomicU64, Ordering};
use std::test::Fail;
use std::thread::{Threads, yield_now};

/// How often a lane looks for the other.
const TURNS: u32 = 1_000_000;

/// How often a gate was asked before and after the steps of a lane, and how often out of turn: a lane's steps are counted from 0, and
/// each is asked for before it is made and then after it.
#[derive(Drop)]
struct Asked {
    before: AtomicU64,
    after: AtomicU64,
    astray: AtomicU64,
}

impl Asked {
    fn new() -> Asked {
        Asked {
            before: AtomicU64::new(0),
            after: AtomicU64::new(0),
            astray: AtomicU64::new(0),
        }
    }

    fn ask_before(&self, step: u32) {
        let count = self.before.fetch_add(1, Ordering::SeqCst);
        if count != u64::from(step) || self.after.load(Ordering::SeqCst) != count {
            self.astray.fetch_add(1, Ordering::SeqCst);
        }
    }

    fn ask_after(&self, step: u32) {
        let count = self.after.fetch_add(1, Ordering::SeqCst);
        if count != u64::from(step)
            || self.before.load(Ordering::SeqCst) != count.saturating_add(1)
        {
            self.astray.fetch_add(1, Ordering::SeqCst);
        }
    }

    /// It was asked around this many steps, each in its turn.
    fn is_asked(&self, times: u64) -> bool {
        self.before.load(Ordering::SeqCst) == times
            && self.after.load(Ordering::SeqCst) == times
            && self.astray.load(Ordering::SeqCst) == 0
    }
}

/// Holds each of the lanes 1 and 2 before its step until the other has come to its own, and counts the lanes that waited in vain. Lane 3
/// has the store.
#[derive(Drop)]
struct Meeting {
    own: Asked,
    first: Asked,
    second: Asked,
    store: Asked,
    alone: AtomicU64,
}

impl Meeting {
    /// Whether no lane waited in vain, and each was asked around its steps.
    fn has_met(&self) -> bool {
        self.alone.load(Ordering::SeqCst) == 0
            && self.own.is_asked(3)
            && self.store.is_asked(2)
            && self.first.is_asked(1)
            && self.second.is_asked(1)
    }
}

impl Gate for Meeting {
    fn before<R: Wait>(&self, _rt: &R, lane: u32, step: u32) {
        let (mine, other) = match lane {
            1 => (&self.first, &self.second),
            2 => (&self.second, &self.first),
            3 => {
                self.store.ask_before(step);
                return;
            }
            _ => {
                self.own.ask_before(step);
                return;
            }
        };
        mine.ask_before(step);
        for _ in 0..TURNS {
            if other.before.load(Ordering::SeqCst) > 0 {
                return;
            }
            yield_now();
        }
        self.alone.fetch_add(1, Ordering::SeqCst);
    }

    fn after<R: Wait>(&self, _rt: &R, lane: u32, step: u32) {
        let asked = match lane {
            1 => &self.first,
            2 => &self.second,
            3 => &self.store,
            _ => &self.own,
        };
        asked.ask_after(step);
    }
}

impl SharedGate for Meeting {
    fn run_lanes<R: Threads + Wait + Sync, B: Blocks + Drop>(
        &self,
        rt: &R,
        locks: &Locks,
        store: &mut Store<B>,
        config: &ValidConfig,
        lanes: &mut [LaneWork<'_>],
    ) {
        run_block(rt, locks, store, config, lanes, self);
    }
}

#[test]
fn lanes_overlap(rt: HostRuntime) -> Result<(), Fail> {
    let meeting = Meeting {
        own: Asked::new(),
        first: Asked::new(),
        second: Asked::new(),
        store: Asked::new(),
        alone: AtomicU64::new(0),
    };
    let script =
        "cycle 1\nask 0\npar\nlane\ncycle 0\nlane\ncycle 0\nlane\nsave\nget 0\nend\nsave\n";
    let report =
        "life 1 generation 0\ncycle 1 -> taken\nask 0 -> none\npar\nlane 1\ncycle 0 -> taken\nlane 2\ncycle 0 -> taken\n\
         lane 3\nsave -> 1\nget 0 -> missing\nend\nsave -> 2\n";
    let flash = FlashMem::blank(rt.alloc(), 1024, 256)?;
    let failing: (&[u32], &[u32]) = (&[], &[]);
    let (status, sink, _) = run_held(
        &rt,
        &meeting,
        flash,
        &["run"],
        script.as_bytes(),
        failing,
        rt.alloc(),
    )?;
    let is_told = status == 0 && sink.bytes() == report.as_bytes();
    holds(&rt, is_told, "the status and the report");
    holds(&rt, meeting.has_met(), "how often each lane was asked");
    Ok(())
}

/// The monitor's lane, which reports while the lane of the store is held in a program.
const MONITOR: u32 = 1;

/// What a gate and a flash let each other know: that a program waits, that the monitor's report was answered, and how often one of them
/// waited in vain.
#[derive(Drop)]
struct Report {
    programs: AtomicU64,
    answered: AtomicU64,
    vain: AtomicU64,
}

impl Report {
    /// Whether a program waited once, the report was answered once, and neither waited in vain.
    fn has_met(&self) -> bool {
        self.programs.load(Ordering::SeqCst) == 1
            && self.answered.load(Ordering::SeqCst) == 1
            && self.vain.load(Ordering::SeqCst) == 0
    }
}

/// Waits until the other has come, or counts that it did not.
fn wait_for(flag: &AtomicU64, vain: &AtomicU64) {
    for _ in 0..TURNS {
        if flag.load(Ordering::SeqCst) > 0 {
            return;
        }
        yield_now();
    }
    vain.fetch_add(1, Ordering::SeqCst);
}

/// Holds the monitor's lane before its step until a program waits, and says that its step was answered.
impl Gate for Report {
    fn before<R: Wait>(&self, _rt: &R, lane: u32, _step: u32) {
        if lane == MONITOR {
            wait_for(&self.programs, &self.vain);
        }
    }

    fn after<R: Wait>(&self, _rt: &R, lane: u32, _step: u32) {
        if lane == MONITOR {
            self.answered.fetch_add(1, Ordering::SeqCst);
        }
    }
}

impl SharedGate for Report {
    fn run_lanes<R: Threads + Wait + Sync, B: Blocks + Drop>(
        &self,
        rt: &R,
        locks: &Locks,
        store: &mut Store<B>,
        config: &ValidConfig,
        lanes: &mut [LaneWork<'_>],
    ) {
        run_block(rt, locks, store, config, lanes, self);
    }
}

/// A flash whose first program after an arm was made waits for the monitor's answer.
#[derive(Drop)]
struct HeldFlash<'a> {
    flash: FlashMem,
    is_held: bool,
    report: &'a Report,
}

impl Flash for HeldFlash<'_> {
    ghost use Rattle.flt_flash.specs.Memory.{flash_state};
    ghost use Rattle.flt_flash.specs.Shape.{shape_of};

    ghost state = { λ held. flash_state held.flash };

    ghost shape = { λ held. shape_of held.flash };

    fn pages(&self) -> u16 {
        self.flash.pages()
    }

    fn read_page(&mut self, sector: u8, page: u16, out: &mut [u8; 32]) -> Result<(), FlashFailed> {
        self.flash.read_page(sector, page, out)
    }

    fn program(&mut self, sector: u8, page: u16, bytes: &[u8; 32]) -> Result<(), FlashFailed> {
        if self.is_held {
            self.is_held = false;
            self.report.programs.fetch_add(1, Ordering::SeqCst);
            wait_for(&self.report.answered, &self.report.vain);
        }
        self.flash.program(sector, page, bytes)
    }

    fn erase(&mut self, sector: u8) -> Result<(), FlashFailed> {
        self.flash.erase(sector)
    }

    fn operations(&self) -> u64 {
        self.flash.operations()
    }

    fn wear(&self, sector: u8) -> u64 {
        self.flash.wear(sector)
    }
}

impl Bench for HeldFlash<'_> {
    fn boots_left(&self) -> u16 {
        self.flash.boots_left()
    }

    fn armed(&self) -> u8 {
        self.flash.armed()
    }

    fn arm(&mut self, arm: Arm) {
        self.is_held = true;
        self.flash.arm(arm);
    }

    fn power_up(&mut self) {
        self.flash.power_up();
    }
}

#[test]
fn reports_are_answered_while_the_store_writes(rt: HostRuntime) -> Result<(), Fail> {
    let report = Report {
        programs: AtomicU64::new(0),
        answered: AtomicU64::new(0),
        vain: AtomicU64::new(0),
    };
    let script =
        "event 0 dtc 000001\ncycle 0\nfault 65535 none\npar\nlane\nfail 0\nlane\nsave\nend\nshow 0\npower\nshow 0\n";
    let told =
        "life 1 generation 0\ncycle 0 -> taken\nfault 65535 none -> armed\npar\nlane 1\nfail 0 -> taken\nlane 2\n\
         save -> 1\nend\nshow 0 -> status 2F fdc 127 failed 1 clean 0 stored 1 overflow 0\nlife 2 generation 1\n\
         show 0 -> status 50 fdc 0 failed 0 clean 0 stored 0 overflow 0\n";
    let flash = HeldFlash {
        flash: FlashMem::blank(rt.alloc(), 1024, 256)?,
        is_held: false,
        report: &report,
    };
    let failing: (&[u32], &[u32]) = (&[], &[]);
    let (status, sink, _) = run_held(
        &rt,
        &report,
        flash,
        &["run"],
        script.as_bytes(),
        failing,
        rt.alloc(),
    )?;
    let is_told = status == 0 && sink.bytes() == told.as_bytes();
    holds(&rt, is_told, "the status and the report");
    holds(&rt, report.has_met(), "the program and the answer");
    Ok(())
}
