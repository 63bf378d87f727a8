//! Two lanes of a watch, held by a gate so that the one or the other makes its call first.
use super::holds;
use super::watches::{ONE, watched};
use flt_lane::{Gate, LaneOf, LocksOf};
use flt_watch::{WatchGate, WatchLock, WatchSeat, run_beside};
use std::marker::Sync;
use std::sync::Wait;
use std::sync::atomic::{AtomicU64, Ordering};
use std::test::Fail;
use std::thread::{Threads, yield_now};

/// How often a lane looks for the other.
const TURNS: u32 = 1_000_000;

const SCRIPT: &str = "event 0 dtc 000001\ncycle 0\npar\nlane\nfail 0\nlane\npass 0\nend\n";

const LINES: &str =
    "life 1 generation 0\ncycle 0 -> taken\npar\nlane 1\nfail 0 -> taken\nlane 2\npass 0 -> taken\nend\n";

/// Each order, by the lane that goes first, with the lines of the kinds: those of its own journal.
static ORDERS: [(u32, &str); 2] = [
    (
        1,
        "watch 0 value 2\nwatch 1 value 12078\nwatch 2 value 648415\n",
    ),
    (
        2,
        "watch 0 value 2\nwatch 1 value 47\nwatch 2 value 634927\n",
    ),
];

/// Holds the other lane before its step until the first has made its own.
#[derive(Drop)]
struct Order {
    first: u32,
    made: AtomicU64,
    vain: AtomicU64,
}

impl Gate for Order {
    fn before<R: Wait>(&self, _rt: &R, lane: u32, _step: u32) {
        if lane == 0 || lane == self.first {
            return;
        }
        for _ in 0..TURNS {
            if self.made.load(Ordering::SeqCst) > 0 {
                return;
            }
            yield_now();
        }
        self.vain.fetch_add(1, Ordering::SeqCst);
    }

    fn after<R: Wait>(&self, _rt: &R, lane: u32, _step: u32) {
        if lane == self.first {
            self.made.fetch_add(1, Ordering::SeqCst);
        }
    }
}

impl WatchGate for Order {
    fn run_lanes<R: Threads + Wait + Sync>(
        &self,
        rt: &R,
        locks: &LocksOf<WatchLock>,
        lanes: &mut [LaneOf<'_, WatchSeat>],
    ) {
        run_beside(rt, locks, lanes, self);
    }
}

#[test]
fn each_order_has_the_values_of_its_journal(rt: HostRuntime) -> Result<(), Fail> {
    for (first, values) in &ORDERS {
        let order = Order {
            first: *first,
            made: AtomicU64::new(0),
            vain: AtomicU64::new(0),
        };
        let (outcome, sink) = watched(&rt, &order, SCRIPT, (&[], &[]), rt.alloc())?;
        let told = sink.bytes();
        let is_told = outcome.status == 0
            && told.starts_with(LINES.as_bytes())
            && told.ends_with(values.as_bytes())
            && order.vain.load(Ordering::SeqCst) == 0;
        holds(&rt, is_told, values);
    }
    Ok(())
}

/// Counts how often lane 0 asks before a step and after it, and how often out of turn.
#[derive(Drop)]
struct Counted {
    before: AtomicU64,
    after: AtomicU64,
    astray: AtomicU64,
}

impl Counted {
    /// It was asked around this many steps, each in its turn.
    fn is_asked(&self, times: u64) -> bool {
        self.before.load(Ordering::SeqCst) == times
            && self.after.load(Ordering::SeqCst) == times
            && self.astray.load(Ordering::SeqCst) == 0
    }

    /// Notes a question that is not lane 0's, or not the next one.
    fn note(&self, lane: u32, is_next: bool) {
        if lane != 0 || !is_next {
            self.astray.fetch_add(1, Ordering::SeqCst);
        }
    }
}

impl Gate for Counted {
    fn before<R: Wait>(&self, _rt: &R, lane: u32, step: u32) {
        let asked = self.before.fetch_add(1, Ordering::SeqCst);
        let made = self.after.load(Ordering::SeqCst);
        self.note(lane, asked == u64::from(step) && made == asked);
    }

    fn after<R: Wait>(&self, _rt: &R, lane: u32, step: u32) {
        let made = self.after.fetch_add(1, Ordering::SeqCst);
        let asked = self.before.load(Ordering::SeqCst);
        self.note(lane, made == u64::from(step) && asked > made);
    }
}

impl WatchGate for Counted {
    fn run_lanes<R: Threads + Wait + Sync>(
        &self,
        rt: &R,
        locks: &LocksOf<WatchLock>,
        lanes: &mut [LaneOf<'_, WatchSeat>],
    ) {
        run_beside(rt, locks, lanes, self);
    }
}

#[test]
fn lane_0_asks_around_each_step(rt: HostRuntime) -> Result<(), Fail> {
    let gate = Counted {
        before: AtomicU64::new(0),
        after: AtomicU64::new(0),
        astray: AtomicU64::new(0),
    };
    let (outcome, _sink) = watched(&rt, &gate, ONE, (&[], &[]), rt.alloc())?;
    let is_asked = outcome.status == 0 && gate.is_asked(3);
    holds(&rt, is_asked, "lane 0 around three steps");
    Ok(())
}
