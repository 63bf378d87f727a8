//! A machine that adds, under the lock.
ghost use Rattle.std.specs.Prelude.{◌≡◌, ◌+◌, ◌*◌, ◌%◌, ◌^◌, ◌<◌, ◌≤◌, ◌++◌, ◌∷◌, [], sum};
ghost use Rattle.std.specs.Thread.{IsSync};
ghost use Rattle.flt_turn.specs.Seats.{IsSeatOf};

use super::holds;
use flt_turn::{Answer, Entry, Machine, Seat, Stepper, Turn};
use std::sync::Wait;
use std::test::*;
use std::thread::{Threads, join};

/// It adds each number to the number that it began with, and answers the sum.
#[derive(Drop)]
struct Adder {
    first: u64,
    sum: u64,
}

impl Machine for Adder {
    type Start = u64;

    type Op = u32;

    ghost some_start = { 0 };

    ghost start = { λ adder. adder.first };

    ghost admits = { λ _ op. op ≤ 10000 };

    ghost stands_for = { λ adder first ops. adder.sum ≡ (first + sum ops) % 2 ^ 64 };
}

// The whole sum is returned, and nothing is written.
impl Stepper<()> for Adder {
    type Context = ();

    type Kind = u64;

    type Whole = u64;

    ghost serves = { λ _ _. Unit {0} };

    ghost suits = { λ _. Unit {0} };

    ghost whole = { λ sum _. sum };

    ghost answer = { λ first ops op. (first + sum (ops ++ op ∷ [])) % 2 ^ 64 };

    fn step(&mut self, _context: &(), op: &u32, _out: &mut ()) -> u64 {
        self.sum = self.sum.wrapping_add(u64::from(*op));
        self.sum
    }
}

// The last three digits of the sum are returned, and the rest is written. It adds no number above 5,000.
impl Stepper<u64> for Adder {
    type Context = ();

    type Kind = u64;

    type Whole = u64;

    ghost serves = { λ _ _. Unit {0} };

    ghost suits = { λ op. op ≤ 5000 };

    ghost whole = { λ digits rest. rest + digits };

    ghost answer = { λ first ops op. (first + sum (ops ++ op ∷ [])) % 2 ^ 64 };

    fn step(&mut self, _context: &(), op: &u32, rest: &mut u64) -> u64 {
        self.sum = self.sum.wrapping_add(u64::from(*op));
        let digits = self.sum % 1000;
        *rest = self.sum - digits;
        digits
    }
}

/// Whether a call has this place and this answer.
fn is_at(answer: &Answer<u64>, place: u32, reply: u64) -> bool {
    answer.place == place && answer.reply == reply
}

/// Whether the journal has these entries, by their lanes and what they add.
fn are_entries(journal: &[Entry<u32>], wanted: &[(u32, u32)]) -> bool {
    if journal.len() != wanted.len() {
        return false;
    }
    for (entry, (lane, op)) in journal.iter().zip(wanted) {
        if entry.lane != *lane || entry.op != *op {
            return false;
        }
    }
    true
}

/// The entries of the calls below.
static ENTRIES: [(u32, u32); 3] = [(1, 5), (1, 6), (0, 7)];

/// Calls on a split seat, and then on the main seat.
#[test]
fn places_and_answers(rt: HostRuntime) -> Result<(), Fail> {
    let adder = Adder { first: 0, sum: 0 };
    let Ok((turn, mut main)) = Turn::make(rt.alloc(), adder, 3) else {
        return Err(Fail::from("memory"));
    };
    let mut lane = turn.split(&mut main, 2);
    let is_split = main.left() == 1 && main.children() == 1 && main.waiting() == 1;
    holds(&rt, is_split, "the main seat");
    let is_lane = lane.number() == 1 && lane.left() == 2;
    holds(&rt, is_lane, "the split seat");
    let Ok(first) = turn.call(&rt, &mut lane, &(), 5, &mut ()) else {
        unreachable!()
    };
    let Ok(second) = turn.call(&rt, &mut lane, &(), 6, &mut ()) else {
        unreachable!()
    };
    let are_told = is_at(&first, 0, 5) && is_at(&second, 1, 11);
    holds(&rt, are_told, "the calls of the split seat");
    let Err(full) = turn.call(&rt, &mut lane, &(), 9, &mut ()) else {
        unreachable!()
    };
    turn.join(&mut main, lane);
    let is_joined = full.op == 9 && main.waiting() == 0;
    holds(&rt, is_joined, "a call too many, and the joined seat");
    let Ok(third) = turn.call(&rt, &mut main, &(), 7, &mut ()) else {
        unreachable!()
    };
    holds(&rt, is_at(&third, 2, 18), "the call of the main seat");
    let vault = turn.close(main);
    let is_whole = are_entries(&vault.journal, &ENTRIES) && vault.machine.sum == 18;
    holds(&rt, is_whole, "the journal and the sum");
    Ok(())
}

/// Calls whose answer is in two parts, and one that is refused.
#[test]
fn answers_in_two_parts(rt: HostRuntime) -> Result<(), Fail> {
    let adder = Adder { first: 0, sum: 0 };
    let Ok((turn, mut main)) = Turn::make(rt.alloc(), adder, 2) else {
        return Err(Fail::from("memory"));
    };
    let mut rest = 7;
    let Ok(first) = turn.call(&rt, &mut main, &(), 1_234, &mut rest) else {
        unreachable!()
    };
    let is_told = is_at(&first, 0, 234) && rest == 1_000;
    holds(&rt, is_told, "the first call");
    let Ok(second) = turn.call(&rt, &mut main, &(), 4_999, &mut rest) else {
        unreachable!()
    };
    let is_told = is_at(&second, 1, 233) && rest == 6_000;
    holds(&rt, is_told, "the second call");
    let Err(full) = turn.call(&rt, &mut main, &(), 8, &mut rest) else {
        unreachable!()
    };
    let is_full = full.op == 8 && rest == 6_000;
    holds(&rt, is_full, "a call too many");
    let vault = turn.close(main);
    let is_whole = vault.journal.len() == 2 && vault.machine.sum == 6_233;
    holds(&rt, is_whole, "the journal and the sum");
    Ok(())
}

/// Makes all calls that are left to the seat, with the numbers from that count down to 1.
fn run_lane<R: Wait>(rt: &R, turn: &Turn<Adder>, mut seat: Seat<Adder>) -> Seat<Adder>
    requires lock { IsSeatOf turn.now seat }
    requires small { seat.left ≤ 10000 }
    ensures { IsSeatOf turn.now result }
{
    while seat.left() > 0 {
        let left = seat.left();
        let Ok(_) = turn.call(rt, &mut seat, &(), left, &mut ()) else {
            unreachable!()
        };
    }
    seat
}

/// Runs this many lanes of this many calls, each in a thread of its own.
fn run_lanes<R: Threads + Wait + Sync>(
    rt: &R,
    turn: &Turn<Adder>,
    mut main: Seat<Adder>,
    lanes: u32,
    calls: u32,
) -> Seat<Adder>
    requires lock { IsSeatOf turn.now main }
    requires main { (main.number ≡ 0) × (main.children + lanes < 2 ^ 32) }
    requires calls { (lanes * calls ≤ main.left) × (calls ≤ 10000) }
    ensures { IsSeatOf turn.now result × (result.number ≡ 0) }
{
    if lanes == 0 {
        return main;
    }
    let lane = turn.split(&mut main, calls);
    let others = lanes - 1;
    let (lane, mut main) = join(
        rt,
        move || -> Seat<Adder>
            requires { IsSeatOf turn.now lane × (lane.left ≤ 10000) }
            ensures { IsSeatOf turn.entry.now result }
        { run_lane(rt, turn, lane) },
        move || -> Seat<Adder>
            requires { IsSync R.row × IsSeatOf turn.now main × (main.number ≡ 0) × (main.children + others < 2 ^ 32)
                × (others * calls ≤ main.left) × (calls ≤ 10000) }
            ensures { IsSeatOf turn.entry.now result × (result.number ≡ 0) }
        { run_lanes(rt, turn, main, others, calls) },
    );
    turn.join(&mut main, lane);
    main
}

/// Whether each of eight lanes has its calls in its order, with the numbers from this count down to 1, and no others.
fn are_in_order(journal: &[Entry<u32>], calls: u32) -> bool {
    let mut left = [calls; 8];
    for entry in journal {
        let Some(count) = left.get_mut(entry.lane.wrapping_sub(1) as usize) else {
            return false;
        };
        if entry.op != *count {
            return false;
        }
        *count = count.saturating_sub(1);
    }
    left == [0; 8]
}

/// Eight lanes at once. The journal has the calls of each in its order, however they interleave.
#[test]
fn lanes_share_one_journal(rt: HostRuntime) -> Result<(), Fail> {
    let adder = Adder { first: 0, sum: 0 };
    let Ok((turn, main)) = Turn::make(rt.alloc(), adder, 40_000) else {
        return Err(Fail::from("memory"));
    };
    let main = run_lanes(&rt, &turn, main, 8, 5_000);
    assert!(rt; main.waiting() == 0);
    let vault = turn.close(main);
    let is_whole = vault.journal.len() == 40_000 && vault.machine.sum == 8 * 5_000 * 5_001 / 2;
    holds(&rt, is_whole, "the journal and the sum");
    let are_in_order = are_in_order(&vault.journal, 5_000);
    holds(&rt, are_in_order, "the calls of each lane");
    Ok(())
}
