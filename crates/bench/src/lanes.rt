//! Lanes of calls over one lock, each in a thread of its own.
ghost use Rattle.std.specs.Prelude.{◌≡◌, ◌*◌, ◌^◌, ◌<◌, All, IfOk};
ghost use Rattle.flt_turn.specs.Seats.{IsSeatOf};

use crate::counter::Counter;
use flt_turn::{Seat, Turn};
use std::alloc::{AllocError, Global};
use std::sync::{Mutex, Wait};
use std::thread::{Threads, map_indices, map_vec};

/// Makes all calls that are left to the seat. The last reply.
fn call_turn<R: Wait>(rt: &R, turn: &Turn<Counter>, mut seat: Seat<Counter>) -> u64
    requires { IsSeatOf turn.now seat }
{
    let mut last = 0;
    while seat.left() > 0 {
        let left = seat.left();
        let Ok(answer) = turn.call(rt, &mut seat, &(), left, &mut ()) else {
            unreachable!()
        };
        last = answer.reply;
    }
    last
}

/// This many seats, which share the main seat's calls.
fn seats(
    alloc: Global,
    turn: &Turn<Counter>,
    main: &mut Seat<Counter>,
    lanes: u32,
) -> Result<Vec<Seat<Counter>>, AllocError>
    requires lock { IsSeatOf turn.now main.old }
    requires main { (main.old.number ≡ 0) × (main.old.children ≡ 0) }
    ensures { IfOk result (λ seats. All (λ seat. IsSeatOf turn.now seat) seats.items) }
{
    let mut seats = Vec::new(alloc);
    for lane in 0..lanes {
        let calls = main.left() / (lanes - lane);
        seats.push(turn.split(main, calls))?;
    }
    Ok(seats)
}

/// Runs this many lanes of that number of calls on the ticket lock. The greatest reply, which is the number of all calls.
pub fn run_turn<R: Threads + Wait + Sync>(
    rt: &R,
    alloc: Global,
    lanes: u32,
    calls: u32,
) -> Result<u64, AllocError>
    requires { lanes * calls < 2 ^ 32 }
{
    let Ok((turn, mut main)) = Turn::make(alloc, Counter::new(), lanes * calls) else {
        return Err(AllocError);
    };
    let seats = seats(alloc, &turn, &mut main, lanes)?;
    let lock = &turn;
    let replies = map_vec(
        rt,
        seats,
        &|seat: Seat<Counter>| -> u64
            requires { IsSeatOf lock.now seat }
        { call_turn(rt, lock, seat) },
    )?;
    Ok(replies.iter().copied().max().unwrap_or(0))
}

/// Makes this many calls on the mutex. The last reply.
fn call_mutex<R: Wait>(rt: &R, lock: &Mutex<Counter>, calls: u32) -> u64 {
    let mut last = 0;
    for _ in 0..calls {
        last = lock.lock(rt).add();
    }
    last
}

/// The same on a plain mutex over the same machine, which keeps no journal.
pub fn run_mutex<R: Threads + Wait + Sync>(
    rt: &R,
    alloc: Global,
    lanes: u32,
    calls: u32,
) -> Result<u64, AllocError> {
    let mutex = Mutex::new(Counter::new());
    let lock = &mutex;
    let replies = map_indices(
        rt,
        alloc,
        lanes as usize,
        &|_: usize| { call_mutex(rt, lock, calls) },
    )?;
    Ok(replies.iter().copied().max().unwrap_or(0))
}
