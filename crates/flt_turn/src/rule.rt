//! The rule of the lock's table, and the names of its steps: draw, look, serve, split, join and count.
ghost use Rattle.std.specs.Prelude.{ℕ};
ghost use Rattle.flt_turn.specs.Order.{Orderly};
ghost use Rattle.flt_turn.specs.Plays.{draws, looks, serves_next, counts};
ghost use Rattle.flt_turn.specs.Views.{main_view, parent, child, joined_with, spent};

use crate::machine::Machine;
use crate::vault::Vault;
use crate::view::View;
use atomic_table::{Join, Play, Split, TableRule};
use std::marker::{Brand, PhantomData};
use std::snapshot::Snapshot;

/// The machine as it was passed in, and how many calls may be made.
pub struct Terms<M> {
    pub machine: Snapshot<M>,
    pub room: u32,
}

impl<M> Drop for Terms<M> {
    fn drop(self) {
        let Terms {
            machine: _,
            room: _,
        } = self;
    }
}

/// The rule.
pub struct Order<M> {
    machine: PhantomData<M>,
}

impl<M: Machine> TableRule<Option<Vault<M>>, View<M::Start, M::Op>, Terms<M>> for Order<M> {
    ghost holds = { λ terms. Orderly (M.start terms.machine.value) terms.room };

    ghost first = { λ terms. main_view (M.start terms.machine.value) terms.room };
}

/// Takes the next ticket.
pub struct Draw;

impl<M: Machine> Play<Option<Vault<M>>, View<M::Start, M::Op>> for Draw {
    ghost then = { draws };
}

/// Looks which ticket is served, and takes the vault if it is the seat's.
pub struct Look<M> {
    machine: PhantomData<M>,
}

impl<M: Machine> Play<Option<Vault<M>>, View<M::Start, M::Op>> for Look<M> {
    ghost then = { looks };
}

/// Gives the vault back, and serves the next ticket.
pub struct Serve;

impl<M: Machine> Play<Option<Vault<M>>, View<M::Start, M::Op>> for Serve {
    ghost then = { serves_next };
}

/// The number of calls that a new seat gets. Each `cut` chooses it.
pub trait Share {
    ghost calls: { ℕ };
}

impl Share for Brand {
    ghost calls = { 0 };
}

/// Splits a seat from the main seat.
pub struct Cut<J> {
    calls: PhantomData<J>,
}

impl<S, O, J: Share> Split<View<S, O>> for Cut<J> {
    ghost left = { parent J.calls };

    ghost right = { child J.calls };
}

/// Joins a seat into the main seat.
pub struct Merge<M> {
    machine: PhantomData<M>,
}

impl<M: Machine> Join<View<M::Start, M::Op>> for Merge<M> {
    ghost both = { joined_with };

    ghost spent = { spent M.some_start };
}

/// Ends a join: the main seat learns that its counts are within their types.
pub struct Count;

impl<M: Machine> Play<Option<Vault<M>>, View<M::Start, M::Op>> for Count {
    ghost then = { counts };
}
