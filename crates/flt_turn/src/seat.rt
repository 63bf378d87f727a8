//! The right to call a lock.
ghost use Rattle.std.specs.Prelude.{◌≡◌, ◌+◌, length};

use crate::machine::Machine;
use crate::vault::Vault;
use crate::view::View;
use std::marker::Model;

/// Makes the calls of one lane, as many as it has left. Contracts see it as what it knows of its lock.
///
/// A seat may move to any thread. If it is dropped instead of joined, its calls are lost, and its lock can no longer be closed.
#[derive(Drop)]
pub struct Seat<M: Machine> {
    pub(crate) number: u32,
    pub(crate) left: u32,
    pub(crate) children: u32,
    pub(crate) waiting: u32,
    pub(crate) token: atomic_table::Seat<Option<Vault<M>>, View<M::Start, M::Op>>,
}

impl<M: Machine> Model for Seat<M> {
    ghost use Rattle.flt_turn.specs.Seats.{Seated, seated, FitsView};

    ghost Value = { Seated M.Start M.Op };

    ghost view = { λ s. seated s.token.table_id s.token.me.0 };

    ghost invariant = { λ s. FitsView s.token.me.0 s.token.me.1 s.number s.left s.children s.waiting };
}

impl<M: Machine> Seat<M> {
    /// 0 for the main seat. The others are counted from 1, in the order in which they were split from it.
    pub fn number(&self) -> u32
        ensures { result ≡ self.now.number }
    {
        self.number
    }

    /// The number of calls that it may still make.
    pub fn left(&self) -> u32
        ensures { result ≡ self.now.left }
    {
        self.left
    }

    /// The number of seats that were split from it.
    pub fn children(&self) -> u32
        ensures { result ≡ self.now.children }
    {
        self.children
    }

    /// The number of these that were not joined yet. The lock can be closed if it is 0.
    pub fn waiting(&self) -> u32
        ensures { result + length self.now.ended ≡ self.now.children }
    {
        self.waiting
    }
}
