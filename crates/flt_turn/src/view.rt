//! What a seat knows of its lock, as the lock's rule sees it. It exists only in contracts.
use crate::vault::Entry;
use std::collections::LinkedList;

/// How far a seat has come on its way through the lock.
pub enum Stage {
    /// It has no ticket.
    Idle,
    /// It has this ticket, and waits for its turn.
    Waiting(u64),
    /// Its ticket is served, and it has taken the vault out.
    Serving(u64),
    /// It was joined into the main seat.
    Spent,
}

/// S is the start of the machine, and O its operations.
pub struct View<S, O> {
    pub number: u32,
    pub start: S,
    /// The number of calls that the lock has room for.
    pub room: u32,
    pub stage: Stage,
    /// The number of calls that are left.
    pub left: u64,
    /// The number of seats that were split from it.
    pub children: u32,
    /// The prefix of the journal that it knows.
    pub seen: LinkedList<Entry<O>>,
    /// Its own operations.
    pub mine: LinkedList<O>,
    /// Prefixes of the journal that joined seats knew.
    pub olds: LinkedList<LinkedList<Entry<O>>>,
    /// The number and the operations of each joined seat.
    pub ended: LinkedList<(u32, LinkedList<O>)>,
}
