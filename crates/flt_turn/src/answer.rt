//! What the lock's calls answer.
use std::alloc::AllocError;

/// The answer to a call.
#[derive(Drop)]
pub struct Answer<R> {
    /// The place of the call in the journal, from 0.
    pub place: u32,
    /// The machine's reply there.
    pub reply: R,
}

/// The seat had no call left. Nothing was changed, and the operation is given back.
#[derive(Drop)]
pub struct HistoryFull<O> {
    pub op: O,
}

/// There was not enough memory for the lock. The machine is given back as it was.
#[derive(Drop)]
pub struct MachineBack<M> {
    pub machine: M,
}

/// Drops the machine.
impl<M: Drop> From<MachineBack<M>> for AllocError {
    fn from(_back: MachineBack<M>) -> AllocError {
        AllocError
    }
}
