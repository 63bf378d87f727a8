//! What follows from the rule of a lock.
ghost use Rattle.flt_turn.specs.Laws.{FreeLockHoldsReplay};

use crate::machine::Machine;

/// At every moment at which a lock is free, the machine under it is the replay of the calls accepted so far, in their order.
pub fn free_lock_holds_replay<M: Machine>()
    ensures { FreeLockHoldsReplay M.Machine }
{}
