//! What the lock's rule comes to for the status machine.
ghost use Rattle.flt_turn.specs.Laws.{FreeLockHoldsReplay};
ghost use Rattle.flt_shared.specs.contracts.guarded.GuardedMachine.TheImpl.{ghosts};

use crate::guarded::Guarded;

/// At every moment at which the lock is free, the status machine under it stands for the lock's start and the calls that were accepted.
pub fn free_lock_holds_machine()
    ensures { FreeLockHoldsReplay ghosts }
{
    flt_turn::laws::free_lock_holds_replay::<Guarded>();
}
