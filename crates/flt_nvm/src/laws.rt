//! What the relations of a job come to.
ghost use Rattle.std.specs.Prelude.{ℕ};
ghost use Rattle.flt_flash.specs.Content.{Content};
ghost use Rattle.flt_nvm.specs.Tries.{Mounts, Changing, Looks, TakesThreeCalls};
ghost use Rattle.flt_nvm.specs.declared.got.Got.{Got};

/// A job makes three calls of the driver at most, as far as the driver's count goes.
pub fn jobs_take_three_calls()
    ensures mounts { TakesThreeCalls Mounts }
    ensures changes { (block : ℕ) (asked : Content) (size : ℕ) → TakesThreeCalls (Changing block asked size) }
    ensures looks { (block : ℕ) → TakesThreeCalls (Looks {T = Got} block) }
{}
