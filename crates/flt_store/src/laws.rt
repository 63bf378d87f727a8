//! What the words of a store's clauses come to.
ghost use Rattle.std.specs.Prelude.{◌+◌, ◌<◌, ℕ, IsTrue, IsFalse};
ghost use Rattle.flt_flash.specs.State.{last_count};
ghost use Rattle.flt_store.specs.Cause.{IsStuck};
ghost use Rattle.flt_store.specs.Store.{driver_of, IsUnhindered};

use crate::Store;
use flt_flash::Blocks;

/// A call is unhindered where the count of faults rose by less than three and is not at its end, and a sequence number is left
/// after it.
pub fn few_faults_hinder_none<B: Blocks + Drop>(before: &Store<B>, after: &Store<B>)
    requires few { (driver_of after.now).device.faults < (driver_of before.now).device.faults + 3 }
    requires counted { (driver_of after.now).device.faults < last_count }
    requires numbers { IsFalse (driver_of after.now).is_spent }
    ensures { IsUnhindered before.now after.now }
{}

/// Where only records of more than 96 bytes can't be written any more, no save answers that.
pub fn long_records_stop_no_save<B: Blocks + Drop>(store: &Store<B>)
    requires { (number size : ℕ) → IsTrue ((driver_of store.now).is_stuck number size) → 96 < size }
    ensures { IsStuck (driver_of store.now) → ⊥ }
{}
