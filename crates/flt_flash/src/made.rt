//! The arms that were made on a device in memory.
ghost use Rattle.std.specs.Prelude.{◌≡◌, [], Some};
ghost use Rattle.flt_flash.specs.Arms.{arms_told_with};

use crate::ArmMade;
use arrayvec::ArrayVec;

/// The arms that were made. It reports them all while they are at most 64, and after one more none.
#[derive(Drop)]
pub struct ArmsTold {
    /// The first of them, at most 64, in the order in which they were made.
    pub made: ArrayVec<ArmMade, 64>,
    /// Whether these are all: at most 64 were made.
    pub are_all: bool,
}

impl ArmsTold {
    ghost use Rattle.flt_flash.specs.Made.{arms_told};

    /// None was made.
    pub fn none() -> ArmsTold
        ensures { arms_told result ≡ Some [] }
    {
        ArmsTold {
            made: ArrayVec::new(),
            are_all: true,
        }
    }

    /// Takes an arm that is made.
    pub fn take(&mut self, made: ArmMade)
        ensures { arms_told self.new ≡ arms_told_with (arms_told self.old) made }
    {
        if self.made.is_full() {
            self.are_all = false;
        } else {
            self.made.push(made);
        }
    }
}
