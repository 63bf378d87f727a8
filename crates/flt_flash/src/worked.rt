//! Worked operations of a flash in memory, which the check computes, what a torn one leaves, which block failed last, and what a mount costs.
ghost use Rattle.flt_flash.specs.Examples.{ArmsAct, BytesAreTorn, ErasesAreTorn, FailuresAreNamed, MountsCost, ProgramsAreTorn};

/// Which arm acts at a program, an erase or a read, how it fails then, and which arms remain after it.
pub fn arms_act()
    ensures { ArmsAct }
{}

/// What a pattern lets take effect, of a byte, of an erase and of a program.
pub fn patterns_tear()
    ensures bytes { BytesAreTorn }
    ensures erases { ErasesAreTorn }
    ensures programs { ProgramsAreTorn }
{}

/// After which answers the last call that the flash failed is another one.
pub fn failures_are_named()
    ensures { FailuresAreNamed }
{}

/// The operations of a mount of a driver whose room is limited, and of one whose room is not.
pub fn mounts_cost()
    ensures { MountsCost }
{}
