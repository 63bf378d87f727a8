//! Worked examples of the definitions of the drivers, which the checker computes. The values that are expected are written by hand.
ghost use Rattle.flt_driver_tests.specs.UnitExamples.{NextWrites, GatesInBytes, PlacesHold, DamageOfPlaces, MutedUnits};
ghost use Rattle.flt_driver_tests.specs.WordExamples.{EachWord};
ghost use Rattle.flt_driver_tests.specs.CostExamples.{OperationsAtMost, EraseCallsAtMost, SwitchCosts, MountsOfDrivers, ReadsOfBytes, StoresOfBytes, WearIsEven};

/// The place and the sequence number of a block's next write.
pub fn next_writes()
    ensures { NextWrites }
{}

/// The bytes of gates, and bytes that are those of none.
pub fn gates_in_bytes()
    ensures { GatesInBytes }
{}

/// A block is at its newer place, with as many units of bytes as it needs.
pub fn places_hold()
    ensures { PlacesHold }
{}

/// Damage at the second place of a block, and of a gate whose number is 0.
pub fn damage_of_places()
    ensures { DamageOfPlaces }
{}

/// The units that arms mute.
pub fn muted_units()
    ensures { MutedUnits }
{}

/// The bytes of each word, and bytes that are those of none.
pub fn each_word()
    ensures { EachWord }
{}

/// What a limit of operations and one of erases allow.
pub fn limits()
    ensures operations { OperationsAtMost }
    ensures erases { EraseCallsAtMost }
{}

/// The operations of a record with and without a switch of the sectors.
pub fn switch_costs()
    ensures { SwitchCosts }
{}

/// What a mount, and what reads and writes of a block of 96 bytes, cost at most.
pub fn costs_of_bytes()
    ensures mounts { MountsOfDrivers }
    ensures reads { ReadsOfBytes }
    ensures stores { StoresOfBytes }
{}

/// Which wear of two sectors is even.
pub fn wear_is_even()
    ensures { WearIsEven }
{}
