//! A worked life, which the checker computes.
ghost use Rattle.flt_life_model.specs.Examples.{BlockHolds, FailuresHaveFaults, LifeLeaves, PlacesRise, StepsDo};

/// What a life with an acknowledged save and a failed one leaves: one of the two generations, and no older one.
pub fn life_leaves()
    ensures { LifeLeaves }
{}

/// How many faults there are of a save and a job that failed.
pub fn failures_have_faults()
    ensures { FailuresHaveFaults }
{}

/// Which places rise.
pub fn places_rise()
    ensures { PlacesRise }
{}

/// What a block holds after two jobs, of which the second did not finish as written.
pub fn block_holds()
    ensures { BlockHolds }
{}

/// What `urge` and `post` do, and what a dark life answers.
pub fn steps_do()
    ensures { StepsDo }
{}
