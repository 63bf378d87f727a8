//! Worked examples of the check, which the prover computes.
ghost use Rattle.flt_config.specs.RangeExamples.{EndsAreAccepted, BelowIsTold, AboveIsTold, OthersAreTold};

/// Configurations at both ends of each range are accepted.
pub fn ends_are_accepted()
    ensures { EndsAreAccepted }
{}

/// A number of an event below its range is reported, for each field that can be.
pub fn below_is_told()
    ensures { BelowIsTold }
{}

/// A number of an event above its range is reported, for each field.
pub fn above_is_told()
    ensures { AboveIsTold }
{}

/// So are numbers that belong to no event, the first of several, DTCs that occur twice, and lack of room.
pub fn others_are_told()
    ensures { OthersAreTold }
{}
