//! What holds of every unit.
ghost use Rattle.flt_dcm.specs.Laws.{StandingUnitSaysStandard};

/// After any calls, testFailed, testFailedThisOperationCycle, pendingDTC, testNotCompletedSinceLastClear,
/// testFailedSinceLastClear and testNotCompletedThisOperationCycle say what the standard says of them.
pub fn standing_unit_says_standard()
    ensures { StandingUnitSaysStandard }
{}
