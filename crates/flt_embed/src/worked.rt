//! Worked operations, which the checker carries out.
ghost use Rattle.flt_embed.specs.Examples.{OperationsAreCarriedOut};

/// What operations leave of an image of two pages a sector.
pub fn operations_are_carried_out()
    ensures { OperationsAreCarriedOut }
{}
