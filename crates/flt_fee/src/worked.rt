//! Worked examples, which the check computes.
ghost use Rattle.flt_fee.specs.Examples.{LastNumber};

/// The number 2^32 - 1 is the last one; with it a record that does not fit after the log is refused, and the lack of room comes first.
pub fn last_number()
    ensures { LastNumber }
{}
