//! Worked examples, which the checker computes.
ghost use Rattle.flt_sector_model.specs.Examples.{EveryItem, GatesInOrder, LogFaults};

/// An image with every kind of item: records that are complete, cut off and invalid, torn heads, and an older sector.
pub fn every_item()
    ensures { EveryItem }
{}

/// If all gates are wrong, the first is reported, and the next one once that is corrected.
pub fn gates_in_order()
    ensures { GatesInOrder }
{}

/// Each fault of a log is reported at its page.
pub fn log_faults()
    ensures { LogFaults }
{}
