//! What follows from the definitions of an image.
ghost use Rattle.flt_sector_model.specs.Laws.{LogIsWhole, LogEndsWithin, FirstFaultIsTold, NoFaultIsTold, GreaterIsCurrent, NoneIsCurrent, LastRecordCounts, BlankHoldsNothing};

/// The length of the log does not depend on the bound on its items, if that is enough for the used pages; the log ends after
/// the gates and within these pages.
pub fn log_is_whole()
    ensures whole { LogIsWhole }
    ensures within { LogEndsWithin }
{}

/// The reported fault is the first that a mount finds, of all that the image has; no fault is reported exactly if it has none.
pub fn first_fault_is_told()
    ensures told { FirstFaultIsTold }
    ensures none { NoFaultIsTold }
{}

/// If the gates are sound, the current sector is the valid one with the greater number, and there is none exactly if no
/// sector is valid.
pub fn greater_sector_is_current()
    ensures current { GreaterIsCurrent }
    ensures none { NoneIsCurrent }
{}

/// A block holds what its last complete record in the current sector gives it, and nothing if it has none.
pub fn last_record_counts()
    ensures { LastRecordCounts }
{}

/// An image of blank pages has no fault and no block.
pub fn blank_image_holds_nothing()
    ensures { BlankHoldsNothing }
{}
