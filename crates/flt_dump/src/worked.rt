//! Worked dumps and listings, which the check computes.
ghost use Rattle.flt_dump.specs.Examples.{ListsEachItem, TellsWrongLines};

/// The lines of an image with every kind of item, of one without a valid sector, and of one whose pages have a fault.
pub fn each_item_is_listed()
    ensures { ListsEachItem }
{}

/// The first line of pages that is wrong, missing or too many is reported.
pub fn wrong_lines_are_told()
    ensures { TellsWrongLines }
{}
