//! Worked words, which the check computes.
ghost use Rattle.flt_examine.specs.Examples.{WordsOfAnInspection};

/// One word is a command of an inspection.
pub fn words_of_an_inspection()
    ensures { WordsOfAnInspection }
{}
