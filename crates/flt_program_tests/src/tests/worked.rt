//! Worked values of the kinds of subscribers, worked verdicts, and worked words, which the checker computes.
ghost use Rattle.flt_program_tests.specs.KindExamples.{KindsAtTheirEnds};
ghost use Rattle.flt_program_tests.specs.VerdictExamples.{HeldIsTold, LinesOfADump, RefusalsOfAnInspection, ReportsOfALoad, StepsOfAWatch};

/// The values of the kinds after one more change, at their ends.
pub fn kinds_at_their_ends()
    ensures { KindsAtTheirEnds }
{}

/// What is reported about bytes that are no dump, of an input that was not read, and of words that are no command.
pub fn refusals_of_an_inspection()
    ensures { RefusalsOfAnInspection }
{}

/// Lines of a dump are counted over the whole input.
pub fn lines_of_a_dump()
    ensures { LinesOfADump }
{}

/// The generation that is held is reported before the lines of the image.
pub fn held_is_told()
    ensures { HeldIsTold }
{}

/// How many reports a load may have, and what other words ask for.
pub fn reports_of_a_load()
    ensures { ReportsOfALoad }
{}

/// Which steps a watch makes.
pub fn steps_of_a_watch()
    ensures { StepsOfAWatch }
{}
