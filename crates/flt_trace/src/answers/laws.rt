//! What a life's calls and answers are.
ghost use Rattle.flt_trace.specs.Laws.{CallsCanBeMade, ToldAnswersAreDue};

/// The answers of a life, each at its place, are the machine's to the calls of its journal.
pub fn told_answers_are_due()
    ensures { ToldAnswersAreDue }
{}

/// Each call of a life is one that a step or a save may make.
pub fn calls_can_be_made()
    ensures { CallsCanBeMade }
{}
