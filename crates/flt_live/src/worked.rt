//! Worked sessions, which the checker computes.
ghost use Rattle.std.specs.Prelude.{Bool};
ghost use Rattle.flt_config.specs.declared.config.Config.{Config};
ghost use Rattle.flt_config.specs.declared.persist.Persist.{Persist};
ghost use Rattle.flt_live.specs.Heard.{Talk};
ghost use Rattle.flt_live.specs.Examples.{EndsAreTold, LinesAreHeard, LivesFollow, OneQuestionIsPlayed, PlacesAreLeftOut, PulledComesFirst, SayNothing, WordsAsk};

/// What two lines come to that make no step, and what is no line.
pub fn lines_are_heard()
    ensures { (c : Config) → SayNothing c → LinesAreHeard c }
{}

/// How two lives follow on each other, and how they are counted.
pub fn lives_follow()
    ensures { (tells : Bool) (c : Config) (start : Talk) → LivesFollow tells c start }
{}

/// The status of each end.
pub fn ends_are_told()
    ensures { EndsAreTold }
{}

/// Which words ask for a session.
pub fn words_ask()
    ensures { WordsAsk }
{}

/// What was pulled comes before what is left.
pub fn pulled_comes_first()
    ensures { PulledComesFirst }
{}

/// An answer without its place in a journal.
pub fn places_are_left_out()
    ensures { PlacesAreLeftOut }
{}

/// When a life of one question is played as one of a run.
pub fn one_question_is_played()
    ensures { (c : Config) (state : Persist) → OneQuestionIsPlayed c state }
{}
