//! What the definitions come to.
ghost use Rattle.flt_script.specs.Laws.{EachHasOneOutcome, PrintedStepIsReadAgain, EachArmCanBeMade, FirstCauseIsTold, LineZeroIsLarge, AcceptedLinesAreCounted, WrittenSettingsAreRead, OddEventsAreRefused, LoadOfFour};

/// Any bytes are one script or have one fault, and never both.
pub fn each_has_one_outcome()
    ensures { EachHasOneOutcome }
{}

/// What a step prints is read again as that step, under the same configuration.
pub fn printed_step_is_read_again()
    ensures { PrintedStepIsReadAgain }
{}

/// What a step of a script arms is what a bench can be armed with.
pub fn each_arm_can_be_made()
    ensures { EachArmCanBeMade }
{}

/// The cause that is reported for a line is the first of the table of causes that holds of it, each said by itself.
pub fn first_cause_is_told()
    ensures { FirstCauseIsTold }
{}

/// Line 0 is reported for a script that is too large, and for no other fault.
pub fn line_zero_is_large()
    ensures { LineZeroIsLarge }
{}

/// What is kept of lines that were not refused, for the refusal of the next one, is how many there are of each kind, which
/// are there, whether a block is under way, how many lanes it has, and whether one of them, and one before the last, has a
/// `save`, `drain` or `get`.
pub fn accepted_lines_are_counted()
    ensures { AcceptedLinesAreCounted }
{}

/// Configuration lines other than those of events are read again as their words say.
pub fn written_settings_are_read()
    ensures { WrittenSettingsAreRead }
{}

/// An event line is not of its form where a pair occurs twice, where `dtc` is missing, and where `time` occurs beside
/// `count`, `jumpup` or `jumpdown`.
pub fn odd_events_are_refused()
    ensures { OddEventsAreRefused }
{}

/// The numbers and the steps of a load of four reports.
pub fn load_of_four()
    ensures { LoadOfFour }
{}
