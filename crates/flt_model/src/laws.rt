//! What holds after every list of calls.

ghost use Rattle.flt_model.specs.StatusLaws.{ByteTellsBits, LitIsConfirmed, IndicatorIsLit, TestFailedIsLastResult, PendingIsUnrefutedFailure};
ghost use Rattle.flt_model.specs.DebounceLaws.{DebouncingStaysInRange, DetectionCounterTellsThresholds, TicksQualifyOnce};
ghost use Rattle.flt_model.specs.CodeLaws.{CodesComeInOrder, SilentWhereAsked};
ghost use Rattle.flt_model.specs.CallLaws.{ClearOfAllLeavesFirstState, ReportIsAboutItsEvent, ClearIsAboutItsEvent, OthersAreLeftAlone, DisplacementLeavesOtherBits};
ghost use Rattle.flt_model.specs.SessionLaws.{RequestLeavesOtherTesters, ExtendedWhereAsked, HeldWhereAsked, DefaultHoldsNothing};
ghost use Rattle.flt_model.specs.EnableLaws.{CausesComeInOrder, DisabledEventsAreLeft, DisabledEventsGoOnWhereTheyStood, DisabledEventsAreEndedAndCleared, EventsWithoutNeedsAreEnabled, EventsAreEnabledAtFirst, ConditionsThatNobodyNeeds};
ghost use Rattle.flt_model.specs.NoteLaws.{NotedIsNotCleared, FirstIsNotCleared, RecentIsOfLastFailure, RecentIsOfBase, FirstIsHolder};
ghost use Rattle.flt_model.specs.Laws.{HoldersHaveEntries, RanksAreCompared, WorstIsUnique, EntriesStandAsAdded, FittingBaseHasRoom, EntriesKeepRoom, SavedStatesFit};

/// The bits of a status byte are read as they were put there.
pub fn byte_tells_bits()
    ensures { ByteTellsBits }
{}

/// An event that is lit is confirmed.
pub fn lit_is_confirmed()
    ensures { LitIsConfirmed }
{}

/// The warning indicator is requested exactly while the event is lit and has not healed.
pub fn indicator_is_lit()
    ensures { IndicatorIsLit }
{}

/// testFailed says that the last test since the last clear failed.
pub fn test_failed_is_last_result()
    ensures { TestFailedIsLastResult }
{}

/// pendingDTC says that a test failed, and that no cycle with only passed tests ended since.
pub fn pending_is_unrefuted_failure()
    ensures { PendingIsUnrefutedFailure }
{}

/// A counter stays between its thresholds, and a timer below its own.
pub fn debouncing_stays_in_range()
    ensures { DebouncingStaysInRange }
{}

/// The fault detection counter is from -128 to 127, and at these ends exactly at the thresholds.
pub fn detection_counter_tells_thresholds()
    ensures { DetectionCounterTellsThresholds }
{}

/// Between two results that a timer's ticks qualify there is a rest, or a report in the other direction.
pub fn ticks_qualify_once()
    ensures { TicksQualifyOnce }
{}

/// A request does not change the session, the silent time or the hold of any other tester.
pub fn request_leaves_other_testers()
    ensures { RequestLeavesOtherTesters }
{}

/// A tester is in the extended session if and only if its last accepted session request was 10 03 and it was not silent for
/// 500 ticks since. It holds the DTC setting off if and only if it sent an accepted 85 02 in the extended session, and since then
/// never left that session and sent no accepted 85 01. In the default session it holds nothing.
pub fn sessions_are_asked_for()
    ensures extended { ExtendedWhereAsked }
    ensures held { HeldWhereAsked }
    ensures default { DefaultHoldsNothing }
{}

/// A report is ignored for the first of these reasons that holds, and otherwise counts: the setting is off, the cycle of its event
/// was not started, an enable condition that the event needs is not fulfilled.
pub fn causes_come_in_order()
    ensures { CausesComeInOrder }
{}

/// While an event is disabled, reports and ticks have no effect on it; once it is enabled again, its debouncing continues from
/// the same state. Cycles end for it, and clears reach it, as if it were enabled.
pub fn disabled_events_stand_still()
    ensures left { DisabledEventsAreLeft }
    ensures goes_on { DisabledEventsGoOnWhereTheyStood }
    ensures ends { DisabledEventsAreEndedAndCleared }
{}

/// An event that needs no condition is enabled, and so is every event as long as there is no call on a condition. If no event
/// needs a condition, every answer and the resulting state are as if no call on a condition had been made.
pub fn conditions_matter_where_needed()
    ensures needs { EventsWithoutNeedsAreEnabled }
    ensures first { EventsAreEnabledAtFirst }
    ensures nobody { ConditionsThatNobodyNeeds }
{}

/// A noted event was not cleared after its note.
pub fn noted_is_not_cleared()
    ensures recent { NotedIsNotCleared }
    ensures first { FirstIsNotCleared }
{}

/// The most recent failed event is that of the last failure that changed a test result, or absent if that event was
/// cleared since; the most recent confirmed one is that of the last failure that confirmed, with the same exception.
pub fn recent_is_of_last_failure()
    ensures failure { RecentIsOfLastFailure }
    ensures base { RecentIsOfBase }
{}

/// The first failed event is the one whose failure found no noted event, for as long as it is not cleared; the same holds for
/// the first confirmed one.
pub fn first_is_holder()
    ensures { FirstIsHolder }
{}

/// An event has an entry if and only if it was added, and not removed since.
pub fn holders_have_entries()
    ensures { HoldersHaveEntries }
{}

/// A rank is worse than another if and only if its number is greater, or equal and it alone is passive. An entry gives way to an
/// event if and only if the event's number is smaller, or equal and the entry is passive.
pub fn ranks_are_compared()
    ensures { RanksAreCompared }
{}

/// No other event is worse than the worst.
pub fn worst_is_unique()
    ensures { WorstIsUnique }
{}

/// The entries are in the order in which they were last added; those of power-up come first, in their order there.
pub fn entries_stand_as_added()
    ensures { EntriesStandAsAdded }
{}

/// The entries belong to distinct events, and are at most as many as the memory has room for.
pub fn entries_keep_room()
    ensures base { FittingBaseHasRoom }
    ensures calls { EntriesKeepRoom }
{}

/// What is saved fits the configuration again: each saved state can be the one that a later life starts from.
pub fn saved_states_fit()
    ensures { SavedStatesFit }
{}

/// A request is refused with a code if and only if the code's condition holds and no earlier one does.
pub fn codes_come_in_order()
    ensures { CodesComeInOrder }
{}

/// A positive response is suppressed if and only if bit 7 of the sub-function is set; that to a clear is never suppressed.
pub fn silent_where_asked()
    ensures { SilentWhereAsked }
{}

/// A clear of all leaves the state of a controller that never saved one.
pub fn clear_of_all_leaves_first_state()
    ensures { ClearOfAllLeavesFirstState }
{}

/// A call about one event does not change the marks of any other event, except one that is
/// displaced, whose confirmedDTC and warningIndicatorRequested are cleared.
pub fn others_are_left_alone()
    ensures report { ReportIsAboutItsEvent }
    ensures clear { ClearIsAboutItsEvent }
    ensures alone { OthersAreLeftAlone }
    ensures displaced { DisplacementLeavesOtherBits }
{}
