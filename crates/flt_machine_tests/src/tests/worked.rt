//! Worked examples of the definitions of the status machine, which the checker computes. The values that are expected are not made by these
//! definitions: an independent program gives them.
ghost use Rattle.flt_machine_tests.specs.StatusExamples.{ConfirmsOncePerCycle, AgesAtExactlyItsThreshold, EachCycleStarts};
ghost use Rattle.flt_machine_tests.specs.ConditionExamples.{EachConditionCounts, DisabledEventIsEndedAndCleared, CallsOnADisabledEvent};
ghost use Rattle.flt_machine_tests.specs.DebounceExamples.{TendingFailureQualifiesAgain, TicksLeaveCounters};
ghost use Rattle.flt_machine_tests.specs.SettingExamples.{OtherRequestsKeepTheHold, EachFormOfASetting};
ghost use Rattle.flt_machine_tests.specs.FitExamples.{EntriesFit, StatesFit};
ghost use Rattle.flt_machine_tests.specs.ListExamples.{ListsOfManyDtcs, ValuesOfIdentifiers};

/// Failures of one cycle count once for the confirmation too.
pub fn confirms_once_per_cycle()
    ensures { ConfirmsOncePerCycle }
{}

/// An event whose clean count was saved beyond its threshold does not age: only where the count comes to exactly the threshold.
pub fn ages_at_exactly_its_threshold()
    ensures { AgesAtExactlyItsThreshold }
{}

/// Each of the four operation cycles is started by a call on it, and no other.
pub fn each_cycle_starts()
    ensures { EachCycleStarts }
{}

/// Each of the eight conditions counts, and for the events alone that need it.
pub fn each_condition_counts()
    ensures { EachConditionCounts }
{}

/// Operation cycles and clears reach a disabled event.
pub fn disabled_event_is_ended_and_cleared()
    ensures { DisabledEventIsEndedAndCleared }
{}

/// Reports, shows, ticks and cycles of others do not add to what happened to a disabled event; its own cycle does.
pub fn calls_on_a_disabled_event()
    ensures { CallsOnADisabledEvent }
{}

/// A tending report that leaves a counter at its threshold qualifies again.
pub fn tending_failure_qualifies_again()
    ensures { TendingFailureQualifiesAgain }
{}

/// Ticks do not change a counter.
pub fn ticks_leave_counters()
    ensures { TicksLeaveCounters }
{}

/// Other requests of the tester keep its hold, a clear of all among them.
pub fn other_requests_keep_the_hold()
    ensures { OtherRequestsKeepTheHold }
{}

/// A setting takes effect with its option bytes, and where its response is suppressed.
pub fn each_form_of_a_setting()
    ensures { EachFormOfASetting }
{}

/// All of more than 64 DTCs are listed as supported, and with their counters.
pub fn lists_of_many_dtcs()
    ensures { ListsOfManyDtcs }
{}

/// Each active signal is its own bit of data identifier 0105, and each of the others has its signals.
pub fn values_of_identifiers()
    ensures { ValuesOfIdentifiers }
{}

/// States of an event that fit a configuration, and others.
pub fn states_fit_or_not()
    ensures { StatesFit }
{}

/// Entries that fit, and others.
pub fn entries_fit_or_not()
    ensures { EntriesFit }
{}
