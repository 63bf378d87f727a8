//! Worked examples, which the checker computes.

ghost use Rattle.flt_model.specs.StatusExamples.{OneEventLife, UntestedCycle, UntestedCycleKeepsPending, HealAndAge, CleanCountBeginsAnew, ReportsAreIgnored, DisabledReportsAreIgnored, EachNeededConditionCounts, NextLife, FailuresStopAtMost, CleanCyclesStopAtMost, UnlitEventAges, DisplacementKeepsCleanCount, CycleEndsWithSettingOff, UnconfirmedEntryAges, ConfirmedAnew};
ghost use Rattle.flt_model.specs.DebounceExamples.{CounterWithJump, CounterJumpsDown, CountersOnTheirWay, TimerQualifiesOnce, TimerAtItsThreshold, TimerIsPassedAtOnce, RestStopsTimers, TimerTurnsBack, SettingOffStopsTimers, SilentTicksDoNotCount, DisabledTimerStandsStill, RepeatedFailureQualifies, EndsOfTheCounterList, TimerStaysAtItsThreshold};
ghost use Rattle.flt_model.specs.MemoryExamples.{PassiveGivesWay, GreaterNumberGivesWay, OldestGivesWay, NotedEvents, ClearOfAnotherEvent, TimersComeDueInOrder, Snapshots, FrameOfIdentifiers, SavedMemoryGoesOn, Drive, DriveGoesOn, NumberComesFirst, UpdateKeepsThePlace, ConfirmedOnce, NotedAsSaved, CountOfManyDtcs};
ghost use Rattle.flt_model.specs.RequestExamples.{ClearRequests, SettingOffUntilSilence, TwoTestersHold, RepeatedSessionKeepsTheHold, OthersDoNotBreakSilence, RefusedRequestIsHeard, LastTestersHold, NegativeCodes, MaskedLists, ListsInOrder, SilenceEndsSessionAndHold, MaskOfSeveralBits, SupportedDtcs, EachBitOfAMask};

/// An event fails, passes and heals.
pub fn one_event_life()
    ensures { OneEventLife }
{}

/// A cycle without a test does not reset the failed count.
pub fn untested_cycle()
    ensures { UntestedCycle }
{}

/// A cycle without a test keeps pendingDTC, and a clean one clears it.
pub fn untested_cycle_keeps_pending()
    ensures { UntestedCycleKeepsPending }
{}

/// The indicator goes off by healing, and the entry by aging.
pub fn heal_and_age()
    ensures { HealAndAge }
{}

/// A failure restarts the clean count, so aging counts from the last one.
pub fn clean_count_begins_anew()
    ensures { CleanCountBeginsAnew }
{}

/// A report is ignored for the setting first, and then for its cycle.
pub fn reports_are_ignored()
    ensures { ReportsAreIgnored }
{}

/// A report is ignored for its cycle first, and then for a condition that its event needs.
pub fn disabled_reports_are_ignored()
    ensures { DisabledReportsAreIgnored }
{}

/// Only the conditions whose bits are set are needed, and each of them; at power-up all are fulfilled.
pub fn each_needed_condition_counts()
    ensures { EachNeededConditionCounts }
{}

/// What is saved is kept in the next life, and what is volatile is not.
pub fn next_life()
    ensures { NextLife }
{}

/// The failed count and the occurrences stop at 255.
pub fn failures_stop_at_most()
    ensures { FailuresStopAtMost }
{}

/// The clean count is reported up to 255, and ages and stops at 510.
pub fn clean_cycles_stop_at_most()
    ensures { CleanCyclesStopAtMost }
{}

/// An event whose indicator is not lit ages at its own threshold, even if it has an indicator.
pub fn unlit_event_ages()
    ensures { UnlitEventAges }
{}

/// A displacement keeps the clean count, and all bits except confirmedDTC and warningIndicatorRequested.
pub fn displacement_keeps_clean_count()
    ensures { DisplacementKeepsCleanCount }
{}

/// An operation cycle ends and a clear is carried out even while the DTC setting is off.
pub fn cycle_ends_with_setting_off()
    ensures { CycleEndsWithSettingOff }
{}

/// An entry ages out even if its event is not confirmed.
pub fn unconfirmed_entry_ages()
    ensures { UnconfirmedEntryAges }
{}

/// A displaced event whose failed count is above its threshold is confirmed again by a failure, but gets no entry, since its
/// testFailed did not change.
pub fn confirmed_anew()
    ensures { ConfirmedAnew }
{}

/// A counter jumps up, clamps at its threshold and steps down.
pub fn counter_with_jump()
    ensures { CounterWithJump }
{}

/// A counter jumps down before it steps down, but only from above.
pub fn counter_jumps_down()
    ensures { CounterJumpsDown }
{}

/// The fault detection counters that are listed are those from 1 to 126.
pub fn counters_on_their_way()
    ensures { CountersOnTheirWay }
{}

/// A timer qualifies once, and a repeated report does not restart it.
pub fn timer_qualifies_once()
    ensures { TimerQualifiesOnce }
{}

/// A timer at its threshold, or beyond, does not qualify again.
pub fn timer_at_its_threshold()
    ensures { TimerAtItsThreshold }
{}

/// A report that needs no debouncing qualifies at once, by time too.
pub fn timer_is_passed_at_once()
    ensures { TimerIsPassedAtOnce }
{}

/// The end of a cycle and a clear put a timer at rest.
pub fn rest_stops_timers()
    ensures { RestStopsTimers }
{}

/// A report in the other direction restarts a timer.
pub fn timer_turns_back()
    ensures { TimerTurnsBack }
{}

/// A timer does not run while the setting is off.
pub fn setting_off_stops_timers()
    ensures { SettingOffStopsTimers }
{}

/// Ticks that end the session which holds the setting off do not count for a timer.
pub fn silent_ticks_do_not_count()
    ensures { SilentTicksDoNotCount }
{}

/// A timer does not run while a condition that its event needs is not fulfilled, and then continues from the same state.
pub fn disabled_timer_stands_still()
    ensures { DisabledTimerStandsStill }
{}

/// A report that leaves a counter or a timer at its threshold qualifies each time: an event that was displaced is confirmed
/// again, but gets no entry, since its testFailed did not change.
pub fn repeated_failure_qualifies()
    ensures { RepeatedFailureQualifies }
{}

/// The fault detection counters that are listed go from 1 to 126.
pub fn ends_of_the_counter_list()
    ensures { EndsOfTheCounterList }
{}

/// A timer that a definite report brought to its threshold stays there under tending reports of that direction.
pub fn timer_stays_at_its_threshold()
    ensures { TimerStaysAtItsThreshold }
{}

/// A full memory keeps active entries and removes a passive one.
pub fn passive_gives_way()
    ensures { PassiveGivesWay }
{}

/// An active entry of a greater priority number gives way, and one of a smaller number does not.
pub fn greater_number_gives_way()
    ensures { GreaterNumberGivesWay }
{}

/// Of two passive entries of the same priority the older one gives way.
pub fn oldest_gives_way()
    ensures { OldestGivesWay }
{}

/// The first and the most recent events, and what a clear of one of them removes.
pub fn noted_events()
    ensures { NotedEvents }
{}

/// A clear of one event keeps the most recent other one.
pub fn clear_of_another_event()
    ensures { ClearOfAnotherEvent }
{}

/// Of two timers that are due at the same tick the one of the smaller event number gets the last entry.
pub fn timers_come_due_in_order()
    ensures { TimersComeDueInOrder }
{}

/// The frames and extended data of an entry.
pub fn snapshots()
    ensures { Snapshots }
{}

/// The values of the data identifiers in a frame.
pub fn frame_of_identifiers()
    ensures { FrameOfIdentifiers }
{}

/// Frames, occurrences, noted events and the overflow flag are kept in the next life.
pub fn saved_memory_goes_on()
    ensures { SavedMemoryGoesOn }
{}

/// A full memory of sixteen entries, and forty events.
pub fn drive()
    ensures { Drive }
{}

/// Its second and third lives: the confirmed events stay, and a clear of all removes them.
pub fn drive_goes_on()
    ensures { DriveGoesOn }
{}

/// A passive entry of a smaller priority number stays, and the number comes before passiveness.
pub fn number_comes_first()
    ensures { NumberComesFirst }
{}

/// An entry that is updated keeps its position: it is still the oldest. The snapshot records of unconfirmed DTCs are listed
/// too.
pub fn update_keeps_the_place()
    ensures { UpdateKeepsThePlace }
{}

/// A further failure of a confirmed event is no confirmation; each active signal is its own bit of data identifier 0105; a
/// DTC is compared in all its bytes.
pub fn confirmed_once()
    ensures { ConfirmedOnce }
{}

/// A DTC that was saved as noted is reported with its current status, whatever that says.
pub fn noted_as_saved()
    ensures { NotedAsSaved }
{}

/// The number of selected DTCs has two bytes, the high one first.
pub fn count_of_many_dtcs()
    ensures { CountOfManyDtcs }
{}

/// A clear of an unknown DTC, one of wrong length, and one of all.
pub fn clear_requests()
    ensures { ClearRequests }
{}

/// The extended session switches the setting off, and ends by silence.
pub fn setting_off_until_silence()
    ensures { SettingOffUntilSilence }
{}

/// The setting is off while one of two testers holds it.
pub fn two_testers_hold()
    ensures { TwoTestersHold }
{}

/// A request for the extended session inside it keeps the hold, and one for the default session releases it.
pub fn repeated_session_keeps_the_hold()
    ensures { RepeatedSessionKeepsTheHold }
{}

/// Another tester's requests do not end a tester's silence.
pub fn others_do_not_break_silence()
    ensures { OthersDoNotBreakSilence }
{}

/// A request that is refused restarts the silent time.
pub fn refused_request_is_heard()
    ensures { RefusedRequestIsHeard }
{}

/// The third and the fourth tester hold the setting off too, and a repeated session keeps the hold.
pub fn last_testers_hold()
    ensures { LastTestersHold }
{}

/// Requests that are refused, each with the first code whose condition holds.
pub fn negative_codes()
    ensures { NegativeCodes }
{}

/// The DTCs whose status has a bit in common with a mask.
pub fn masked_lists()
    ensures { MaskedLists }
{}

/// Lists are in the order of the events, and a clear of one DTC does not change the other.
pub fn lists_in_order()
    ensures { ListsInOrder }
{}

/// Silence of 5000 ms ends the extended session, and for good what the tester held in it; a request whose response is
/// suppressed ends the silence.
pub fn silence_ends_session_and_hold()
    ensures { SilenceEndsSessionAndHold }
{}

/// A mask of several bits selects the DTCs whose status has one of them; a snapshot record without data identifiers has its
/// number and the count 0.
pub fn mask_of_several_bits()
    ensures { MaskOfSeveralBits }
{}

/// All DTCs are supported, even one whose status is 0; no mask selects that one.
pub fn supported_dtcs()
    ensures { SupportedDtcs }
{}

/// Each bit of a mask selects on its own: of two DTCs one has bits 4 and 6, and the other has the rest.
pub fn each_bit_of_a_mask()
    ensures { EachBitOfAMask }
{}
