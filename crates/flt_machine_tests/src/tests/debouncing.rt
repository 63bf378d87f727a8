//! Debouncing at the ends of its ranges.
ghost use Rattle.flt_config.specs.Validity.{IsDebounceInRange};
ghost use Rattle.flt_model.specs.Debounce.{IsOfKind};

use super::holds;
use flt_debounce::{DebState, Debounce, Qualified, Report, fdc, report, rest, tick};
use std::process::Abort;

/// Stops the test unless this is so of a step that leads to this counter.
fn holds_of(rt: &impl Abort, is_so: bool, counter: i8) {
    assert!(rt; is_so, "the step to {counter}");
}

/// A report gives this result, and leaves this fault detection counter.
fn reports(
    rt: &impl Abort,
    rules: &Debounce,
    state: &mut DebState,
    made: Report,
    wanted: Option<Qualified>,
    counter: i8,
)
    requires in_range { IsDebounceInRange rules.now }
    requires kind { IsOfKind rules.now state.old }
    ensures { IsOfKind rules.now state.new }
{
    let is_told = report(rules, state, made) == wanted && fdc(rules, state) == counter;
    holds_of(rt, is_told, counter);
}

/// This many ticks give this result, and leave this counter.
fn ticks(
    rt: &impl Abort,
    rules: &Debounce,
    state: &mut DebState,
    count: u16,
    wanted: Option<Qualified>,
    counter: i8,
)
    requires in_range { IsDebounceInRange rules.now }
    requires kind { IsOfKind rules.now state.old }
    ensures { IsOfKind rules.now state.new }
{
    let is_told = tick(rules, state, count) == wanted && fdc(rules, state) == counter;
    holds_of(rt, is_told, counter);
}

#[test]
fn a_counter_of_the_whole_range_clamps_at_both_ends(rt: HostRuntime) {
    let rules = Debounce::Counter {
        fail_at: 32767,
        pass_at: -32768,
        up: 32767,
        down: 32767,
        jump_up: None,
        jump_down: None,
    };
    let mut state = rest(&rules);
    holds_of(&rt, fdc(&rules, &state) == 0, 0);
    reports(&rt, &rules, &mut state, Report::PrePassed, None, -127);
    let passed = Some(Qualified::Passed);
    reports(&rt, &rules, &mut state, Report::PrePassed, passed, -128);
    holds(&rt, state == DebState::Count(-32768), "the lowest count");
    let failed = Some(Qualified::Failed);
    reports(&rt, &rules, &mut state, Report::Failed, failed, 127);
}

#[test]
fn a_timer_of_the_longest_time_qualifies_once(rt: HostRuntime) {
    let rules = Debounce::Time {
        fail: 65535,
        pass: 1,
    };
    let mut state = rest(&rules);
    reports(&rt, &rules, &mut state, Report::PreFailed, None, 0);
    ticks(&rt, &rules, &mut state, 65534, None, 126);
    reports(&rt, &rules, &mut state, Report::PreFailed, None, 126);
    ticks(&rt, &rules, &mut state, 65535, Some(Qualified::Failed), 127);
    ticks(&rt, &rules, &mut state, 1, None, 127);
    reports(&rt, &rules, &mut state, Report::PrePassed, None, 0);
    ticks(&rt, &rules, &mut state, 1, Some(Qualified::Passed), -128);
}
