//! Debouncing by a counter.

ghost use Rattle.std.specs.Prelude.{◌≡◌, ℤ, pos, ◌+ℤ◌, ◌-ℤ◌, ◌<ℤ◌, ◌≤ℤ◌};
ghost use Rattle.std.specs.Int.{int_min, int_max};
ghost use Rattle.flt_config.specs.Validity.{IsDebounceInRange};
ghost use Rattle.flt_model.specs.Debounce.{counted, qualified_at, IsOfKind, lifted, lowered};

use flt_config::Debounce;
use flt_model::{DebState, Qualified, Report};

/// The value to which a jump raises a lower one.
fn lift(jump: Option<i16>, value: i16) -> i16
    ensures value { result ≡ lifted jump value }
    ensures bound { value ≤ℤ result }
{
    match jump {
        Some(jump) => value.max(jump),
        None => value,
    }
}

/// The value to which a jump lowers a higher one.
fn lower(jump: Option<i16>, value: i16) -> i16
    ensures value { result ≡ lowered jump value }
    ensures bound { result ≤ℤ value }
{
    match jump {
        Some(jump) => value.min(jump),
        None => value,
    }
}

/// The value after a step up, at most the limit.
fn raise(value: i16, up: i16, limit: i16) -> i16
    requires { pos 0 <ℤ up }
    ensures value { result ≡ int_min (value +ℤ up) limit }
    ensures most { result ≤ℤ limit }
    ensures least { (low : ℤ) → low ≤ℤ value → low ≤ℤ limit → low ≤ℤ result }
{
    value.saturating_add(up).min(limit)
}

/// The value after a step down, at least the limit.
fn sink(value: i16, down: i16, limit: i16) -> i16
    requires { pos 0 <ℤ down }
    ensures value { result ≡ int_max (value -ℤ down) limit }
    ensures least { limit ≤ℤ result }
    ensures most { (high : ℤ) → value ≤ℤ high → limit ≤ℤ high → result ≤ℤ high }
{
    value.saturating_sub(down).max(limit)
}

/// The counter after a report.
pub fn after(rules: &Debounce, value: i16, report: Report) -> i16
    requires { IsDebounceInRange rules.now }
    ensures value { result ≡ counted rules.now report value }
    ensures kind { IsOfKind rules.now (DebState.Count value) → IsOfKind rules.now (DebState.Count result) }
{
    match *rules {
        Debounce::Counter {
            fail_at,
            pass_at,
            up,
            down,
            jump_up,
            jump_down,
        } => match report {
            Report::Failed => fail_at,
            Report::Passed => pass_at,
            Report::PreFailed => raise(lift(jump_up, value), up, fail_at),
            Report::PrePassed => sink(lower(jump_down, value), down, pass_at),
        },
        Debounce::Time { .. } => value,
    }
}

/// What a report qualifies that leaves the counter at this value.
pub fn qualified(fail_at: i16, pass_at: i16, value: i16) -> Option<Qualified>
    ensures { result ≡ qualified_at fail_at pass_at value }
{
    if value == fail_at {
        Some(Qualified::Failed)
    } else if value == pass_at {
        Some(Qualified::Passed)
    } else {
        None
    }
}
