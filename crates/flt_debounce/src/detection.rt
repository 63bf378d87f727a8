//! The fault detection counter.

ghost use Rattle.std.specs.Prelude.{◌≡◌, ◌<◌, ◌≤◌, pos, neg_ℤ};
ghost use Rattle.flt_config.specs.Validity.{IsDebounceInRange};
ghost use Rattle.flt_model.specs.Debounce.{IsOfKind, detection_counter, scaled};

use flt_config::Debounce;
use flt_model::DebState;

/// A part of a whole on a scale.
fn share(scale: u8, part: u16, whole: u16) -> u8
    requires whole { 0 < whole }
    requires part { part ≤ whole }
    ensures value { result ≡ scaled scale part whole }
    ensures bound { result ≤ scale }
{
    (part as u32 * scale as u32 / whole as u32) as u8
}

/// The fault detection counter, from -128 (the test passed) to 127 (it failed): how far the debouncing
/// is on its way to a threshold, truncated toward zero (ISO 14229-1, service 0x19, sub-function 0x14; the
/// scale of timers is this profile's).
pub fn fdc(rules: &Debounce, state: &DebState) -> i8
    requires in_range { IsDebounceInRange rules.now }
    requires kind { IsOfKind rules.now state.now }
    ensures { result ≡ detection_counter rules.now state.now }
{
    match (*rules, *state) {
        (
            Debounce::Counter {
                fail_at,
                pass_at,
                ..
            },
            DebState::Count(value),
        ) => {
            if 0 < value {
                share(127, value.unsigned_abs(), fail_at.unsigned_abs()) as i8
            } else {
                negative(share(128, value.unsigned_abs(), pass_at.unsigned_abs()))
            }
        }
        (Debounce::Time { fail, .. }, DebState::Failing(ticks)) => share(127, ticks, fail) as i8,
        (Debounce::Time { pass, .. }, DebState::Passing(ticks)) => {
            negative(share(128, ticks, pass))
        }
        (_, DebState::AtFailed) => 127,
        (_, DebState::AtPassed) => -128,
        _ => 0,
    }
}

/// The negative of the number.
fn negative(size: u8) -> i8
    requires { size ≤ 128 }
    ensures { result ≡ neg_ℤ (pos size) }
{
    (-(size as i16)) as i8
}
