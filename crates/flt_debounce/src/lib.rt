//! Debouncing of one event's reports, by a counter or by time (AUTOSAR Dem in outline). It depends on the
//! definitions of `flt_model`. The layer above uses `report` and `tick`: if a state is the one that the
//! happenings to its event lead to, it is so after one more happening, and the answer is what that
//! qualifies. They also specify one step from any state (`specs/Step`). Read `specs/Debounce` of `flt_model` first.
#![tactic(auto)]

mod counter;
mod detection;
mod time;

ghost use Rattle.std.specs.Prelude.{◌≡◌, ◌∷◌, []};
ghost use Rattle.flt_config.specs.Validity.{IsDebounceInRange};
ghost use Rattle.flt_model.specs.Debounce.{Happenings, Reported, Ticked, Ended, Cleared, debounced, qualified, IsOfKind};
ghost use Rattle.flt_debounce.specs.Step.{after_report, report_result, after_ticks, ticks_result};

pub use detection::fdc;
pub use flt_config::Debounce;
pub use flt_model::{DebState, Qualified, Report};

/// The state at rest: as at power-up, at the end of the event's cycle and after a clear.
pub fn rest(rules: &Debounce) -> DebState
    requires { IsDebounceInRange rules.now }
    ensures kind { IsOfKind rules.now result }
    ensures started { result ≡ debounced rules.now [] }
    ensures ended { (past : Happenings) → result ≡ debounced rules.now (Ended ∷ past) }
    ensures cleared { (past : Happenings) → result ≡ debounced rules.now (Cleared ∷ past) }
{
    match rules {
        Debounce::Counter { .. } => DebState::Count(0),
        Debounce::Time { .. } => DebState::Idle,
    }
}

/// Takes a monitor's report that is not ignored. The answer is the result that it qualifies, if it
/// qualifies one.
pub fn report(rules: &Debounce, state: &mut DebState, report: Report) -> Option<Qualified>
    requires { IsDebounceInRange rules.now }
    ensures kind { IsOfKind rules.now state.old → IsOfKind rules.now state.new }
    ensures step { state.new ≡ after_report rules.now state.old report }
    ensures answer { result ≡ report_result rules.now state.old report }
    ensures debounced { (past : Happenings) → state.old ≡ debounced rules.now past → state.new ≡ debounced rules.now (Reported report ∷ past) }
    ensures qualified { (past : Happenings) → state.old ≡ debounced rules.now past → result ≡ qualified rules.now past (Reported report) }
{
    match *rules {
        Debounce::Counter {
            fail_at,
            pass_at,
            ..
        } => {
            let before = match *state {
                DebState::Count(value) => value,
                _ => 0,
            };
            let value = counter::after(rules, before, report);
            *state = DebState::Count(value);
            counter::qualified(fail_at, pass_at, value)
        }
        Debounce::Time { .. } => {
            *state = time::after(*state, report);
            time::definite(report)
        }
    }
}

/// Lets some ticks of 10 ms pass, with the setting on. The answer is the result that they qualify, if any:
/// a timer qualifies once, at the tick that brings it to its threshold, and a counter never.
pub fn tick(rules: &Debounce, state: &mut DebState, ticks: u16) -> Option<Qualified>
    requires { IsDebounceInRange rules.now }
    ensures kind { IsOfKind rules.now state.old → IsOfKind rules.now state.new }
    ensures step { state.new ≡ after_ticks rules.now state.old ticks }
    ensures answer { result ≡ ticks_result rules.now state.old ticks }
    ensures debounced { (past : Happenings) → state.old ≡ debounced rules.now past → state.new ≡ debounced rules.now (Ticked ticks ∷ past) }
    ensures qualified { (past : Happenings) → state.old ≡ debounced rules.now past → result ≡ qualified rules.now past (Ticked ticks) }
{
    match *rules {
        Debounce::Counter { .. } => None,
        Debounce::Time { fail, pass } => {
            let before = *state;
            *state = time::later(fail, pass, before, ticks);
            time::reached(fail, pass, before, ticks)
        }
    }
}
