//! How each mark changes a state, over the status byte as its bits.

ghost use Rattle.std.specs.Prelude.{◌≡◌, ◌+◌, ◌∷◌, min, if◌then◌else◌};
ghost use Rattle.flt_model.specs.Mark.{Past};
ghost use Rattle.flt_model.specs.Mark.Mark.{Failed, Passed, Cycle, Clear, Displaced};
ghost use Rattle.flt_model.specs.Byte.{byte_of, status_of};
ghost use Rattle.flt_model.specs.Status.{enters, confirms, ages};
ghost use Rattle.flt_config.specs.declared.config.EventCfg.{EventCfg};
ghost use Rattle.flt_config.specs.declared.persist.EventState.{EventState};
ghost use Rattle.flt_status.specs.Standing.{IsDecidedBy, with_cycle_end};
ghost use Rattle.flt_status.specs.Step.{after_passed, after_displaced, after_failed, failed_mark, after_cycle, ages_now};

use flt_config::{EventCfg, EventState, UNTESTED};
use flt_model::Status;

/// What a failure changed in addition to the state, for the entries and the noted events.
#[derive(Clone, Copy, PartialEq, Eq, Debug)]
pub struct FailedMark {
    /// Whether bit 0, testFailed, went from 0 to 1.
    pub entered: bool,
    /// Whether bit 3, confirmedDTC, went from 0 to 1.
    pub confirmed: bool,
}

/// The bits of the byte.
fn unpack(byte: u8) -> Status
    ensures { result ≡ status_of byte }
{
    Status {
        test_failed: byte & 0x01 != 0,
        failed_this_cycle: byte & 0x02 != 0,
        pending: byte & 0x04 != 0,
        confirmed: byte & 0x08 != 0,
        not_completed_since_clear: byte & 0x10 != 0,
        failed_since_clear: byte & 0x20 != 0,
        not_completed_this_cycle: byte & 0x40 != 0,
        indicator_requested: byte & 0x80 != 0,
    }
}

/// The byte of these bits.
fn pack(status: Status) -> u8
    ensures { result ≡ byte_of status }
{
    (status.test_failed as u8)
        + 2 * (status.failed_this_cycle as u8)
        + 4 * (status.pending as u8)
        + 8 * (status.confirmed as u8)
        + 16 * (status.not_completed_since_clear as u8)
        + 32 * (status.failed_since_clear as u8)
        + 64 * (status.not_completed_this_cycle as u8)
        + 128 * (status.indicator_requested as u8)
}

/// The test passed: bits 0, 4 and 6 become 0.
pub fn passed(state: &mut EventState)
    ensures step { state.new ≡ after_passed state.old }
    ensures marked { (rules : EventCfg) (base : EventState) (past : Past) → IsDecidedBy rules base past state.old
        → IsDecidedBy rules base (Passed ∷ past) state.new }
{
    let status = unpack(state.status);
    state.status = pack(Status {
        test_failed: false,
        not_completed_since_clear: false,
        not_completed_this_cycle: false,
        ..status
    });
}

/// A tester cleared the event: it becomes one that was never tested.
pub fn clear(state: &mut EventState)
    ensures { (rules : EventCfg) (base : EventState) (past : Past) → IsDecidedBy rules base (Clear ∷ past) state.new }
{
    *state = UNTESTED;
}

/// The event's entry gave way to another's: the event is no longer confirmed, and lights no indicator.
pub fn displaced(state: &mut EventState)
    ensures step { state.new ≡ after_displaced state.old }
    ensures marked { (rules : EventCfg) (base : EventState) (past : Past) → IsDecidedBy rules base past state.old
        → IsDecidedBy rules base (Displaced ∷ past) state.new }
{
    let status = unpack(state.status);
    state.lit = false;
    state.status = pack(Status {
        confirmed: false,
        indicator_requested: false,
        ..status
    });
}

/// The failed count after the end of a cycle.
fn failed_cycles_left(failed: u8, is_clean: bool) -> u8
    ensures { result ≡ (if is_clean then 0 else failed) }
{
    if is_clean { 0 } else { failed }
}

/// The clean count, including this cycle if it was clean.
fn clean_cycles(clean: u16, is_clean: bool) -> u16
    ensures { result ≡ min 510 (if is_clean then clean + 1 else clean) }
{
    if is_clean {
        clean.saturating_add(1).min(510)
    } else {
        clean.min(510)
    }
}

/// The number of clean cycles that age the event.
fn aging_threshold(rules: &EventCfg, lit: bool) -> u16
    ensures { result ≡ (if lit then rules.now.heal + rules.now.age else rules.now.age) }
{
    if lit {
        rules.heal as u16 + rules.age as u16
    } else {
        rules.age as u16
    }
}

/// The test failed. The first failure of a cycle raises the failed count, which stops at 255; at
/// `confirm` failed cycles the event is confirmed, and lights the indicator if it has one. The
/// clean count restarts at 0.
pub fn failed(rules: &EventCfg, state: &mut EventState) -> FailedMark
    ensures step { state.new ≡ after_failed rules.now state.old }
    ensures answer { result ≡ failed_mark rules.now state.old }
    ensures marked { (base : EventState) (past : Past) → IsDecidedBy rules.now base past state.old → IsDecidedBy rules.now base (Failed ∷ past) state.new }
    ensures entered { (base : EventState) (past : Past) → IsDecidedBy rules.now base past state.old → result.entered ≡ enters base past }
    ensures confirmed { (base : EventState) (past : Past) → IsDecidedBy rules.now base past state.old → result.confirmed ≡ confirms base rules.now past }
{
    let before = unpack(state.status);
    let is_first = !before.failed_this_cycle;
    let count = state.failed.saturating_add(is_first as u8);
    let confirmed = before.confirmed | (rules.confirm <= count);
    let lit = rules.indicator & confirmed;
    let status = pack(Status {
        test_failed: true,
        failed_this_cycle: true,
        pending: true,
        confirmed,
        not_completed_since_clear: false,
        failed_since_clear: true,
        not_completed_this_cycle: false,
        indicator_requested: lit & (0 < rules.heal),
    });
    *state = EventState {
        status,
        failed: count,
        clean: 0,
        lit,
    };
    FailedMark {
        entered: !before.test_failed,
        confirmed: !before.confirmed & confirmed,
    }
}

/// The event's operation cycle ended, and the next started. A clean cycle, one that was tested and did
/// not fail, clears bit 2 and the failed count, and raises the clean count, which stops at 510.
/// The answer says whether the event aged: whether the clean count reached `age`, or `heal + age`
/// if the event was lit. Then it is no longer confirmed, and its entry is to be removed.
pub fn cycle(rules: &EventCfg, state: &mut EventState) -> bool
    ensures step { state.new ≡ after_cycle rules.now state.old }
    ensures answer { result ≡ ages_now rules.now state.old }
    ensures marked { (base : EventState) (past : Past) → IsDecidedBy rules.now base past state.old
        → IsDecidedBy rules.now base (with_cycle_end rules.now base past) state.new }
    ensures aged { (base : EventState) (past : Past) → IsDecidedBy rules.now base past state.old → result ≡ ages base rules.now past }
{
    let before = unpack(state.status);
    let clean = !before.failed_this_cycle & !before.not_completed_this_cycle;
    let failed = failed_cycles_left(state.failed, clean);
    let count = clean_cycles(state.clean, clean);
    let aged = (state.clean < count) & (count == aging_threshold(rules, state.lit));
    let lit = state.lit & !aged;
    let status = pack(Status {
        failed_this_cycle: false,
        pending: before.pending & !clean,
        confirmed: before.confirmed & !aged,
        not_completed_this_cycle: true,
        indicator_requested: lit & (count < rules.heal as u16),
        ..before
    });
    *state = EventState {
        status,
        failed,
        clean: count,
        lit,
    };
    aged
}
