//! The ranges of the numbers; each table of settings is in the order in which it is checked.
ghost use Rattle.std.specs.Prelude.{◌≡◌, ◌≤◌, length};
ghost use Rattle.flt_config.specs.Ranges.{ranges_result, plain_settings, debounce_settings, jump_setting, threshold_settings, counter_settings, jump_settings, did_width_settings, did_settings, frame_width as frame_width_of, event_settings, events_settings, global_settings, settings};

use crate::setting::{Setting, check_ranges, setting_of, signed_setting_of};
use crate::{CfgFault, Config, DIDS, Debounce, DidUse, EVENTS, EventCfg, Field};
use arrayvec::ArrayVec;

#[tactic(auto, unfolding(crate::specs::Ranges::plain_settings))]
fn check_plain(number: u16, event: &EventCfg) -> Result<(), CfgFault>
    ensures { result ≡ ranges_result (plain_settings number event.now) }
{
    let at = Some(number);
    check_ranges(&[
        setting_of(at, Field::Dtc, event.dtc, 1, 0xFF_FFFE),
        setting_of(at, Field::Priority, event.priority as u32, 1, 255),
        setting_of(at, Field::Cycle, event.cycle as u32, 0, 3),
        setting_of(at, Field::Confirm, event.confirm as u32, 1, 255),
        setting_of(at, Field::Heal, event.heal as u32, 1, 255),
        setting_of(at, Field::Age, event.age as u32, 1, 255),
    ])
}

fn jump_setting_of(number: u16, field: Field, jump: i16, pass_at: i16, fail_at: i16) -> Setting
    ensures { result ≡ jump_setting number field pass_at fail_at jump }
{
    Setting {
        event: Some(number),
        field,
        value: jump as i64,
        least: pass_at as i64 + 1,
        greatest: fail_at as i64 - 1,
    }
}

#[tactic(auto, using(crate::proofs::RangesLemmas::first_faults), unfolding(crate::specs::Ranges::jump_settings))]
fn check_jump(
    number: u16,
    field: Field,
    jump: Option<i16>,
    pass_at: i16,
    fail_at: i16,
) -> Result<(), CfgFault>
    ensures { result ≡ ranges_result (jump_settings number field pass_at fail_at jump) }
{
    match jump {
        None => Ok(()),
        Some(jump) => check_ranges(&[jump_setting_of(number, field, jump, pass_at, fail_at)]),
    }
}

#[tactic(auto, unfolding(crate::specs::Ranges::threshold_settings))]
fn check_thresholds(
    number: u16,
    fail_at: i16,
    pass_at: i16,
    up: i16,
    down: i16,
) -> Result<(), CfgFault>
    ensures { result ≡ ranges_result (threshold_settings number fail_at pass_at up down) }
{
    let at = Some(number);
    check_ranges(&[
        signed_setting_of(at, Field::FailAt, fail_at, 1, 32767),
        signed_setting_of(at, Field::PassAt, pass_at, -32768, -1),
        signed_setting_of(at, Field::Up, up, 1, 32767),
        signed_setting_of(at, Field::Down, down, 1, 32767),
    ])
}

#[tactic(auto, using(crate::proofs::RangesLemmas::signed_faults), unfolding(crate::specs::Ranges::counter_settings))]
fn check_counter(
    number: u16,
    fail_at: i16,
    pass_at: i16,
    up: i16,
    down: i16,
    jump_up: Option<i16>,
    jump_down: Option<i16>,
) -> Result<(), CfgFault>
    ensures { result ≡ ranges_result (counter_settings number fail_at pass_at up down jump_up jump_down) }
{
    check_thresholds(number, fail_at, pass_at, up, down)?;
    check_jump(number, Field::JumpUp, jump_up, pass_at, fail_at)?;
    check_jump(number, Field::JumpDown, jump_down, pass_at, fail_at)
}

#[tactic(auto, unfolding(crate::specs::Ranges::debounce_settings))]
fn check_debounce(number: u16, debounce: &Debounce) -> Result<(), CfgFault>
    ensures { result ≡ ranges_result (debounce_settings number debounce.now) }
{
    match *debounce {
        Debounce::Counter {
            fail_at,
            pass_at,
            up,
            down,
            jump_up,
            jump_down,
        } => { check_counter(number, fail_at, pass_at, up, down, jump_up, jump_down) }
        Debounce::Time { fail, pass } => check_ranges(&[
            setting_of(Some(number), Field::FailTicks, fail as u32, 1, 65535),
            setting_of(Some(number), Field::PassTicks, pass as u32, 1, 65535),
        ]),
    }
}

#[tactic(auto, using(crate::proofs::RangesLemmas::first_faults), unfolding(crate::specs::Ranges::did_width_settings, crate::specs::Ranges::ranges_result))]
fn check_did_widths(number: u16, dids: &[DidUse]) -> Result<(), CfgFault>
    ensures { result ≡ ranges_result (did_width_settings number dids.now) }
{
    for did in dids {
        check_ranges(&[setting_of(Some(number), Field::DidWidth, did.width as u32, 1, 8)])?;
    }
    Ok(())
}

#[tactic(auto, using(crate::proofs::RangesLemmas::first_faults), unfolding(crate::specs::Ranges::did_settings))]
fn check_dids(number: u16, dids: &ArrayVec<DidUse, DIDS>) -> Result<(), CfgFault>
    ensures { result ≡ ranges_result (did_settings number dids.now.items) }
{
    check_did_widths(number, dids)?;
    check_ranges(&[setting_of(Some(number), Field::DidSum, frame_width(dids), 0, 32)])
}

fn frame_width(dids: &ArrayVec<DidUse, DIDS>) -> u32
    ensures { result ≡ frame_width_of dids.now.items }
{
    dids.iter().map(|did| did.width as u32).sum()
}

#[tactic(auto, using(crate::proofs::RangesLemmas::first_faults), unfolding(crate::specs::Ranges::event_settings))]
fn check_event(number: u16, event: &EventCfg) -> Result<(), CfgFault>
    ensures { result ≡ ranges_result (event_settings number event.now) }
{
    check_plain(number, event)?;
    check_debounce(number, &event.debounce)?;
    check_dids(number, &event.dids)
}

fn check_events(events: &[EventCfg]) -> Result<(), CfgFault>
    requires { length events.now ≤ EVENTS }
    ensures { result ≡ ranges_result (events_settings 0 events.now) }
{
    for (number, event) in events.iter().enumerate() {
        check_event(number as u16, event)?;
    }
    Ok(())
}

/// Returns the first number of the configuration that is out of range.
#[tactic(auto, using(crate::proofs::RangesLemmas::first_faults))]
pub fn check_all_ranges(config: &Config) -> Result<(), CfgFault>
    ensures { result ≡ ranges_result (settings config.now) }
{
    check_globals(config)?;
    check_events(&config.events)
}

#[tactic(auto, unfolding(crate::specs::Ranges::global_settings))]
fn check_globals(config: &Config) -> Result<(), CfgFault>
    ensures { result ≡ ranges_result (global_settings config.now) }
{
    check_ranges(&[
        setting_of(None, Field::Memory, config.memory as u32, 1, 16),
        setting_of(None, Field::Pages, config.pages as u32, 64, 1024),
        setting_of(None, Field::Blocks, config.blocks as u32, 0, 40),
    ])
}
