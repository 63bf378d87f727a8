//! A number of a configuration with its range.
ghost use Rattle.std.specs.Prelude.{◌≡◌};
ghost use Rattle.flt_config.specs.Ranges.{setting, signed_setting, ranges_result, is_outside as is_outside_range};

use crate::{CfgFault, Field};

/// A number of the configuration, with its range.
#[derive(Clone, Copy)]
pub struct Setting {
    pub event: Option<u16>,
    pub field: Field,
    pub value: i64,
    pub least: i64,
    pub greatest: i64,
}

/// A number that has no sign.
pub fn setting_of(
    event: Option<u16>,
    field: Field,
    value: u32,
    least: u32,
    greatest: u32,
) -> Setting
    ensures { result ≡ setting event field value least greatest }
{
    Setting {
        event,
        field,
        value: value as i64,
        least: least as i64,
        greatest: greatest as i64,
    }
}

/// A number that may be below 0.
pub fn signed_setting_of(
    event: Option<u16>,
    field: Field,
    value: i16,
    least: i16,
    greatest: i16,
) -> Setting
    ensures { result ≡ signed_setting event field value least greatest }
{
    Setting {
        event,
        field,
        value: value as i64,
        least: least as i64,
        greatest: greatest as i64,
    }
}

fn is_outside(checked: &Setting) -> bool
    ensures { result ≡ is_outside_range checked.now }
{
    checked.value < checked.least || checked.greatest < checked.value
}

/// Returns the first number that is out of range.
#[tactic(auto, unfolding(crate::specs::Ranges::ranges_result))]
pub fn check_ranges(checked: &[Setting]) -> Result<(), CfgFault>
    ensures { result ≡ ranges_result checked.now }
{
    for one in checked {
        if is_outside(one) {
            return Err(CfgFault::Range {
                event: one.event,
                field: one.field,
                value: one.value,
            });
        }
    }
    Ok(())
}
