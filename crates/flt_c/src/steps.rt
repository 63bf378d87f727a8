//! The step of a call that has numbers alone.
use flt_model::Report;
use flt_step::Step;

/// The number, if it is below 256.
pub(crate) fn small(number: u32) -> Option<u8> {
    u8::try_from(number).ok()
}

/// The report of this number.
fn report_of(number: u32) -> Option<Report> {
    match number {
        0 => Some(Report::Passed),
        1 => Some(Report::Failed),
        2 => Some(Report::PrePassed),
        3 => Some(Report::PreFailed),
        _ => None,
    }
}

/// The step that a call without bytes makes: its kind, and two numbers.
pub(crate) fn step_of(kind: u32, first: u32, second: u32) -> Option<Step> {
    match kind {
        0 => Some(Step::Report {
            event: u16::try_from(first).ok()?,
            report: report_of(second)?,
        }),
        1 => Some(Step::Tick {
            ticks: u16::try_from(first).ok().filter(|ticks| *ticks != 0)?,
        }),
        2 => Some(Step::Cycle {
            cycle: small(first)?,
        }),
        3 => Some(Step::Signal {
            index: small(first)?,
            value: u16::try_from(second).ok()?,
        }),
        4 => Some(Step::Enable {
            condition: small(first)?,
            fulfilled: match second {
                0 => false,
                1 => true,
                _ => return None,
            },
        }),
        5 => Some(Step::Show {
            event: u16::try_from(first).ok()?,
        }),
        6 => Some(Step::Save),
        7 => Some(Step::Drain),
        8 => Some(Step::Get {
            block: small(first)?,
        }),
        9 => Some(Step::Ask {
            block: small(first)?,
        }),
        _ => None,
    }
}
