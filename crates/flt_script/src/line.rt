ghost use Rattle.std.specs.Prelude.{◌≡◌, None, IfOk, IfSome, IsFalse, IsTrue, option_map};
ghost use Rattle.flt_script.specs.declared.line.StepLine.{StepLine};
ghost use Rattle.flt_script.specs.Said.{Line};
ghost use Rattle.flt_script.specs.Said as line;
ghost use Rattle.flt_script.specs.Behind.{step_of};
ghost use Rattle.flt_script.specs.Bytes.{tester_of};
ghost use Rattle.flt_script.specs.Event.{only, event_line_of};
ghost use Rattle.flt_script.specs.Line.{two_numbers, three_numbers, number_and_pattern, alone, did_with, request_with, post_with, line_with, line_of};
ghost use Rattle.flt_script.specs.Next.{begins_step, said_behind};
ghost use Rattle.flt_script.specs.Numeral.{number};
ghost use Rattle.flt_step.specs.Step.{is_step_in};

use crate::arm::{ArmLine, read_pattern};
use crate::bytes::read_bytes;
use crate::event::{EventLine, event_of};
use crate::fault::LineCause;
use crate::keyword::{Keyword, read_keyword};
use crate::numeral::{read_hexadecimal, read_number};
use crate::text::{TextLine, Words};
use arrayvec::ArrayVec;
use flt_config::{Config, Tester};
use flt_flash::Pattern;
use flt_model::{REQUEST, Report};
use flt_step::{BLOCK_BYTES, Step};
use std::alloc::{AllocError, Global};

/// A step, with its numbers as they are written.
#[derive(Drop)]
pub(crate) enum StepLine {
    Report {
        event: u64,
        report: Report,
    },
    Show {
        event: u64,
    },
    Cycle {
        cycle: u64,
    },
    Tick {
        ticks: u64,
    },
    Signal {
        index: u64,
        value: u64,
    },
    Enable {
        condition: u64,
        value: u64,
    },
    Request {
        tester: Tester,
        bytes: ArrayVec<u8, REQUEST>,
    },
    Save,
    Post {
        urgent: bool,
        block: u64,
        bytes: ArrayVec<u8, BLOCK_BYTES>,
    },
    Drain,
    Get {
        block: u64,
    },
    Ask {
        block: u64,
    },
    Arming(ArmLine),
}

/// The most bytes of a line, without what ends it.
const LINE_LENGTH: usize = 512;

/// The greatest tick count of a step.
const TICKS: u64 = 65_535;

/// The greatest number of a signal.
const LAST_SIGNAL: u64 = 7;

/// The greatest value of a signal.
const SIGNAL_VALUE: u64 = 65_535;

/// The greatest number of an enable condition.
const LAST_CONDITION: u64 = 7;

impl StepLine {
    /// The step under this configuration, or nothing where a number is out of its range.
    #[inline(always)]
    pub(crate) fn step_in(self, config: &Config) -> Option<Step>
        ensures value { result ≡ step_of config.now self }
        ensures in_range { IfSome result (λ step. IsTrue (is_step_in config.now step)) }
    {
        let events = config.events.len() as u64;
        let blocks = u64::from(config.blocks);
        match self {
            StepLine::Report { event, report } if event < events => Some(Step::Report {
                event: event as u16,
                report,
            }),
            StepLine::Show { event } if event < events => Some(Step::Show {
                event: event as u16,
            }),
            StepLine::Cycle { cycle } if cycle <= 3 => Some(Step::Cycle { cycle: cycle as u8 }),
            StepLine::Tick { ticks } if 1 <= ticks && ticks <= TICKS => Some(Step::Tick {
                ticks: ticks as u16,
            }),
            StepLine::Signal { index, value } if index <= LAST_SIGNAL && value <= SIGNAL_VALUE => {
                Some(Step::Signal {
                    index: index as u8,
                    value: value as u16,
                })
            }
            StepLine::Enable { condition, value } if condition <= LAST_CONDITION && value <= 1 => {
                Some(Step::Enable {
                    condition: condition as u8,
                    fulfilled: value == 1,
                })
            }
            StepLine::Request { tester, bytes } => {
                if bytes.is_empty() {
                    return None;
                }
                Some(Step::Request {
                    tester: tester.get(),
                    bytes,
                })
            }
            StepLine::Save => Some(Step::Save),
            StepLine::Post {
                urgent,
                block,
                bytes,
            } => {
                if blocks <= block || bytes.is_empty() || BLOCK_BYTES < bytes.len() {
                    return None;
                }
                Some(Step::Post {
                    urgent,
                    block: block as u8,
                    bytes,
                })
            }
            StepLine::Drain => Some(Step::Drain),
            StepLine::Get { block } if block < blocks => Some(Step::Get { block: block as u8 }),
            StepLine::Ask { block } if block < blocks => Some(Step::Ask { block: block as u8 }),
            StepLine::Arming(arm) => match arm.arm() {
                Some(arm) => Some(Step::Arming(arm)),
                None => None,
            },
            StepLine::Report { .. }
            | StepLine::Show { .. }
            | StepLine::Cycle { .. }
            | StepLine::Tick { .. }
            | StepLine::Signal { .. }
            | StepLine::Enable { .. }
            | StepLine::Get { .. }
            | StepLine::Ask { .. } => None,
        }
    }
}

/// The number that the one word spells.
pub(crate) fn only_number(mut words: Words<'_>) -> Option<u64>
    ensures { result ≡ only number words.entry }
{
    let word = words.next()?;
    if words.next().is_some() {
        return None;
    }
    read_number(word)
}

/// The numbers that the two words spell.
#[tactic(auto, unfolding(crate::specs::Line::two_numbers))]
pub(crate) fn two_numbers(mut words: Words<'_>) -> Option<(u64, u64)>
    ensures { result ≡ two_numbers words.entry }
{
    let first = words.next()?;
    let second = words.next()?;
    if words.next().is_some() {
        return None;
    }
    Some((read_number(first)?, read_number(second)?))
}

/// The numbers that the three words spell.
#[tactic(auto, unfolding(crate::specs::Line::three_numbers))]
fn three_numbers(mut words: Words<'_>) -> Option<(u64, u64, u64)>
    ensures { result ≡ three_numbers words.entry }
{
    let first = words.next()?;
    let second = words.next()?;
    let third = words.next()?;
    if words.next().is_some() {
        return None;
    }
    Some((
        read_number(first)?,
        read_number(second)?,
        read_number(third)?,
    ))
}

/// The number that the first word spells, and the pattern of the second one.
#[tactic(auto, unfolding(crate::specs::Line::number_and_pattern))]
fn number_and_pattern(mut words: Words<'_>) -> Option<(u64, Pattern)>
    ensures { result ≡ number_and_pattern words.entry }
{
    let after = words.next()?;
    let pattern = words.next()?;
    if words.next().is_some() {
        return None;
    }
    Some((read_number(after)?, read_pattern(pattern)?))
}

/// Nothing, where no word is left.
pub(crate) fn no_word(mut words: Words<'_>) -> Option<()>
    ensures line { (said : Line) → alone said words.entry ≡ option_map (λ _. said) result }
    ensures step { (said : StepLine) → alone said words.entry ≡ option_map (λ _. said) result }
{
    match words.next() {
        None => Some(()),
        Some(_) => None,
    }
}

/// The event that the first word names, and the data identifier that the second one spells.
#[tactic(auto, unfolding(crate::specs::Line::did_with))]
pub(crate) fn did_with(mut words: Words<'_>) -> Option<(u64, u16)>
    ensures { option_map (λ did. line.Did did.0 did.1) result ≡ did_with words.entry }
{
    let event = words.next()?;
    let id = words.next()?;
    if words.next().is_some() {
        return None;
    }
    Some((read_number(event)?, read_hexadecimal(4, id)? as u16))
}

/// The tester that a letter from A to D names.
fn read_tester(word: &[u8]) -> Option<Tester>
    ensures { result ≡ tester_of word.now }
{
    match word {
        [letter @ b'A'..=b'D'] => Some(Tester::new(*letter - b'A')),
        _ => None,
    }
}

/// The tester that the first word names, and the bytes of its request, which the other words spell. It is separate, so that
/// other steps do not pay for the room of its bytes.
#[tactic(auto, unfolding(crate::specs::Line::request_with))]
#[inline(never)]
fn request_with(mut words: Words<'_>) -> Option<StepLine>
    ensures { option_map line.Step result ≡ request_with words.entry }
{
    let tester = read_tester(words.next()?)?;
    let bytes = read_bytes(words)?;
    Some(StepLine::Request { tester, bytes })
}

/// The application block that the first word names, and the bytes of a job for it, which the other words spell. It is
/// separate as `request_with` is.
#[tactic(auto, unfolding(crate::specs::Line::post_with))]
#[inline(never)]
fn post_with(urgent: bool, mut words: Words<'_>) -> Option<StepLine>
    ensures { option_map line.Step result ≡ post_with urgent words.entry }
{
    let block = read_number(words.next()?)?;
    let bytes = read_bytes(words)?;
    Some(StepLine::Post {
        urgent,
        block,
        bytes,
    })
}

/// What the words after a keyword that begins a step say.
#[tactic(auto, unfolding(crate::specs::Line::line_with, crate::specs::Line::report_with))]
#[inline(always)]
pub(crate) fn step_with(keyword: Keyword, words: Words<'_>) -> Option<StepLine>
    ensures said { IsTrue (begins_step keyword) → option_map line.Step result ≡ line_with keyword words.entry }
    ensures none { IsFalse (begins_step keyword) → result ≡ None }
{
    let step = match keyword {
        Keyword::Pass => StepLine::Report {
            event: only_number(words)?,
            report: Report::Passed,
        },
        Keyword::Fail => StepLine::Report {
            event: only_number(words)?,
            report: Report::Failed,
        },
        Keyword::PrePass => StepLine::Report {
            event: only_number(words)?,
            report: Report::PrePassed,
        },
        Keyword::PreFail => StepLine::Report {
            event: only_number(words)?,
            report: Report::PreFailed,
        },
        Keyword::Show => StepLine::Show {
            event: only_number(words)?,
        },
        Keyword::Cycle => StepLine::Cycle {
            cycle: only_number(words)?,
        },
        Keyword::Tick => StepLine::Tick {
            ticks: only_number(words)?,
        },
        Keyword::Signal => {
            let (index, value) = two_numbers(words)?;
            StepLine::Signal { index, value }
        }
        Keyword::Enable => {
            let (condition, value) = two_numbers(words)?;
            StepLine::Enable { condition, value }
        }
        Keyword::Request => request_with(words)?,
        Keyword::Save => {
            no_word(words)?;
            StepLine::Save
        }
        Keyword::Post => post_with(false, words)?,
        Keyword::Urge => post_with(true, words)?,
        Keyword::Drain => {
            no_word(words)?;
            StepLine::Drain
        }
        Keyword::Get => StepLine::Get {
            block: only_number(words)?,
        },
        Keyword::Ask => StepLine::Ask {
            block: only_number(words)?,
        },
        Keyword::Cut => {
            let (after, pattern) = number_and_pattern(words)?;
            StepLine::Arming(ArmLine::Cut { after, pattern })
        }
        Keyword::Fault => {
            let (after, pattern) = number_and_pattern(words)?;
            StepLine::Arming(ArmLine::Fault { after, pattern })
        }
        Keyword::Mute => {
            let (sector, page, times) = three_numbers(words)?;
            StepLine::Arming(ArmLine::Mute {
                sector,
                page,
                times,
            })
        }
        _ => return None,
    };
    Some(step)
}

/// What the words after the word event say.
pub(crate) fn event_with(alloc: Global, words: Words<'_>) -> Result<Option<EventLine>, AllocError>
    ensures { IfOk result (λ event. event ≡ event_line_of words.entry) }
{
    let words = words.collect::<Vec<&[u8]>>(alloc)?;
    Ok(event_of(&words))
}

/// The keyword that a line begins with and the words after it, or nothing where it is blank or a comment.
#[tactic(auto, unfolding(crate::specs::Line::line_of, crate::specs::Line::by_words))]
#[inline(always)]
pub(crate) fn first_word(line: TextLine<'_>) -> Result<Option<(Keyword, Words<'_>)>, LineCause>
    ensures { line_of line.entry.text.now ≡ said_behind result }
{
    if LINE_LENGTH < line.text.len() {
        return Err(LineCause::Long);
    }
    if !line.is_plain {
        return Err(LineCause::Byte);
    }
    let mut words = Words::new(line.text);
    let Some(first) = words.next() else {
        return Ok(None);
    };
    if let [b'#', ..] = first {
        return Ok(None);
    }
    let keyword = read_keyword(first).ok_or(LineCause::Word)?;
    Ok(Some((keyword, words)))
}
