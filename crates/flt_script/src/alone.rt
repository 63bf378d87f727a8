//! A line that is read by itself.
ghost use Rattle.std.specs.Prelude.{◌≡◌, ◌∷◌, [], IfOk, MatchOption};
ghost use Rattle.flt_script.specs.Alone.{IsAloneIn, alone_in, words_alone, step_in};
ghost use Rattle.flt_script.specs.Gives.{IsAsDefined};
ghost use Rattle.flt_script.specs.Next.{line_cause_of};
ghost use Rattle.flt_script.specs.Text.{lines_of};

use crate::fault::{LineCause, LineFault};
use crate::keyword::Keyword;
use crate::line::{did_with, event_with, first_word, no_word, only_number, step_with, two_numbers};
use crate::text::{TextLine, Words, split_line};
use flt_config::Config;
use flt_step::Step;
use std::alloc::Global;

/// What a line says by itself after a configuration that is closed.
#[derive(Drop)]
pub enum AloneLine {
    /// Nothing: it is blank or a comment.
    Skipped,
    /// A step, whose numbers are in their ranges.
    Step(Step),
    /// The end of a life.
    Power,
}

/// The first line of a text, without what ends it, and what follows it; nothing where the text has no line.
pub fn next_line(text: &[u8]) -> Option<(&[u8], &[u8])>
    ensures { MatchOption result (lines_of text.now ≡ []) (λ parts. lines_of text.now ≡ parts.0.now ∷ lines_of parts.1.now) }
{
    let (line, others) = split_line(text)?;
    Some((line.text, others))
}

/// The step that a line spells by itself under this configuration; nothing where it is no line of a step, or a number is out of its
/// range. What a step displays is read as that step again.
pub fn read_step(text: &[u8], config: &Config) -> Option<Step>
    ensures { result ≡ step_in config.now text.now }
{
    let (keyword, words) = first_word(TextLine::new(text)).ok()??;
    step_with(keyword, words)?.step_in(config)
}

/// What the words after a keyword say by themselves.
#[tactic(auto, unfolding(crate::specs::Line::line_with))]
fn alone_with(
    alloc: Global,
    keyword: Keyword,
    words: Words<'_>,
    config: &Config,
) -> Result<AloneLine, LineFault>
    ensures said { IsAsDefined (λ said. said) line_cause_of result (words_alone config.now keyword words.entry) }
    ensures in_range { IfOk result (IsAloneIn config.now) }
{
    match keyword {
        Keyword::Power => {
            no_word(words).ok_or(LineCause::Form)?;
            Ok(AloneLine::Power)
        }
        Keyword::Par | Keyword::Lane | Keyword::End => {
            no_word(words).ok_or(LineCause::Form)?;
            Err(LineFault::Cause(LineCause::Block))
        }
        Keyword::Event => {
            event_with(alloc, words)?.ok_or(LineCause::Form)?;
            Err(LineFault::Cause(LineCause::Order))
        }
        Keyword::Did => {
            did_with(words).ok_or(LineCause::Form)?;
            Err(LineFault::Cause(LineCause::Order))
        }
        Keyword::Flash => {
            two_numbers(words).ok_or(LineCause::Form)?;
            Err(LineFault::Cause(LineCause::Order))
        }
        Keyword::Config | Keyword::Memory | Keyword::Blocks => {
            only_number(words).ok_or(LineCause::Form)?;
            Err(LineFault::Cause(LineCause::Order))
        }
        _ => {
            let step = step_with(keyword, words).ok_or(LineCause::Form)?;
            let step = step.step_in(config).ok_or(LineCause::Range)?;
            Ok(AloneLine::Step(step))
        }
    }
}

/// What a line says by itself under this configuration, which is closed: a step, the end of a life, or nothing. A line that configures is
/// refused as one after the first step of a script is, and one of a block of lanes as one that is not allowed there. `Memory` says nothing
/// of the line.
pub fn read_alone(alloc: Global, text: &[u8], config: &Config) -> Result<AloneLine, LineFault>
    ensures said { IsAsDefined (λ said. said) line_cause_of result (alone_in config.now text.now) }
    ensures in_range { IfOk result (IsAloneIn config.now) }
{
    match first_word(TextLine::new(text))? {
        None => Ok(AloneLine::Skipped),
        Some((keyword, words)) => alone_with(alloc, keyword, words, config),
    }
}
