//! The words after the program's name, and what they ask for.
ghost use Rattle.std.specs.Prelude.{◌≡◌, ◌≤◌, map, IfSome};
ghost use Rattle.std.specs.String.{string_bytes};
ghost use Rattle.flt_run.specs.Command.{IsLoadInRange};
ghost use Rattle.flt_program.specs.Words.{IsOfRange, count_of, invocation_of, kind_of, load_of};

use flt_run::Command;
use flt_script::read_number;

/// What the words ask for.
#[derive(Clone, Copy, Debug, PartialEq, Eq)]
pub enum Invocation {
    /// A command over the flash; none if the words are no command.
    Flash(Option<Command>),
    /// A command over the EEPROM.
    Eeprom(Command),
    /// A watch.
    Watch,
}

/// The most reports of a load.
const REPORTS: u64 = 60_000;

/// The most digits of their number.
const DIGITS: usize = 5;

/// How many reports a load has.
#[tactic(auto, unfolding(crate::specs::Words::count_of))]
fn read_count(word: &[u8]) -> Option<u32>
    ensures is { result ≡ count_of word.now }
    ensures range { IfSome result (λ count. (1 ≤ count) × (count ≤ 60000)) }
{
    if DIGITS < word.len() {
        return None;
    }
    let count = read_number(word)?;
    if 1 <= count && count <= REPORTS {
        Some(count as u32)
    } else {
        None
    }
}

/// Whether a load is made in lanes.
fn read_kind(word: &[u8]) -> Option<bool>
    ensures { result ≡ kind_of word.now }
{
    match word {
        b"plain" => Some(false),
        b"lanes" => Some(true),
        _ => None,
    }
}

#[tactic(auto, unfolding(crate::specs::Words::load_of))]
fn read_load(word: &[u8], count: &[u8], kind: &[u8]) -> Option<Command>
    ensures is { result ≡ load_of word.now count.now kind.now }
    ensures range { IsLoadInRange result }
{
    match word {
        b"load" => {
            let count = read_count(count)?;
            let lanes = read_kind(kind)?;
            Some(Command::Load { count, lanes })
        }
        _ => None,
    }
}

/// What the words after the program's name ask for.
pub(crate) fn read_words(words: &[String]) -> Invocation
    ensures is { result ≡ invocation_of (map string_bytes words.now) }
    ensures range { IsOfRange result }
{
    match words {
        [word] => match word.as_bytes() {
            b"run" => Invocation::Flash(Some(Command::Run)),
            b"check" => Invocation::Flash(Some(Command::Check)),
            b"ea" => Invocation::Eeprom(Command::Run),
            b"watch" => Invocation::Watch,
            _ => Invocation::Flash(None),
        },
        [word, count, kind] => {
            let load = read_load(word.as_bytes(), count.as_bytes(), kind.as_bytes());
            Invocation::Flash(load)
        }
        _ => Invocation::Flash(None),
    }
}
