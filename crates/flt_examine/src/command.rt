//! The words after the program's name.
ghost use Rattle.std.specs.Prelude.{◌≡◌, map};
ghost use Rattle.std.specs.String.{string_bytes};
ghost use Rattle.flt_examine.specs.Command.{command_of};

/// What the program is asked for.
#[derive(Clone, Copy)]
pub(crate) enum Command {
    /// What the image of a dump holds.
    Inspect,
    /// The trace of a script's last life.
    Trace,
    /// Whether a trace's answers are due.
    Audit,
}

/// The command that the words are: the one word `inspect`, `trace` or `audit`.
pub(crate) fn command_of(words: &[String]) -> Option<Command>
    ensures { result ≡ command_of (map string_bytes words.now) }
{
    match words {
        [word] => match word.as_bytes() {
            b"inspect" => Some(Command::Inspect),
            b"trace" => Some(Command::Trace),
            b"audit" => Some(Command::Audit),
            _ => None,
        },
        _ => None,
    }
}
