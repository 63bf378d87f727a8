//! A case: a script with what is written down for it.
use std::io;

/// The word under which a program is run on a script.
#[derive(Clone, Copy)]
pub(crate) enum Word {
    /// It is run over the flash.
    Run,
    /// It is run over the EEPROM.
    Ea,
    /// It is watched.
    Watch,
    /// It is checked.
    Check,
    /// It is a dump: what the image of a flash holds is reported.
    Inspect,
    /// It is a trace: whether the answers of the life are right is reported.
    Audit,
    /// The trace of its last life is made.
    Trace,
}

impl Word {
    /// The word itself.
    pub(crate) fn text(self) -> &'static str {
        match self {
            Word::Run => "run",
            Word::Ea => "ea",
            Word::Watch => "watch",
            Word::Check => "check",
            Word::Inspect => "inspect",
            Word::Audit => "audit",
            Word::Trace => "trace",
        }
    }

    /// The word with this text, if there is one.
    pub(crate) fn of_text(text: &str) -> Option<Word> {
        match text {
            "run" => Some(Word::Run),
            "ea" => Some(Word::Ea),
            "watch" => Some(Word::Watch),
            "check" => Some(Word::Check),
            "inspect" => Some(Word::Inspect),
            "audit" => Some(Word::Audit),
            "trace" => Some(Word::Trace),
            _ => None,
        }
    }
}

/// A script under a word, with the status and the report that are written down for it.
#[derive(Clone, Copy)]
pub(crate) struct Case<'a> {
    pub(crate) name: &'a str,
    pub(crate) word: Word,
    pub(crate) status: u8,
    pub(crate) script: &'a [u8],
    pub(crate) report: &'a [u8],
}

/// How what a program makes of a case compares with what is written down.
#[derive(Clone, Copy, PartialEq, Eq)]
pub(crate) enum Answer {
    /// The status and the report are the same.
    AsWritten,
    /// The status is this other one.
    OtherStatus(u8),
    /// The status is the same, and the report is another.
    OtherReport,
}

/// Reports how what a program made of a case compares.
pub(crate) fn tell(rt: &impl Print, case: &Case<'_>, answer: Answer) -> io::Result<()> {
    let word = case.word.text();
    let name = case.name;
    match answer {
        Answer::AsWritten => println!(rt; "{word} {name}: as written"),
        Answer::OtherStatus(status) => println!(rt; "{word} {name}: another status, {status}"),
        Answer::OtherReport => println!(rt; "{word} {name}: another report"),
    }
}
