ghost use Rattle.std.specs.Prelude.{◌≡◌};
ghost use Rattle.flt_script.specs.declared.fault.LineFault.TheVariants as line;
ghost use Rattle.flt_script.specs.declared.fault.ParseFault.TheVariants as parse;

use flt_config::CfgFault;
use std::alloc::{AllocError, AllocFailed};
use std::error::Error;
use std::fmt;

/// Why a line is refused. Where several causes hold, the first in this order is reported. It displays as in
/// the line that reports a fault: one word, and for `Config` two numbers where they help.
#[derive(Clone, Copy, Debug, PartialEq, Eq)]
pub enum LineCause {
    /// The script has more than 1,048,576 bytes.
    Large,
    /// The line has more than 512 bytes, without what ends it.
    Long,
    /// It has a byte other than a tab, a space and the visible characters of ASCII.
    Byte,
    /// Its first word begins no line.
    Word,
    /// The words after the first are not those of its kind of line.
    Form,
    /// It configures after a step, a `power` or a `par`, or what is set already, or an event whose number is not the next, or a
    /// data identifier of an event that is not there yet.
    Order,
    /// A number of a step is out of its range, or one that configures is too large for its type.
    Range,
    /// It is the 257th event, the ninth data identifier of an event, the ninth lane of a block, or the 65,537th step, it begins
    /// the 257th life, or it is the 65th of `cut`, `fault` and `mute` together or the 1,025th `drain`.
    Many,
    /// It is a `lane` or an `end` outside a block, an `end` of a block without a lane, a step between `par` and the first `lane`,
    /// in a block one of `power`, `par`, `cut`, `fault` and `mute`, or in a lane one of `save`, `drain` and `get` where another
    /// lane of the block has one of them; or it is the last line and the block is not ended.
    Block,
    /// It names a data identifier that the table does not have.
    Did,
    /// No line is faulty by itself or by its order, but the configuration that they write is refused. It is reported at
    /// the line that wrote what is at fault, the second event's for a DTC that occurs twice.
    Config(CfgFault),
}

/// The first faulty line and why it is refused. It displays as `script line`, the line and the cause.
#[derive(Clone, Copy, Debug, PartialEq, Eq)]
pub struct ScriptFault {
    /// Counted from 1. It is 0 where the script is too large, and only there.
    pub line: u32,
    pub cause: LineCause,
}

/// Why bytes could not be read as a script.
#[derive(Clone, Copy, Debug, PartialEq, Eq)]
pub enum ParseFault {
    /// There was not enough memory. It says nothing of the bytes.
    Memory,
    /// The bytes are no script; this is the first fault.
    At(ScriptFault),
}

impl fmt::Display for LineCause {
    ghost use Rattle.std.specs.Prelude.{Some};
    ghost use Rattle.flt_script.specs.Fault.{cause_text};

    ghost output = { λ cause. Some (cause_text cause) };

    fn fmt<W: fmt::Write>(&self, f: &mut fmt::Formatter<W>) -> fmt::Result {
        match *self {
            LineCause::Large => write!(f, "large"),
            LineCause::Long => write!(f, "long"),
            LineCause::Byte => write!(f, "byte"),
            LineCause::Word => write!(f, "word"),
            LineCause::Form => write!(f, "form"),
            LineCause::Order => write!(f, "order"),
            LineCause::Range | LineCause::Config(CfgFault::Range { .. }) => write!(f, "range"),
            LineCause::Many => write!(f, "many"),
            LineCause::Block => write!(f, "block"),
            LineCause::Did => write!(f, "did"),
            LineCause::Config(CfgFault::DtcTwice { first, second }) => {
                write!(f, "twice {first} {second}")
            }
            LineCause::Config(CfgFault::NoRoom { needed, pages }) => {
                write!(f, "room {needed} {pages}")
            }
        }
    }
}

impl fmt::Display for ScriptFault {
    ghost use Rattle.std.specs.Prelude.{Some};
    ghost use Rattle.flt_script.specs.Fault.{script_fault_text};

    ghost output = { λ fault. Some (script_fault_text fault) };

    fn fmt<W: fmt::Write>(&self, f: &mut fmt::Formatter<W>) -> fmt::Result {
        let line = self.line;
        let cause = self.cause;
        write!(f, "script line {line} {cause}")
    }
}

impl Error for ScriptFault {}

impl fmt::Display for ParseFault {
    ghost use Rattle.std.specs.Prelude.{Some};
    ghost use Rattle.flt_script.specs.Fault.{parse_fault_text};

    ghost output = { λ fault. Some (parse_fault_text fault) };

    fn fmt<W: fmt::Write>(&self, f: &mut fmt::Formatter<W>) -> fmt::Result {
        match *self {
            ParseFault::Memory => write!(f, "out of memory"),
            ParseFault::At(fault) => write!(f, "{fault}"),
        }
    }
}

impl Error for ParseFault {}

/// Why a line could not be read.
#[derive(Clone, Copy, Debug, PartialEq, Eq)]
pub enum LineFault {
    /// There was not enough memory. It says nothing of the line.
    Memory,
    /// The line is refused.
    Cause(LineCause),
}

impl LineFault {
    ghost use Rattle.flt_script.specs.Next.{line_cause_of, fault_at};
    ghost use Rattle.flt_script.specs.Script.{fault_of};

    /// The fault of the script whose line has this one.
    pub(crate) fn at_line(self, line: u32) -> ParseFault
        ensures { fault_of result ≡ fault_at line (line_cause_of self) }
    {
        match self {
            LineFault::Memory => ParseFault::Memory,
            LineFault::Cause(cause) => ParseFault::At(ScriptFault { line, cause }),
        }
    }
}

impl From<LineCause> for LineFault {
    ghost from_gives = { λ cause fault. fault ≡ line.Cause cause };

    fn from(cause: LineCause) -> LineFault {
        LineFault::Cause(cause)
    }
}

impl From<AllocError> for LineFault {
    ghost from_gives = { λ _ fault. fault ≡ line.Memory };

    fn from(_: AllocError) -> LineFault {
        LineFault::Memory
    }
}

impl<T: Drop> From<AllocFailed<T>> for LineFault {
    ghost from_gives = { λ _ fault. fault ≡ line.Memory };

    fn from(_: AllocFailed<T>) -> LineFault {
        LineFault::Memory
    }
}

impl<T: Drop> From<AllocFailed<T>> for ParseFault {
    ghost from_gives = { λ _ fault. fault ≡ parse.Memory };

    fn from(_: AllocFailed<T>) -> ParseFault {
        ParseFault::Memory
    }
}
