//! The whole of an input.
ghost use Rattle.std.specs.Prelude.{◌≡◌, ◌≤◌, IfOk, IfSome, IsErrOf};
ghost use Rattle.flt_filter.specs.Verdict.{HasCome, IsFaultDue, due_of, failed, reading_of, too_many, whole};

use crate::verdict::Verdict;
use flt_io::{Source, Status, StreamFault, read_front};
use std::alloc::Global;
use thiserror::Error;

/// The most bytes of an input.
const MOST: usize = 16_777_216;

/// Why an input was not read to its end.
#[derive(Clone, Copy, Debug, PartialEq, Eq, Error)]
pub enum InputFault {
    /// Memory ran out.
    #[error("memory ran out")]
    Memory,
    /// The source failed.
    #[error("the source failed")]
    Failed,
    /// More than 16,777,216 bytes came.
    #[error("the input has more than 16,777,216 bytes")]
    TooMany,
}

impl From<StreamFault> for InputFault {
    ghost use Rattle.flt_filter.specs.Verdict.{input_fault};

    ghost from_gives = { λ fault made. made ≡ input_fault fault };

    fn from(fault: StreamFault) -> InputFault {
        match fault {
            StreamFault::Memory => InputFault::Memory,
            StreamFault::Failed => InputFault::Failed,
        }
    }
}

impl InputFault {
    /// What is reported about the input; nothing where memory runs out.
    pub fn verdict(self, alloc: Global) -> Option<Verdict>
        ensures { IfSome result (λ verdict. IsFaultDue self (due_of verdict)) }
    {
        match self {
            InputFault::Memory => None,
            InputFault::Failed => Verdict::line(alloc, Status::ReadFault, b"read fault").ok(),
            InputFault::TooMany => Verdict::line(alloc, Status::InputLarge, b"input large").ok(),
        }
    }
}

/// Reads a source to its end, which is to come within 16,777,216 bytes.
pub fn read_input<S: Source>(alloc: Global, source: &mut S) -> Result<Vec<u8>, InputFault>
    ensures read { IfOk result (λ bytes. HasCome (reading_of S.left S.faults source.old source.new) (whole bytes.items)) }
    ensures unread { IsErrOf result InputFault.Failed → HasCome (reading_of S.left S.faults source.old source.new) failed }
    ensures large { IsErrOf result InputFault.TooMany → HasCome (reading_of S.left S.faults source.old source.new) too_many }
    ensures later { S.faults source.old ≤ S.faults source.new }
{
    let bytes = read_front(alloc, MOST + 1, source)?;
    if MOST < bytes.len() {
        return Err(InputFault::TooMany);
    }
    Ok(bytes)
}
