//! What is reported about an input.
ghost use Rattle.std.specs.Prelude.{◌≡◌, ◌++◌, ◌∷◌, [], IfOk};
ghost use Rattle.flt_io.specs.Status.{status_number};
ghost use Rattle.flt_filter.specs.Verdict.{due_of, line_due};

use flt_io::Status;
use std::alloc::{AllocError, Global};

/// What is reported about an input: the exit status, and the text that says so.
#[derive(Drop)]
pub struct Verdict {
    pub status: u8,
    pub text: Vec<u8>,
}

impl Verdict {
    /// A verdict of one line, which these words make. The error means that memory ran out.
    pub fn line(alloc: Global, status: Status, words: &[u8]) -> Result<Verdict, AllocError>
        ensures { IfOk result (λ verdict. due_of verdict ≡ line_due (status_number status) words.now) }
    {
        let mut text = Vec::new(alloc);
        text.extend_from_slice(words)?;
        text.push(b'\n')?;
        Ok(Verdict {
            status: status.number(),
            text,
        })
    }
}
