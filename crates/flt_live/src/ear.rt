//! The lines of a source, of which the last that was read is kept.
ghost use Rattle.std.specs.Prelude.{◌≡◌, ◌≤◌, [], IfOk};
ghost use Rattle.std.specs.Vec.{vec_capacity};
ghost use Rattle.flt_io.specs.Fault.{HasCause};

use crate::reader::{KEPT, Line, LineReader};
use flt_io::{Failed, Source};
use flt_script::without_return;
use std::alloc::{AllocError, Global};
use std::sync::Wait;

/// The lines of a source, of which the last that was read is kept.
#[derive(Drop)]
pub struct Ear {
    reader: LineReader,
    text: Vec<u8>,
    ghost room: { 514 ≤ vec_capacity text },
}

impl Ear {
    ghost use Rattle.flt_live.specs.Ahead.{TakesLine, ahead_in, kept_in, pulled_in, kept_text};

    /// No line was read. The error means that memory ran out.
    pub fn new(alloc: Global) -> Result<Ear, AllocError>
        ensures { IfOk result (λ ear. pulled_in ear ≡ []) }
    {
        let text = Vec::with_capacity(alloc, KEPT)?;
        Ok(Ear {
            reader: LineReader::new(),
            text,
        })
    }

    /// Reads the next line. The error means that the source failed.
    pub(crate) fn hear<R: Wait, S: Source>(
        &mut self,
        rt: &R,
        source: &mut S,
    ) -> Result<Line, Failed>
        ensures line { IfOk result (λ ended. TakesLine (ahead_in (S.left source.old) self.old) (ahead_in (S.left source.new) self.new) ended (kept_in self.new)) }
        ensures cause { HasCause (S.faults source.old) (S.faults source.new) result }
    {
        self.reader.line(rt, source, &mut self.text)
    }

    /// The text of the line that was read last and ended so.
    pub(crate) fn text(&self, ended: Line) -> &[u8]
        ensures { result.now ≡ kept_text ended (kept_in self.now) }
    {
        match ended {
            Line::Fed => without_return(&self.text),
            Line::Cut | Line::Ended => &self.text,
        }
    }
}
