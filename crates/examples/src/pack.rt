//! A pack: a file of vectors, one after the other.
//!
//! A vector is a line `NAME WORD STATUS SCRIPT_BYTES REPORT_BYTES`, then the script in that number of bytes and a line feed, then the report
//! in that number of bytes and a line feed. A script may hold any byte, so only the two lengths say where it ends; the line feed after it is there for
//! readers, who find a vector by its name at the front of a line. `tools/pack_vectors.py` makes packs of files and files of packs.
ghost use Rattle.std.specs.Prelude.{◌<◌, IfSome, length};

use crate::case::{Case, Word};

/// A pack does not go on with a vector.
#[derive(Clone, Copy)]
pub(crate) struct Malformed;

/// The vectors of a pack that are left. Where it does not go on with one, that is reported once, and nothing is left.
#[derive(Drop)]
pub(crate) struct Pack<'a> {
    rest: &'a [u8],
}

impl<'a> Pack<'a> {
    /// The vectors of these bytes.
    pub(crate) fn new(bytes: &'a [u8]) -> Pack<'a> {
        Pack { rest: bytes }
    }
}

impl<'a> Iterator for Pack<'a> {
    ghost use Rattle.std.specs.Iterator.{at_most};

    type Item = Result<Case<'a>, Malformed>;

    ghost remaining = { λ pack. at_most (length pack.rest.now) };

    fn next(&mut self) -> Option<Result<Case<'a>, Malformed>> {
        if self.rest.is_empty() {
            return None;
        }
        match split_vector(self.rest) {
            Some((vector, rest)) => {
                self.rest = rest;
                Some(Ok(vector))
            }
            None => {
                self.rest = &[];
                Some(Err(Malformed))
            }
        }
    }
}

/// What the line of a vector says.
#[derive(Clone, Copy)]
struct Header<'a> {
    name: &'a str,
    word: Word,
    status: u8,
    script_len: usize,
    report_len: usize,
}

/// The vector that a pack begins with, and what follows it.
fn split_vector(pack: &[u8]) -> Option<(Case<'_>, &[u8])>
    ensures { IfSome result (λ parts. length parts.1.now < length pack.now) }
{
    let (line, rest) = split_line(pack)?;
    let header = read_header(line)?;
    let (script, rest) = split_piece(rest, header.script_len)?;
    let (report, rest) = split_piece(rest, header.report_len)?;
    let vector = Case {
        name: header.name,
        word: header.word,
        status: header.status,
        script,
        report,
    };
    Some((vector, rest))
}

/// What a line says that is the first of a vector.
fn read_header(line: &[u8]) -> Option<Header<'_>> {
    let text = str::from_utf8(line).ok()?;
    let (name, rest) = text.split_once(' ')?;
    let (word, rest) = rest.split_once(' ')?;
    let (status, rest) = rest.split_once(' ')?;
    let (script_len, report_len) = rest.split_once(' ')?;
    Some(Header {
        name,
        word: Word::of_text(word)?,
        status: status.parse().ok()?,
        script_len: script_len.parse().ok()?,
        report_len: report_len.parse().ok()?,
    })
}

/// The bytes before the first line feed, and those after it.
fn split_line(bytes: &[u8]) -> Option<(&[u8], &[u8])>
    ensures { IfSome result (λ parts. length parts.1.now < length bytes.now) }
{
    let len = bytes.iter().position(|byte| *byte == b'\n')?;
    split_piece(bytes, len)
}

/// The first `len` bytes, and those after the line feed that follows them.
fn split_piece(bytes: &[u8], len: usize) -> Option<(&[u8], &[u8])>
    ensures { IfSome result (λ parts. length parts.1.now < length bytes.now) }
{
    let (piece, rest) = bytes.split_at_checked(len)?;
    let rest = rest.strip_prefix(b"\n")?;
    Some((piece, rest))
}
