//! Streams in memory that fail at given calls, and std's streams that stutter.
use super::{holds, holds_at};
use flt_io::{MemSink, MemSource, ReadSource, Sink, Source, WriteSink};
use std::alloc::{AllocError, Global};
use std::io::{self, ErrorKind, Read, Write};
use std::process::Abort;
use std::test::Fail;

/// What a stuttering stream does at a call.
#[derive(Clone, Copy)]
enum Turn {
    /// It moves at most this many bytes.
    Moves(usize),
    Fails(ErrorKind),
}

const INTERRUPTED: Turn = Turn::Fails(ErrorKind::Interrupted);

/// A stream whose calls go as its turns say, and move any number of bytes after the last.
#[derive(Drop)]
struct Stuttering {
    bytes: Vec<u8>,
    taken: usize,
    turns: Vec<Turn>,
    calls: usize,
}

impl Stuttering {
    fn new(bytes: Vec<u8>, turns: Vec<Turn>) -> Stuttering {
        Stuttering {
            bytes,
            taken: 0,
            turns,
            calls: 0,
        }
    }

    /// How many of these many bytes the next call moves.
    fn turn(&mut self, most: usize) -> io::Result<usize> {
        let turn = self.turns.get(self.calls).copied();
        self.calls = self.calls.saturating_add(1);
        match turn {
            Some(Turn::Moves(count)) => Ok(count.min(most)),
            Some(Turn::Fails(kind)) => Err(io::Error::from(kind)),
            None => Ok(most),
        }
    }
}

impl Read for Stuttering {
    fn read(&mut self, buf: &mut [u8]) -> io::Result<usize> {
        let most = self.turn(buf.len())?;
        let rest = &self.bytes[self.taken.min(self.bytes.len())..];
        let count = most.min(rest.len()).min(buf.len());
        buf[..count].copy_from_slice(&rest[..count]);
        self.taken = self.taken.saturating_add(count);
        Ok(count)
    }
}

impl Write for Stuttering {
    fn write(&mut self, buf: &[u8]) -> io::Result<usize> {
        let count = self.turn(buf.len())?.min(buf.len());
        self.bytes.extend_from_slice(&buf[..count])?;
        Ok(count)
    }

    fn flush(&mut self) -> io::Result<()> {
        Ok(())
    }
}

/// Pulls three bytes at most at each call, of which there are this many, or none where it fails.
fn pull_all<S: Source>(
    rt: &impl Abort,
    source: &mut S,
    out: &mut [u8; 3],
    wanted: &[Option<usize>],
) {
    for (at, count) in wanted.iter().enumerate() {
        holds_at(rt, source.pull(out).ok() == *count, "pull", at);
    }
}

/// Pushes these pieces, each of which is taken or not.
fn push_all<K: Sink>(rt: &impl Abort, sink: &mut K, pieces: &[(&[u8], bool)]) {
    for (at, (piece, is_taken)) in pieces.iter().enumerate() {
        holds_at(rt, sink.push(piece).is_ok() == *is_taken, "push", at);
    }
}

/// The second call fails, and the fourth finds the end.
static PULLED: [Option<usize>; 4] = [Some(3), None, Some(2), Some(0)];

#[test]
fn memory_fails_at_the_given_calls(rt: HostRuntime) -> Result<(), Fail> {
    let bytes = vec![in rt.alloc(); 1, 2, 3, 4, 5]?;
    let mut source = MemSource::new(bytes, vec![in rt.alloc(); 1]?);
    let mut out = [0; 3];
    pull_all(&rt, &mut source, &mut out, &PULLED);
    holds(&rt, out == [4, 5, 3], "the last bytes");
    Ok(())
}

/// The second call fails, and the third has more than fits.
static PUSHED: [(&[u8], bool); 4] = [(b"abc", true), (b"d", false), (b"de", false), (b"d", true)];

#[test]
fn memory_takes_what_fits_but_at_the_given_calls(rt: HostRuntime) -> Result<(), Fail> {
    let mut sink = MemSink::new(rt.alloc(), 4, vec![in rt.alloc(); 1]?)?;
    push_all(&rt, &mut sink, &PUSHED);
    holds(&rt, sink.bytes() == b"abcd".as_slice(), "what fits");
    Ok(())
}

/// An interruption, a byte, a broken pipe, and then all.
static STUTTERS: [Turn; 3] = [
    INTERRUPTED,
    Turn::Moves(1),
    Turn::Fails(ErrorKind::BrokenPipe),
];

static STUTTERED: [Option<usize>; 3] = [Some(1), None, Some(2)];

/// A stream of these bytes and turns.
fn stream_of(alloc: Global, bytes: &[u8], turns: &[Turn]) -> Result<Stuttering, AllocError> {
    Ok(Stuttering::new(
        Vec::from_slice(alloc, bytes)?,
        Vec::from_slice(alloc, turns)?,
    ))
}

#[test]
fn sources_stutter(rt: HostRuntime) -> Result<(), Fail> {
    let mut source = ReadSource::new(stream_of(rt.alloc(), &[1, 2, 3], &STUTTERS)?);
    let mut out = [0; 3];
    pull_all(&rt, &mut source, &mut out, &STUTTERED);
    holds(&rt, out == [2, 3, 0], "the last bytes");
    Ok(())
}

#[test]
fn sources_are_interrupted_too_often(rt: HostRuntime) -> Result<(), Fail> {
    let mut source = ReadSource::new(stream_of(rt.alloc(), &[], &[INTERRUPTED; 17])?);
    pull_all(&rt, &mut source, &mut [0; 3], &[None, Some(0)]);
    Ok(())
}

/// Turns of a sink, the pieces that it is given, each with whether it is taken, and what it has then.
type Row = (
    &'static [Turn],
    &'static [(&'static [u8], bool)],
    &'static [u8],
);

static SINKS: [Row; 2] = [
    // A short write in mid-stream, and then a write of no byte.
    (
        &[Turn::Moves(2), INTERRUPTED, Turn::Moves(2), Turn::Moves(0)],
        &[(b"abc", true), (b"de", false), (b"fg", true)],
        b"abcfg",
    ),
    // An error that is no interruption is a fault at once.
    (
        &[Turn::Fails(ErrorKind::BrokenPipe)],
        &[(b"a", false), (b"b", true)],
        b"b",
    ),
];

#[test]
fn sinks_stutter_and_break(rt: HostRuntime) -> Result<(), Fail> {
    for (at, (turns, pieces, held)) in SINKS.iter().enumerate() {
        let mut sink = WriteSink::new(stream_of(rt.alloc(), &[], turns)?);
        push_all(&rt, &mut sink, pieces);
        holds_at(&rt, sink.into_inner().bytes.as_slice() == *held, "sink", at);
    }
    Ok(())
}
