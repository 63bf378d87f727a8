//! Where bytes come from and where they go, each with a count of its faults.
//!
//! It depends on std, and on `thiserror` for its faults. The crates above use two traits: `Source`, whose `pull` moves the next bytes, and
//! `Sink`, whose `push` takes a whole piece or fails after a prefix of it; either fails only if the object's count of faults rose.
//! `read_front` reads a source to its end, or up to a number of bytes.
//! `MemSource` and `MemSink` are in memory and fail where a test asks for it; `ReadSource` and `WriteSink` are over std's
//! readers and writers; `Discard` is a sink that keeps nothing. `command_words` has the words of a program, and `Status` how it ends, with
//! the number of its exit status (`specs/Status.antt`). Read `specs/Fault.antt` first, then `specs/Sink.antt`; `Writes` of
//! `specs/Written.antt` is what the writers above promise of a text.
#![tactic(auto)]

mod discard;
mod failing;
mod front;
mod mem_sink;
mod mem_source;
mod read_source;
mod status;
mod stream;
mod words;
mod write_sink;

pub use discard::Discard;
pub use front::read_front;
pub use mem_sink::MemSink;
pub use mem_source::MemSource;
pub use read_source::ReadSource;
pub use status::Status;
pub use stream::{Failed, Sink, Source, StreamFault};
pub use words::command_words;
pub use write_sink::WriteSink;

/// How often an interrupted read or write is made at most before it counts as a fault.
const TRIES: u32 = 16;
