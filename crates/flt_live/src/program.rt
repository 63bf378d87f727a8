//! What the words of the program ask for.
ghost use Rattle.std.specs.Prelude.{◌≡◌, is_none, map, option_map};
ghost use Rattle.std.specs.String.{string_bytes};
ghost use Rattle.flt_did.specs.Table.{dids_of};
ghost use Rattle.flt_io.specs.Status.{status_number};
ghost use Rattle.flt_live.specs.Heard.{talk};
ghost use Rattle.flt_live.specs.Session.{IsProgram, IsSession, Reading, session_in, status_told};

use crate::session::run_session;
use crate::shelf::{FileShelf, MemShelf};
use flt_did::{DID_ROWS, DidTable};
use flt_io::{ReadSource, Sink, Source, Status, StreamFault};
use flt_script::write_unread;
use std::fs::File;
use std::rt::Files;
use std::sync::Wait;

const USAGE: &[u8] = b"usage: faultmem live CONFIG [IMAGE]\n";

/// The paths that the words after the program's name ask for: that of the configuration, and that of the image if there is one.
fn read_words(words: &[String]) -> Option<(&str, Option<&str>)>
    ensures { option_map (λ asked. is_none asked.1) result ≡ session_in (map string_bytes words.now) }
{
    match words {
        [word, config] => match word.as_bytes() {
            b"live" => Some((config.as_str(), None)),
            _ => None,
        },
        [word, config, image] => match word.as_bytes() {
            b"live" => Some((config.as_str(), Some(image.as_str()))),
            _ => None,
        },
        _ => None,
    }
}

/// Holds a session over the file of the image, or over memory.
fn hold<R: AllocGlobal + Files<File = File> + Wait, C: Source, S: Source, K: Sink>(
    rt: &R,
    dids: DidTable<DID_ROWS>,
    image: Option<&str>,
    configuration: &mut C,
    source: &mut S,
    sink: &mut K,
) -> Status
    ensures { (config : Reading) × IsSession (is_none image.entry) (dids_of dids) config
        (talk (S.left source.old) (S.faults source.old) (K.held sink.old) (K.faults sink.old))
        (talk (S.left source.new) (S.faults source.new) (K.held sink.new) (K.faults sink.new)) (status_number result) }
{
    let alloc = rt.alloc();
    match image {
        Some(path) => {
            let mut shelf = FileShelf { rt, path };
            run_session(rt, alloc, dids, configuration, source, sink, &mut shelf)
        }
        None => {
            let mut shelf = MemShelf::new(rt);
            run_session(rt, alloc, dids, configuration, source, sink, &mut shelf)
        }
    }
}

/// The status where a line was written or not.
pub(crate) fn status_told(status: Status, told: Result<(), StreamFault>) -> Status
    ensures { status_number result ≡ status_told (status_number status) told }
{
    match told {
        Ok(()) => status,
        Err(StreamFault::Failed) => Status::WriteFault,
        Err(StreamFault::Memory) => Status::OutOfMemory,
    }
}

/// Does what the words after the program's name ask for: holds a session with the configuration of a file, over the flash of another file
/// or over one in memory. All other words are answered with the usage line.
pub fn run_live<R: AllocGlobal + Files<File = File> + Wait, S: Source, K: Sink>(
    rt: &R,
    words: &[String],
    dids: DidTable<DID_ROWS>,
    source: &mut S,
    sink: &mut K,
) -> Status
    ensures { IsProgram (dids_of dids) (session_in (map string_bytes words.now))
        (talk (S.left source.old) (S.faults source.old) (K.held sink.old) (K.faults sink.old))
        (talk (S.left source.new) (S.faults source.new) (K.held sink.new) (K.faults sink.new)) (status_number result) }
{
    let Some((config, image)) = read_words(words) else {
        return match sink.push(USAGE) {
            Ok(()) => Status::Usage,
            Err(_) => Status::WriteFault,
        };
    };
    match File::open(rt, config) {
        Ok(file) => hold(rt, dids, image, &mut ReadSource::new(file), source, sink),
        Err(_) => status_told(Status::ReadFault, write_unread(sink)),
    }
}
