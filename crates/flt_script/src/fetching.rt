//! The script that a source has.
ghost use Rattle.flt_did.specs.Table.{dids_of};
ghost use Rattle.flt_script.specs.Fetched.{IsFetched};

use crate::fault::{ParseFault, ScriptFault};
use crate::parsing::parse;
use crate::script::Script;
use flt_did::{DID_ROWS, DidTable};
use flt_io::{Source, StreamFault, read_front};
use std::alloc::Global;

/// One byte more than a script may have.
const READ_LIMIT: usize = 1_048_577;

/// What reading a script came to.
#[derive(Drop)]
pub enum Fetched {
    /// The source was read to its end, and had this script.
    Script(Script),
    /// The bytes are no script.
    Refused(ScriptFault),
    /// The source failed.
    Failed,
    /// Memory ran out.
    Memory,
}

/// Reads the script that a source has: to the end of the source, or to one byte more than a script may have.
pub fn fetch<S: Source>(alloc: Global, source: &mut S, dids: &DidTable<DID_ROWS>) -> Fetched
    ensures { IsFetched (dids_of dids.now) (S.left source.old) (S.left source.new) (S.faults source.old) (S.faults source.new) result }
{
    let bytes = match read_front(alloc, READ_LIMIT, source) {
        Ok(bytes) => bytes,
        Err(StreamFault::Failed) => return Fetched::Failed,
        Err(StreamFault::Memory) => return Fetched::Memory,
    };
    match parse(alloc, &bytes, dids) {
        Ok(script) => Fetched::Script(script),
        Err(ParseFault::At(fault)) => Fetched::Refused(fault),
        Err(ParseFault::Memory) => Fetched::Memory,
    }
}
