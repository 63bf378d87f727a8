ghost use Rattle.std.specs.Prelude.{◌≤◌, IfOk, OnOk, length};
ghost use Rattle.flt_did.specs.Serves.{Serves};
ghost use Rattle.flt_did.specs.Table.{dids_of};
ghost use Rattle.flt_script.specs.Gives.{IsAsDefined};
ghost use Rattle.flt_script.specs.Script.{script_of, content, fault_of};

use crate::draft::Draft;
use crate::fault::{LineCause, ParseFault, ScriptFault};
use crate::script::Script;
use crate::text::Lines;
use flt_did::{DID_ROWS, DidTable};
use std::alloc::Global;

/// The most bytes of a script.
const SCRIPT_LENGTH: usize = 1_048_576;

/// Reads a script of at most 1,048,576 bytes, in the language of `docs/SCRIPT.md`. Its events may use the data
/// identifiers of the table, each with its width there.
///
/// An `At` gives the first faulty line and why it is refused; where no line is faulty, the first fault of the
/// configuration that the lines write, at the line that wrote what is at fault. `Memory` says nothing of the bytes.
/// After either nothing is kept of them. The bytes are not copied, and the time is linear in their number.
#[tactic(auto, unfolding(crate::specs::Script::script_of))]
pub fn parse(alloc: Global, bytes: &[u8], dids: &DidTable<DID_ROWS>) -> Result<Script, ParseFault>
    ensures exact { IsAsDefined content fault_of result (script_of (dids_of dids.now) bytes.now) }
    ensures short { OnOk result (length bytes.now ≤ 1048576) }
    ensures served { IfOk result (λ script. Serves (dids_of dids.now) script.config.events.items) }
{
    if SCRIPT_LENGTH < bytes.len() {
        return Err(ParseFault::At(ScriptFault {
            line: 0,
            cause: LineCause::Large,
        }));
    }
    let mut draft = Draft::new(alloc);
    let mut number = 0;
    for line in Lines::new(bytes) {
        number += 1;
        if let Err(fault) = draft.read(alloc, dids, number, line) {
            return Err(fault.at_line(number));
        }
    }
    draft.finish(number)
}
