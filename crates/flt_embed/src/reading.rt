//! The configuration, read from its text.
ghost use Rattle.std.specs.Prelude.{IfOk};
ghost use Rattle.flt_did.specs.Serves.{Serves};
ghost use Rattle.flt_did.specs.Table.{dids_of};

use crate::fault::Fault;
use flt_config::ValidConfig;
use flt_did::{DID_ROWS, DidTable};
use flt_script::{ParseFault, parse};
use flt_step::Part;
use std::alloc::Global;

/// Whether nothing is done in these lives.
fn is_idle(lives: &[Vec<Part>]) -> bool {
    match lives {
        [life] => life.is_empty(),
        _ => false,
    }
}

/// Reads a configuration: the text is a script that has nothing else.
pub fn read_config(
    alloc: Global,
    text: &[u8],
    dids: &DidTable<DID_ROWS>,
) -> Result<ValidConfig, Fault>
    ensures { IfOk result (λ config. Serves (dids_of dids.now) config.events.items) }
{
    match parse(alloc, text, dids) {
        Ok(script) => {
            if is_idle(&script.lives) {
                Ok(script.config.twin())
            } else {
                Err(Fault::Config)
            }
        }
        Err(ParseFault::Memory) => Err(Fault::Memory),
        Err(ParseFault::At(_)) => Err(Fault::Config),
    }
}
