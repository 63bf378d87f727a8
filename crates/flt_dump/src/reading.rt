//! A dump that is read.
ghost use Rattle.std.specs.Prelude.{◌≡◌};
ghost use Rattle.std.specs.List.{list_any};
ghost use Rattle.flt_did.specs.Table.{dids_of};
ghost use Rattle.flt_step.specs.Part.{part_of};
ghost use Rattle.flt_script.specs.Script.{content};
ghost use Rattle.flt_script.specs.Gives.{IsAsDefined};
ghost use Rattle.flt_dump.specs.Dump.{dump_of, has_begun_life, has_step};
ghost use Rattle.flt_dump.specs.Reads.{dump_content, dump_refusal_of};

use crate::dump::{Dump, DumpFault};
use crate::lines::find_image;
use crate::pages::{PagesFault, read_pages};
use flt_did::{DID_ROWS, DidTable};
use flt_script::{LineCause, ParseFault, Script, ScriptFault, parse};
use flt_step::Part;
use std::alloc::Global;

/// Whether a part has a step.
fn has_step(part: &Part) -> bool
    ensures { result ≡ has_step (part_of part.now) }
{
    match part {
        Part::One(_) => true,
        Part::Lanes(lanes) => lanes.iter().any(|lane| !lane.is_empty()),
    }
}

/// Whether a life has a step.
fn life_has_step(parts: &[Part]) -> bool
    ensures { result ≡ list_any (λ part. has_step (part_of part)) parts.now }
{
    parts.iter().any(|part| has_step(part))
}

/// Whether one of these lives has a step.
fn lives_have_step(lives: &[Vec<Part>]) -> bool
    ensures { result ≡ list_any (λ life. list_any (λ part. has_step (part_of part)) life.items) lives.now }
{
    lives.iter().any(|life| life_has_step(life))
}

/// The script has a step, or the end of a life.
fn has_begun(script: &Script) -> bool
    ensures { result ≡ has_begun_life (content script.now) }
{
    1 < script.lives.len() || lives_have_step(&script.lives)
}

/// Reads a dump: the lines of a configuration, a line `image`, and a line of 64 hexadecimal digits for each page of both sectors, those
/// of sector 0 first. Its events may use the data identifiers of the table.
pub fn read_dump(alloc: Global, bytes: &[u8], dids: &DidTable<DID_ROWS>) -> Result<Dump, DumpFault>
    ensures { IsAsDefined dump_content dump_refusal_of result (dump_of (dids_of dids.now) bytes.now) }
{
    let Some(image) = find_image(bytes) else {
        return Err(DumpFault::Script(ScriptFault {
            line: 1,
            cause: LineCause::Form,
        }));
    };
    let script = match parse(alloc, &bytes[..image.from], dids) {
        Ok(script) => script,
        Err(ParseFault::At(fault)) => return Err(DumpFault::Script(fault)),
        Err(ParseFault::Memory) => return Err(DumpFault::Memory),
    };
    if has_begun(&script) {
        return Err(DumpFault::Other);
    }
    let Script { config, .. } = script;
    let count = 2 * usize::from(config.config().pages);
    match read_pages(alloc, &bytes[image.behind..], image.before + 2, count) {
        Ok(pages) => Ok(Dump { config, pages }),
        Err(PagesFault::Line(number)) => Err(DumpFault::PageLine(number)),
        Err(PagesFault::Memory) => Err(DumpFault::Memory),
    }
}
