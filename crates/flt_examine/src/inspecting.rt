//! What is reported about a dump.
ghost use Rattle.std.specs.Prelude.{◌≡◌, ◌≢◌, ◌++◌, ◌∷◌, [], IfOk, OnOk, Result, Err, codes};
ghost use Rattle.std.specs.Fmt.{decimal};
ghost use Rattle.flt_config.specs.declared.config.Config.{Config};
ghost use Rattle.flt_io.specs.Status.{status_number};
ghost use Rattle.flt_did.specs.Table.{dids_of};
ghost use Rattle.flt_store_model.specs.Holding.{Generation, Fault};
ghost use Rattle.flt_restore.specs.declared.fault.StartFault.TheVariants as faults;
ghost use Rattle.flt_report.specs.Boot.{boot_text};
ghost use Rattle.flt_filter.specs.Verdict.{Tells, due_of, line_due, reading_of, writing_of};
ghost use Rattle.flt_dump.specs.Held.{number_told};
ghost use Rattle.flt_dump.specs.Reads.{dump_content};
ghost use Rattle.flt_examine.specs.Inspection.{IsInspected, boot_told, generation_line, image_due, script_due, held_status};

use flt_did::{DID_ROWS, DidTable};
use flt_dump::{Dump, DumpFault, Insight, look_into, read_dump};
use flt_filter::{Judge, Verdict, answer};
use flt_io::{Sink, Source, Status};
use flt_report::put_refused;
use flt_restore::StartFault;
use flt_script::{ScriptFault, put_script_fault};
use std::alloc::{AllocError, Global};

/// What is reported about bytes that are not a script.
fn script_verdict(alloc: Global, fault: &ScriptFault) -> Result<Verdict, AllocError>
    ensures { IfOk result (λ verdict. due_of verdict ≡ script_due fault.now) }
{
    let mut text = Vec::new(alloc);
    put_script_fault(fault, &mut text)?;
    Ok(Verdict {
        status: Status::Refused.number(),
        text,
    })
}

/// What is reported about lines that are not pages, by the number of the first that is wrong.
fn line_verdict(alloc: Global, number: usize) -> Result<Verdict, AllocError>
    ensures { IfOk result (λ verdict. due_of verdict ≡ line_due 10 (codes "dump line " ++ decimal number)) }
{
    let words = format!(in alloc; "dump line {number}")?;
    Verdict::line(alloc, Status::NoPages, words.as_bytes())
}

/// Puts the number of a generation.
#[tactic(auto, unfolding(crate::specs::Inspection::generation_line))]
fn put_generation(number: u32, out: &mut Vec<u8>) -> Result<(), AllocError>
    ensures { OnOk result (out.new.items ≡ out.old.items ++ generation_line number) }
{
    let line = format!(in *out.allocator(); "generation {number}\n")?;
    out.extend_from_slice(line.as_bytes())
}

/// Puts the first line of an image that holds a generation of this number, or none for this reason, and answers the status.
fn put_held(held: Result<u32, StartFault>, out: &mut Vec<u8>) -> Result<Status, AllocError>
    requires { held ≢ Err faults.Flash }
    ensures { IfOk result (λ status. (c : Config) (judged : Result Generation Fault) → held ≡ number_told c judged →
        (status_number status ≡ held_status judged) × (out.new.items ≡ out.old.items ++ boot_text (boot_told c judged) ++ 10 ∷ [])) }
{
    match held {
        Ok(number) => {
            put_generation(number, out)?;
            Ok(Status::Done)
        }
        Err(fault) => {
            put_refused(&fault, out)?;
            Ok(Status::Damaged)
        }
    }
}

/// What is reported about the image of a dump.
fn image_verdict(alloc: Global, dump: Dump) -> Result<Verdict, AllocError>
    ensures { IfOk result (λ verdict. due_of verdict ≡ image_due (dump_content dump)) }
{
    let Insight { held, listing } = look_into(alloc, dump)?;
    let mut text = Vec::new(alloc);
    let status = put_held(held, &mut text)?;
    text.extend_from_slice(&listing)?;
    Ok(Verdict {
        status: status.number(),
        text,
    })
}

/// The inspection of a dump, by a table of data identifiers.
#[derive(Drop)]
struct Inspector<'a> {
    dids: &'a DidTable<DID_ROWS>,
}

impl Judge for Inspector<'_> {
    ghost is_judged = { λ inspector. IsInspected (dids_of inspector.dids.now) };

    /// What is reported about bytes.
    fn judge(self, alloc: Global, bytes: &[u8]) -> Result<Verdict, AllocError> {
        match read_dump(alloc, bytes, self.dids) {
            Ok(dump) => image_verdict(alloc, dump),
            Err(DumpFault::Memory) => Err(AllocError),
            Err(DumpFault::Script(fault)) => script_verdict(alloc, &fault),
            Err(DumpFault::Other) => Verdict::line(alloc, Status::Refused, b"script other"),
            Err(DumpFault::PageLine(number)) => line_verdict(alloc, number),
        }
    }
}

/// Reports what the image of a dump holds, and what it says line by line; and answers the exit status: 0 where it holds a generation, 6
/// where it is damaged or of another configuration; 2 where the lines before the image are no configuration; 3 where the source failed; 4
/// in place of another where the sink did; 7 if memory ran out; 9 if more than 16,777,216 bytes came; 10 where the lines after
/// are not the pages of both sectors.
pub fn inspect<S: Source, K: Sink>(
    alloc: Global,
    source: &mut S,
    sink: &mut K,
    dids: &DidTable<DID_ROWS>,
) -> u8
    ensures { Tells (IsInspected (dids_of dids.now)) (reading_of S.left S.faults source.old source.new) (writing_of K.held K.faults sink.old sink.new) result }
{
    answer(Inspector { dids }, alloc, source, sink)
}
