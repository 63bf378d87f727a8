//! What is reported about a trace.
ghost use Rattle.std.specs.Prelude.{◌≡◌, ◌++◌, IfOk, Some, codes};
ghost use Rattle.std.specs.Fmt.{decimal};
ghost use Rattle.flt_did.specs.Table.{dids_of};
ghost use Rattle.flt_filter.specs.Verdict.{Tells, due_of, line_due, reading_of, writing_of};
ghost use Rattle.serde_json.specs.View.{view};
ghost use Rattle.flt_trace.specs.Trace.{texts_of};
ghost use Rattle.flt_audit.specs.Audit.{IsAuditOf, IsAudited, IsDueOf, IsDueOfTexts};

use crate::replay::first_unlike;
use flt_dcm::Unit;
use flt_dem::Dem;
use flt_did::{DID_ROWS, DidTable};
use flt_filter::{Judge, Verdict, answer};
use flt_io::{Sink, Source, Status};
use flt_script::{ParseFault, Script, parse};
use flt_trace::{Trace, read_base, read_calls, read_line, read_trace};
use json::Scratch;
use serde_json::Value;
use std::alloc::{AllocError, Global};

/// What came of the calls of a trace, made again.
#[derive(Clone, Copy, Debug, PartialEq, Eq)]
pub(crate) enum Audited {
    /// The texts describe no life.
    NoLife,
    /// Each answer is the one that is due.
    AllDue,
    /// The answer at this place is another, and those before it are due.
    Differs(usize),
}

/// What is reported where each of these calls has its due answer.
fn yes(alloc: Global, calls: usize) -> Result<Verdict, AllocError>
    ensures { IfOk result (λ told. due_of told ≡ line_due 0 (codes "yes " ++ decimal calls)) }
{
    let words = format!(in alloc; "yes {calls}")?;
    Verdict::line(alloc, Status::Done, words.as_bytes())
}

/// What is reported where the answer at this place is the first that is not due.
fn no(alloc: Global, place: usize) -> Result<Verdict, AllocError>
    ensures { IfOk result (λ told. due_of told ≡ line_due 13 (codes "no " ++ decimal place)) }
{
    let words = format!(in alloc; "no {place}")?;
    Verdict::line(alloc, Status::OtherAnswer, words.as_bytes())
}

/// Makes the calls of a trace again, up to the first whose answer is not due.
fn judge_trace(
    alloc: Global,
    trace: &Trace<'_>,
    dids: DidTable<DID_ROWS>,
) -> Result<Audited, AllocError>
    ensures { IfOk result (IsAuditOf (dids_of dids) (texts_of trace.now)) }
{
    let script = match parse(alloc, trace.script.as_bytes(), &dids) {
        Ok(script) => script,
        Err(ParseFault::At(_)) => return Ok(Audited::NoLife),
        Err(ParseFault::Memory) => return Err(AllocError),
    };
    if trace.answers.len() != trace.journal.len() {
        return Ok(Audited::NoLife);
    }
    let Script { config, .. } = script;
    let Some(base) = read_base(alloc, &config, &trace.base)? else {
        return Ok(Audited::NoLife);
    };
    let Some(calls) = read_calls(alloc, &config, &trace.journal)? else {
        return Ok(Audited::NoLife);
    };
    let mut unit = Unit::make(Dem::make(config, dids));
    unit.boot(&base);
    match first_unlike(alloc, &mut unit, &calls, &trace.answers)? {
        None => Ok(Audited::AllDue),
        Some(place) => Ok(Audited::Differs(place)),
    }
}

/// What is reported about the texts of a trace.
fn judge_texts(
    alloc: Global,
    trace: &Trace<'_>,
    dids: DidTable<DID_ROWS>,
) -> Result<Verdict, AllocError>
    ensures { IfOk result (λ verdict. IsDueOfTexts (dids_of dids) (texts_of trace.now) (due_of verdict)) }
{
    match judge_trace(alloc, trace, dids)? {
        Audited::NoLife => Verdict::line(alloc, Status::NoTrace, b"shape"),
        Audited::AllDue => yes(alloc, trace.journal.len()),
        Audited::Differs(place) => no(alloc, place),
    }
}

/// What is reported about a value.
fn judge_value(
    alloc: Global,
    value: &Value,
    dids: DidTable<DID_ROWS>,
) -> Result<Verdict, AllocError>
    ensures { IfOk result (λ verdict. IsDueOf (dids_of dids) (Some (view value.now)) (due_of verdict)) }
{
    match read_trace(alloc, value)? {
        Some(trace) => judge_texts(alloc, &trace, dids),
        None => Verdict::line(alloc, Status::NoTrace, b"shape"),
    }
}

/// What is reported about bytes, by the value that they are.
fn judge_any(alloc: Global, bytes: &[u8], dids: DidTable<DID_ROWS>) -> Result<Verdict, AllocError>
    ensures { IfOk result (λ verdict. IsAudited (dids_of dids) bytes.now (due_of verdict)) }
{
    match Value::from_slice(alloc, bytes) {
        Ok(value) => judge_value(alloc, &value, dids),
        Err(error) if error.is_memory() => Err(AllocError),
        Err(_) => Verdict::line(alloc, Status::NoJson, b"json"),
    }
}

/// The audit of a trace, by a table of data identifiers.
#[derive(Drop)]
struct Auditor {
    dids: DidTable<DID_ROWS>,
}

impl Judge for Auditor {
    ghost is_judged = { λ auditor. IsAudited (dids_of auditor.dids) };

    /// What is reported about bytes. A trace that is as it is printed is read without a value, in a third of the time.
    fn judge(self, alloc: Global, bytes: &[u8]) -> Result<Verdict, AllocError> {
        let mut scratch = Scratch::new(alloc);
        match read_line(alloc, bytes, &mut scratch)? {
            Some(trace) => judge_texts(alloc, &trace, self.dids),
            None => judge_any(alloc, bytes, self.dids),
        }
    }
}

/// Audits a trace: the calls of its journal are made again on a status machine that starts from its base, and each answer is compared
/// with the machine's. It writes `yes` and the number of calls, or `no` and the first place whose answer is another, and answers the exit
/// status: 0 and 13 for these; 3 where the source failed; 4 in place of another where the sink did; 7 where memory ran out; 9 where
/// more than 16,777,216 bytes came; 11 where they are no JSON; 12 where that is no trace of a life.
pub fn audit<S: Source, K: Sink>(
    alloc: Global,
    source: &mut S,
    sink: &mut K,
    dids: DidTable<DID_ROWS>,
) -> u8
    ensures { Tells (IsAudited (dids_of dids)) (reading_of S.left S.faults source.old source.new) (writing_of K.held K.faults sink.old sink.new) result }
{
    answer(Auditor { dids }, alloc, source, sink)
}
