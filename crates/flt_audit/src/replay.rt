//! The calls of a journal, made again.
ghost use Rattle.std.specs.Prelude.{◌≡◌, [], All, IfOk, length, map};
ghost use Rattle.flt_model.specs.Answer.{answers};
ghost use Rattle.flt_model.specs.Start.{Start};
ghost use Rattle.flt_report.specs.Answer.{reply_text};
ghost use Rattle.flt_turn.specs.Journal.{ops_of};
ghost use Rattle.flt_dcm.specs.Unit.{IsAdmitted, Stands};
ghost use Rattle.flt_dcm.specs.Whole.{config_of, unit_seen};
ghost use Rattle.flt_trace.specs.Trace.{texts_seen};
ghost use Rattle.flt_audit.specs.Audit.{unlike_from};

use arrayvec::ArrayVec;
use flt_dcm::Unit;
use flt_life_model::Entry;
use flt_model::{Op, RESPONSE};
use flt_report::put_reply;
use std::alloc::{AllocError, Global};

/// The first place whose text is not that of the answer to its call, if there is one. Each call is made once, on the one machine, and no
/// further than to that place.
pub(crate) fn first_unlike(
    alloc: Global,
    unit: &mut Unit,
    calls: &[Entry<Op>],
    texts: &[&str],
) -> Result<Option<usize>, AllocError>
    requires many { length texts.now ≡ length calls.now }
    requires admitted { All (IsAdmitted (config_of unit.old)) (ops_of calls.now) }
    ensures { IfOk result (λ found. (life : Start) → Stands life [] (unit_seen unit.old) →
        found ≡ unlike_from 0 (texts_seen texts.now) (map reply_text (answers life [] (ops_of calls.now)))) }
{
    let mut response = ArrayVec::<u8, RESPONSE>::new();
    let mut text = Vec::new(alloc);
    for place in 0..calls.len() {
        let kind = unit.apply_into(&calls[place].op, &mut response);
        text.clear();
        put_reply(kind, &response, &mut text)?;
        if text.as_slice() != texts[place].as_bytes() {
            return Ok(Some(place));
        }
    }
    Ok(None)
}
