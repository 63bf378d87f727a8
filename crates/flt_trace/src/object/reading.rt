//! A trace that is read.
ghost use Rattle.std.specs.Prelude.{◌≡◌, ◌≢◌, ℕ, List, Some, IfOk, MatchOption};
ghost use Rattle.serde_json.specs.Data.{array};
ghost use Rattle.serde_json.specs.Find.{get};
ghost use Rattle.serde_json.specs.View.{view};
ghost use Rattle.flt_trace.specs.Trace.{IsTrace, Texts, member_count, texts_seen, strings, texts_of};

use crate::object::trace::Trace;
use serde_json::Value;
use std::alloc::{AllocError, Global};

/// How many members a trace has.
const MEMBERS: usize = 4;

/// The strings of an array that has nothing else.
fn strings_in<'a>(alloc: Global, value: &'a Value) -> Result<Option<Vec<&'a str>>, AllocError>
    ensures { IfOk result (λ found. MatchOption found
        ((texts : List (List ℕ)) → view value.now ≢ array (strings texts))
        (λ texts. view value.now ≡ array (strings (texts_seen texts.items)))) }
{
    let Some(items) = value.as_array() else {
        return Ok(None);
    };
    let mut texts = Vec::with_capacity(alloc, items.len())?;
    for item in items {
        match item.as_str() {
            Some(text) => texts.push(text)?,
            None => return Ok(None),
        }
    }
    Ok(Some(texts))
}

/// The strings of the array under a key that has nothing else.
fn strings_under<'a>(
    alloc: Global,
    value: &'a Value,
    key: &str,
) -> Result<Option<Vec<&'a str>>, AllocError>
    ensures { IfOk result (λ found. MatchOption found
        ((texts : List (List ℕ)) → get key.now (view value.now) ≢ Some (array (strings texts)))
        (λ texts. get key.now (view value.now) ≡ Some (array (strings (texts_seen texts.items))))) }
{
    match value.get(key) {
        Some(found) => strings_in(alloc, found),
        None => Ok(None),
    }
}

/// How many members a value has, where it is an object.
fn member_count(value: &Value) -> usize
    ensures { result ≡ member_count (view value.now) }
{
    match value.as_object() {
        Some(members) => members.len(),
        None => 0,
    }
}

/// The trace that a value is: an object of the four keys `script`, `base`, `journal` and `answers`, with a string and three arrays of
/// strings. The error means that memory ran out.
pub fn read_trace<'a>(alloc: Global, value: &'a Value) -> Result<Option<Trace<'a>>, AllocError>
    ensures { IfOk result (λ found. MatchOption found
        ((texts : Texts) → IsTrace (view value.now) texts → ⊥)
        (λ trace. IsTrace (view value.now) (texts_of trace))) }
{
    if member_count(value) != MEMBERS {
        return Ok(None);
    }
    let Some(script) = value.get("script").and_then(Value::as_str) else {
        return Ok(None);
    };
    let Some(base) = strings_under(alloc, value, "base")? else {
        return Ok(None);
    };
    let Some(journal) = strings_under(alloc, value, "journal")? else {
        return Ok(None);
    };
    let Some(answers) = strings_under(alloc, value, "answers")? else {
        return Ok(None);
    };
    Ok(Some(Trace {
        script,
        base,
        journal,
        answers,
    }))
}
