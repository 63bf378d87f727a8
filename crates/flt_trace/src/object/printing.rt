//! A trace that is printed.
ghost use Rattle.std.specs.Prelude.{◌≡◌, Some, IfOk, IsUtf8, map};
ghost use Rattle.std.specs.String.{string_bytes};
ghost use Rattle.serde_json.specs.Data.{array};
ghost use Rattle.serde_json.specs.Read.{read};
ghost use Rattle.serde_json.specs.View.{view};
ghost use Rattle.flt_trace.specs.Trace.{own_texts, strings, trace_data, trace_line};

use crate::object::trace::LifeTexts;
use serde_json::{Value, json};
use std::alloc::{AllocError, Global};

/// Strings as a value: an array.
fn array_of(alloc: Global, texts: Vec<String>) -> Result<Value, AllocError>
    ensures { IfOk result (λ value. view value ≡ array (strings (map string_bytes texts.items))) }
{
    let mut values = Vec::with_capacity(alloc, texts.len())?;
    for text in texts {
        values.push(Value::String(text))?;
    }
    Ok(Value::from(values))
}

/// The texts of a life as a value.
#[tactic(auto, unfolding(crate::specs::Trace::trace_data))]
fn value_of(alloc: Global, texts: LifeTexts) -> Result<Value, AllocError>
    ensures { IfOk result (λ value. view value ≡ trace_data (own_texts texts)) }
{
    let LifeTexts {
        script,
        base,
        journal,
        answers,
    } = texts;
    let script = Value::String(script);
    let base = array_of(alloc, base)?;
    let journal = array_of(alloc, journal)?;
    let answers = array_of(alloc, answers)?;
    json!(in alloc; {"answers": answers, "base": base, "journal": journal, "script": script})
}

/// The texts of a life as one line of JSON, which is read again as what it was printed of. The error means that memory ran out.
pub fn print_trace(alloc: Global, texts: LifeTexts) -> Result<Vec<u8>, AllocError>
    ensures line { IfOk result (λ line. line.items ≡ trace_line (own_texts texts)) }
    ensures utf8 { IfOk result (λ line. IsUtf8 line.items) }
    ensures reads { IfOk result (λ line. read line.items ≡ Some (trace_data (own_texts texts))) }
{
    let value = value_of(alloc, texts)?;
    let mut line = value.to_vec(alloc)?;
    line.push(b'\n')?;
    Ok(line)
}
