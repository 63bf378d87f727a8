//! A trace that is read as it is printed, token by token.
ghost use Rattle.std.specs.Prelude.{◌≡◌, Some, IfOk, IfSome, IsUtf8};
ghost use Rattle.serde_json.specs.Read.{read};
ghost use Rattle.flt_trace.specs.Trace.{array_tokens, last_tokens, list_tokens, texts_seen, texts_of, trace_data, trace_tokens};

use crate::object::trace::Trace;
use json::{Reader, Scratch, Token};
use std::alloc::{AllocError, Global};

/// The strings of an array that is open, up to its end; nothing where it has something else. There is room for this many without a copy.
fn strings_left<'a>(
    alloc: Global,
    reader: &mut Reader<'a>,
    room: usize,
) -> Result<Option<Vec<&'a str>>, AllocError>
    ensures { IfOk result (λ found. IfSome found (λ texts. reader.old ≡ array_tokens (texts_seen texts.items) reader.new)) }
{
    let mut texts = Vec::with_capacity(alloc, room)?;
    while let Some(token) = reader.next() {
        match token {
            Token::String(text) => texts.push(text)?,
            Token::EndArray => return Ok(Some(texts)),
            _ => return Ok(None),
        }
    }
    Ok(None)
}

/// The strings of a member of this key, which is next; nothing where something else is. There is room for this many without a copy.
fn strings_of<'a>(
    alloc: Global,
    reader: &mut Reader<'a>,
    key: &str,
    room: usize,
) -> Result<Option<Vec<&'a str>>, AllocError>
    ensures { IfOk result (λ found. IfSome found (λ texts. reader.old ≡ list_tokens key.now (texts_seen texts.items) reader.new)) }
{
    match reader.next() {
        Some(Token::Key(found)) if found == key => {}
        _ => return Ok(None),
    }
    match reader.next() {
        Some(Token::BeginArray) => strings_left(alloc, reader, room),
        _ => Ok(None),
    }
}

/// The string of a member of this key, which is next and last; nothing where something else is.
fn last_string<'a>(reader: &mut Reader<'a>, key: &str) -> Option<&'a str>
    ensures { IfSome result (λ text. reader.old ≡ last_tokens key.now text.now) }
{
    match reader.next() {
        Some(Token::Key(found)) if found == key => {}
        _ => return None,
    }
    let Some(Token::String(text)) = reader.next() else {
        return None;
    };
    let Some(Token::EndObject) = reader.next() else {
        return None;
    };
    match reader.next() {
        None => Some(text),
        Some(_) => None,
    }
}

/// The texts of a trace whose keys are in the order of print.
fn texts_in_order<'a>(
    alloc: Global,
    mut reader: Reader<'a>,
) -> Result<Option<Trace<'a>>, AllocError>
    ensures { IfOk result (λ found. IfSome found (λ trace. reader.entry ≡ trace_tokens (texts_of trace))) }
{
    let Some(Token::BeginObject) = reader.next() else {
        return Ok(None);
    };
    let Some(answers) = strings_of(alloc, &mut reader, "answers", 0)? else {
        return Ok(None);
    };
    let Some(base) = strings_of(alloc, &mut reader, "base", 0)? else {
        return Ok(None);
    };
    let Some(journal) = strings_of(alloc, &mut reader, "journal", answers.len())? else {
        return Ok(None);
    };
    let Some(script) = last_string(&mut reader, "script") else {
        return Ok(None);
    };
    Ok(Some(Trace {
        script,
        base,
        journal,
        answers,
    }))
}

/// The trace that bytes are, where each of its keys is there once and in the order in which they are printed: its strings are lent by the bytes
/// and by `scratch`, and no value is built. Nothing comes of other bytes, which may be a trace all the same. The error means that memory ran out.
pub fn read_line<'a>(
    alloc: Global,
    bytes: &'a [u8],
    scratch: &'a mut Scratch,
) -> Result<Option<Trace<'a>>, AllocError>
    ensures utf8 { IfOk result (λ found. IfSome found (λ trace. IsUtf8 bytes.now)) }
    ensures reads { IfOk result (λ found. IfSome found (λ trace. read bytes.now ≡ Some (trace_data (texts_of trace)))) }
{
    let Ok(text) = simdutf8::basic::from_utf8(bytes) else {
        return Ok(None);
    };
    let reader = Reader::new(text, scratch)?;
    texts_in_order(alloc, reader)
}
