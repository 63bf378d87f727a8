//! Bytes as a text.
ghost use Rattle.std.specs.Prelude.{◌≡◌, IfOk};
ghost use Rattle.std.specs.String.{string_bytes};

use std::alloc::AllocError;

/// The text of bytes that were put for a report. All of these are ASCII; other bytes would be answered as if memory were short.
pub(crate) fn text_of(bytes: Vec<u8>) -> Result<String, AllocError>
    ensures { IfOk result (λ text. string_bytes text ≡ bytes.items) }
{
    String::from_utf8(bytes).ok().ok_or(AllocError)
}
