ghost use Rattle.std.specs.Prelude.{◌≡◌, option_map};
ghost use Rattle.flt_script.specs.Bytes.{bytes_of};

use crate::numeral::read_hexadecimal;
use crate::text::Words;
use arrayvec::ArrayVec;

/// One byte or more, at most this many, each of two hexadecimal digits in either case.
#[tactic(auto, unfolding(crate::specs::Bytes::bytes_of))]
pub(crate) fn read_bytes<const MOST: usize>(words: Words<'_>) -> Option<ArrayVec<u8, MOST>>
    ensures { option_map (λ bytes. bytes.items) result ≡ bytes_of MOST words.entry }
{
    let mut bytes = ArrayVec::new();
    for word in words {
        if bytes.is_full() {
            return None;
        }
        bytes.push(read_hexadecimal(2, word)? as u8);
    }
    if bytes.is_empty() {
        return None;
    }
    Some(bytes)
}
