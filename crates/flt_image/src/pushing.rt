//! Bytes that are put one after the other, and read at their place.
ghost use Rattle.std.specs.Prelude.{◌≡◌, ◌≤◌, ◌<◌, ◌+◌, ◌++◌, length, replicate};
ghost use Rattle.flt_store_model.specs.Reading.{word_at};

use arrayvec::ArrayVec;

/// The bytes of one block, at most 128.
pub type BlockBytes = ArrayVec<u8, 128>;

/// As many zeros as a block may have.
const ZEROS: [u8; 128] = [0; 128];

pub(crate) fn push_all(out: &mut BlockBytes, bytes: &[u8])
    requires { length out.old.items + length bytes.now ≤ 128 }
    ensures { out.new.items ≡ out.old.items ++ bytes.now }
{
    out.try_extend_from_slice(bytes).unwrap();
}

pub(crate) fn push_zeros(out: &mut BlockBytes, count: usize)
    requires { length out.old.items + count ≤ 128 }
    ensures { out.new.items ≡ out.old.items ++ replicate count 0 }
{
    push_all(out, &ZEROS[..count]);
}

/// The number in two bytes, big-endian.
pub(crate) fn word_at(bytes: &[u8], at: usize) -> u16
    requires { at + 1 < length bytes.now }
    ensures { result ≡ word_at bytes.now at }
{
    u16::from_be_bytes([bytes[at], bytes[at + 1]])
}
