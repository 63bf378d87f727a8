//! The three kinds of value that a subscriber may keep (this profile), and the functions of the program.
ghost use Rattle.std.specs.Prelude.{◌≡◌, ◌<◌, ◌≤◌, ◌^◌};
ghost use Rattle.flt_notify.specs.Value.{next_value, word};

use crate::change::Change;

/// How many kinds there are, and so the rows of a table that may have them all. They have the numbers 0 to 2.
pub const KINDS: usize = 3;

/// The greatest value of a kind.
const MOST: u64 = 4_294_967_295;

/// A change as one number of 32 bits: the event in the upper half, then the two bytes.
fn word(change: &Change) -> u64
    ensures word { result ≡ word change.now }
    ensures range { result < 2 ^ 32 }
{
    change.event as u64 * 65_536 + change.before as u64 * 256 + change.after as u64
}

/// Kind 0 counts the changes, up to 2^32 - 1.
pub fn note_0(v: u64, c: &Change) -> u64
    requires { v < 2 ^ 32 }
    ensures { result ≡ next_value 0 v c.now }
{
    (v + 1).min(MOST)
}

/// Kind 1 is the last change, as one number of 32 bits.
pub fn note_1(v: u64, c: &Change) -> u64
    ensures { result ≡ next_value 1 v c.now }
{
    word(c)
}

/// Kind 2 is a checksum of all changes, which depends on their order too: 31 times the value and the change, modulo 2^32.
pub fn note_2(v: u64, c: &Change) -> u64
    requires { v < 2 ^ 32 }
    ensures { result ≡ next_value 2 v c.now }
{
    (31 * v + word(c)) % (MOST + 1)
}

/// The value of a kind after a change more, as it is written down.
pub(crate) fn next(kind: u8, v: u64, c: &Change) -> u64
    requires kind { kind ≤ 2 }
    requires range { v < 2 ^ 32 }
    ensures { result ≡ next_value kind v c.now }
{
    match kind {
        0 => note_0(v, c),
        1 => note_1(v, c),
        _ => note_2(v, c),
    }
}
