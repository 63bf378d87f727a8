//! One row of the table: a stored function with what is known of it.
ghost use Rattle.std.specs.Prelude.{◌≡◌, ℕ, ◌<◌, ◌≤◌, ◌^◌, Some};
ghost use Rattle.std.specs.Borrow.{Bor};
ghost use Rattle.flt_model.specs.Frame.{did_value};
ghost use Rattle.flt_did.specs.declared.signals.Signals.{Signals as SignalValues};

use crate::Signals;
use crate::keyed::Keyed;

/// What a data identifier reads from the signals.
pub type Reader = fn(&Signals) -> u64;

/// A data identifier with its function, which may be called on all signals, returns the specified value
/// there and fits the width.
#[derive(Drop)]
pub struct Row {
    /// Its number.
    pub id: u16,
    /// The bytes of its value, at most 8.
    pub width: u8,
    /// Its function.
    pub read: Reader,
    ghost width_in_range: { width ≤ 8 },
    ghost callable: { (s : Bor SignalValues) → Reader.pre read s },
    ghost value: { (s : Bor SignalValues) (r : ℕ) → Reader.post read s r → did_value id s.now.values ≡ Some r },
    ghost narrow: { (s : Bor SignalValues) (r : ℕ) → Reader.post read s r → r < 256 ^ width },
}

impl Keyed for Row {
    ghost key_of = { λ row. row.id };

    fn key(&self) -> u16 {
        self.id
    }
}
