//! One row of the table: a stored function beside what is known of it.
ghost use Rattle.std.specs.Prelude.{◌≡◌, ◌<◌, ◌≤◌, ◌^◌, ℕ};
ghost use Rattle.std.specs.Borrow.{Bor};
ghost use Rattle.flt_notify.specs.declared.change.Change.{Change as ChangeView};
ghost use Rattle.flt_notify.specs.Value.{next_value, IsInRange};

use crate::change::Change;
use flt_did::Keyed;

/// What a subscriber makes of its value, from 0 to 2^32 - 1, and a change.
pub type Subscriber = fn(u64, &Change) -> u64;

/// A kind with its function, which may be called on every value and every change, and answers the written value of the kind.
#[derive(Drop)]
pub(crate) struct Row {
    pub(crate) kind: u8,
    pub(crate) call: Subscriber,
    ghost kind_in_range: { kind ≤ 2 },
    ghost callable: { (v : ℕ) (c : Bor ChangeView) → v < 2 ^ 32 → IsInRange c.now → Subscriber.pre call v c },
    ghost value: { (v : ℕ) (c : Bor ChangeView) (r : ℕ) → v < 2 ^ 32 → IsInRange c.now
        → Subscriber.post call v c r → r ≡ next_value kind v c.now },
}

impl Keyed for Row {
    ghost key_of = { λ row. row.kind };

    fn key(&self) -> u16 {
        u16::from(self.kind)
    }
}
