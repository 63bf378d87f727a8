//! The functions of the subscribers, each beside what is known of it.
ghost use Rattle.std.specs.Prelude.{◌≡◌, ◌<◌, ◌≤◌, ◌^◌, ◌++◌, ◌∷◌, [], ◌↔◌, IsTrue, ℕ, length, IfSome, find, option_map, option_copied};
ghost use Rattle.std.specs.Borrow.{Bor};
ghost use Rattle.flt_notify.specs.declared.change.Change.{Change as ChangeView};
ghost use Rattle.flt_notify.specs.Value.{next_value, IsInRange};
ghost use Rattle.flt_notify.specs.Rows.{rows_kinds, row_kind, is_same_kind, has_kind, row_of, IsAnswerTo};

use crate::change::Change;
use crate::kinds::next;
use crate::row::{Row, Subscriber};
use arrayvec::ArrayVec;
use flt_did::find_row;

/// The functions of at most `ROWS` subscribers, each of another kind. They are only read.
#[derive(Drop)]
pub struct Subscribers<const ROWS: usize> {
    rows: ArrayVec<Option<Row>, ROWS>,
    ghost filled: { length (rows_kinds rows.items) ≡ length rows.items },
}

impl<const ROWS: usize> Subscribers<ROWS> {
    ghost use Rattle.flt_notify.specs.Subscribers.{kinds_of};

    /// No subscriber.
    pub(crate) fn new() -> Self
        ensures { kinds_of result ≡ [] }
    {
        Subscribers {
            rows: ArrayVec::new(),
        }
    }

    /// The row of a kind, where there is one.
    #[tactic(auto, using(crate::proofs::RowsLemmas::found_kind))]
    fn row(&self, kind: u8) -> Option<&Row>
        ensures row { option_copied result ≡ row_of self.now.rows.items kind }
        ensures found { option_map row_kind (option_copied result) ≡ find (is_same_kind kind) (kinds_of self.now) }
        ensures named { IfSome result (λ row. row.now.kind ≡ kind) }
        ensures range { IfSome result (λ row. row.now.kind ≤ 2) }
    {
        find_row(&self.rows, u16::from(kind))
    }

    /// Whether there is a subscriber of a kind.
    pub(crate) fn has(&self, kind: u8) -> bool
        ensures known { result ≡ has_kind (kinds_of self.now) kind }
        ensures range { IsTrue result → kind ≤ 2 }
    {
        self.row(kind).is_some()
    }

    /// Whether there are `ROWS` subscribers.
    pub(crate) fn is_full(&self) -> bool
        ensures full { IsTrue result ↔ (length (kinds_of self.now) ≡ ROWS) }
        ensures within { length (kinds_of self.now) ≤ ROWS }
    {
        self.rows.is_full()
    }

    /// Adds a subscriber of a kind, where there is room.
    pub(crate) fn push(&mut self, kind: u8, call: Subscriber)
        requires room { length (kinds_of self.old) < ROWS }
        requires kind { kind ≤ 2 }
        requires callable { (v : ℕ) (c : Bor ChangeView) → v < 2 ^ 32 → IsInRange c.now → Subscriber.pre call v c }
        requires value { (v : ℕ) (c : Bor ChangeView) (r : ℕ) → v < 2 ^ 32 → IsInRange c.now
            → Subscriber.post call v c r → r ≡ next_value kind v c.now }
        ensures { kinds_of self.new ≡ kinds_of self.old ++ kind ∷ [] }
    {
        self.rows.push(Some(Row { kind, call }));
    }

    /// The value of a kind after a change more: what its subscriber answers. The value of a kind without a subscriber goes on as it is
    /// written down.
    #[tactic(auto, using(crate::proofs::ValueLemmas::next_is_small))]
    pub(crate) fn tell(&self, kind: u8, v: u64, change: Change) -> u64
        requires kind { kind ≤ 2 }
        requires range { v < 2 ^ 32 }
        requires change { IsInRange change }
        ensures value { result ≡ next_value kind v change }
        ensures called { IsAnswerTo self.now.rows.items kind v change result }
        ensures range { result < 2 ^ 32 }
    {
        match self.row(kind) {
            Some(row) => (row.call)(v, &change),
            None => next(kind, v, &change),
        }
    }
}
