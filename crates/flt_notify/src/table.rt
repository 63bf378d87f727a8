//! The table of subscribers, with their values.
ghost use Rattle.std.specs.Prelude.{◌≡◌, ◌<◌, ◌≤◌, ◌^◌, ◌↔◌, ◌++◌, ◌∷◌, [], ℕ, length, true, false, Err, OnOk, OnErr, slice_set, replicate};
ghost use Rattle.std.specs.Borrow.{Bor};
ghost use Rattle.flt_notify.specs.declared.change.Change.{Change as ChangeView};
ghost use Rattle.flt_notify.specs.Value.{next_value, IsInRange};
ghost use Rattle.flt_notify.specs.Rows.{has_kind};

use crate::change::Change;
use crate::row::Subscriber;
use crate::subscribers::Subscribers;
use crate::values::Values;
use thiserror::Error;

/// Why a subscriber is not added. The table stays as it was.
#[derive(Clone, Copy, PartialEq, Eq, Debug, Error)]
pub enum SubFault {
    /// The table already has a subscriber of this kind.
    #[error("the table already has a subscriber of this kind")]
    KindTwice,
    /// The table does not have one, and all its rows are taken.
    #[error("all rows of the table are taken")]
    TableFull,
}

/// The subscribers of status changes, at most `ROWS`, each of another kind, with their values.
#[derive(Drop)]
pub struct SubTable<const ROWS: usize> {
    pub(crate) subscribers: Subscribers<ROWS>,
    pub(crate) values: Values,
}

impl<const ROWS: usize> SubTable<ROWS> {
    ghost use Rattle.flt_notify.specs.Table.{IsAtZero, kinds_in, values_in, value_of_kind};

    /// A table without subscribers.
    pub fn new() -> Self
        ensures kinds { kinds_in result ≡ [] }
        ensures zero { IsAtZero result }
    {
        SubTable {
            subscribers: Subscribers::new(),
            values: Values::zero(),
        }
    }

    /// Adds a subscriber of a kind from 0 to 2, with the value 0. Its function may be called on every value from 0 to 2^32 - 1 and
    /// every change, and answers the written value of the kind there: the table keeps these facts beside it.
    #[tactic(auto, using(crate::proofs::ValueLemmas::zero_stays))]
    pub fn add(&mut self, kind: u8, call: Subscriber) -> Result<(), SubFault>
        requires kind { kind ≤ 2 }
        requires callable { (v : ℕ) (c : Bor ChangeView) → v < 2 ^ 32 → IsInRange c.now → Subscriber.pre call v c }
        requires value { (v : ℕ) (c : Bor ChangeView) (r : ℕ) → v < 2 ^ 32 → IsInRange c.now
            → Subscriber.post call v c r → r ≡ next_value kind v c.now }
        ensures ok { OnOk result (kinds_in self.new ≡ kinds_in self.old ++ kind ∷ []) }
        ensures values { OnOk result (values_in self.new ≡ slice_set (values_in self.old) kind 0) }
        ensures zero { IsAtZero self.old → IsAtZero self.new }
        ensures err { OnErr result ((kinds_in self.new ≡ kinds_in self.old) × (values_in self.new ≡ values_in self.old)) }
        ensures twice { (result ≡ Err SubFault.KindTwice) ↔ (has_kind (kinds_in self.old) kind ≡ true) }
        ensures full { (result ≡ Err SubFault.TableFull) ↔ ((has_kind (kinds_in self.old) kind ≡ false) × (length (kinds_in self.old) ≡ ROWS)) }
    {
        if self.subscribers.has(kind) {
            return Err(SubFault::KindTwice);
        }
        if self.subscribers.is_full() {
            return Err(SubFault::TableFull);
        }
        self.subscribers.push(kind, call);
        self.values.start(kind);
        Ok(())
    }

    /// The value of a kind, where it has a subscriber.
    pub fn value(&self, kind: u8) -> Option<u64>
        ensures { result ≡ value_of_kind self.now kind }
    {
        if self.subscribers.has(kind) {
            Some(self.values.of(kind))
        } else {
            None
        }
    }
}
