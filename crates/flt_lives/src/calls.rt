//! Where the calls are written that the steps of a life make.
ghost use Rattle.std.specs.Prelude.{◌≡◌, ◌+◌, ◌-◌, ◌≤◌, ◌∷◌, [], ℕ, vec_len};
ghost use Rattle.std.specs.Vec.{vec_capacity};
ghost use Rattle.std.proofs.Common.{rules};
ghost use Rattle.flt_life_model.specs.Journal.{Journal, entry};
ghost use Rattle.flt_lives.specs.Written.{HasWritten};

use flt_life_model::Entry;
use flt_model::Op;

/// What takes the calls that steps make of the status machine, one after the other.
pub trait CallJournal {
    /// For how many more it has room, at least.
    ghost left: { Self → ℕ };

    /// It took these calls, the newest first, after those before.
    ghost takes: { Journal → Self → Self → Type 0 };

    /// Writes a call of the only lane after those before.
    fn write(&mut self, op: Op)
        requires left { 1 ≤ left self.old }
        ensures left { left self.old ≤ left self.new + 1 }
        ensures takes { (calls : Journal) (first : _) → takes calls first self.old → takes (entry 0 op ∷ calls) first self.new };

    ghost none: { (journal : Self) → takes [] journal journal };
}

impl CallJournal for Vec<Entry<Op>> {
    ghost left = { λ journal. vec_capacity journal - vec_len journal };

    ghost takes = { HasWritten };

    ghost none = { λ journal. Prim.search rules };

    fn write(&mut self, op: Op) {
        self.push_reserved(Entry { lane: 0, op });
    }
}

/// Keeps no call, for steps whose calls nobody reads.
#[derive(Drop)]
pub struct NoJournal;

impl CallJournal for NoJournal {
    ghost left = { λ journal. 2 };

    ghost takes = { λ calls before after. Unit {0} };

    ghost none = { λ journal. tt };

    fn write(&mut self, _op: Op) {}
}
