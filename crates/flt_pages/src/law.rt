//! The law of appending.
ghost use Rattle.std.specs.Prelude.{◌≡◌, ◌^◌, ◌<◌, ℕ, Bool, List, Ok, Some};
ghost use Rattle.flt_sector_model.specs.Gates.{gates_of};
ghost use Rattle.flt_pages.specs.Place.{HasBothGates, IsPlace, IsReadBack};

/// The law of appending: what the appends program is read back as what it is. A head makes a record that is not complete, its
/// gate completes it, and two gates with the same number make a sector valid.
pub fn appending()
    ensures record_is_read_back { (used page block size : ℕ) (valid : Bool) (numbers : List ℕ) (pages : List (List ℕ))
        → IsPlace used numbers pages page block size valid → IsReadBack used numbers pages page block size valid }
    ensures gates_are_read_back { (used sequence : ℕ) (pages : List (List ℕ)) → used < 2 ^ 16 → sequence < 2 ^ 32
        → HasBothGates used sequence pages → gates_of used pages ≡ Ok (Some sequence) }
{}
