//! What the words of the contracts come to.
ghost use Rattle.std.specs.Prelude.{◌≡◌, ◌≤◌, ◌+◌, ◌^◌, ◌↔◌, ◌⊎◌, ℕ, Some};
ghost use Rattle.flt_flash.specs.State.{HasRisenBy, last_count};
ghost use Rattle.flt_flash.specs.Blocks.{BlocksState};
ghost use Rattle.flt_flash.specs.Calls.{NoErase};

/// A count has risen by a number exactly where it is that much more at least, or is at its greatest number.
pub fn counts_rise()
    ensures { (many before after : ℕ) → after ≤ last_count → HasRisenBy many before after ↔ ((before + many ≤ after) ⊎ (after ≡ last_count)) }
{}

/// No sector was erased exactly where the erases are known, are 2^32 below their greatest number at least, and are known as the same
/// number after the calls.
pub fn erases_stand()
    ensures { (before after : BlocksState) → NoErase before after ↔ ((erases : ℕ) × (before.device.erases ≡ Some erases)
        × (erases + 2 ^ 32 ≤ last_count) × (after.device.erases ≡ Some erases)) }
{}
