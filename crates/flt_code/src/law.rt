//! The law of tearing.
ghost use Rattle.std.specs.Prelude.{◌≡◌, ◌⊎◌, ℕ, List, None, false};
ghost use Rattle.flt_flash.specs.Image.{blank_page};
ghost use Rattle.flt_flash.specs.Tearing.{IsTornPage};
ghost use Rattle.flt_code.specs.Seal.{IsCodeWordOf, unsealed};
ghost use Rattle.flt_code.specs.Spoiled.{is_spoiled};

/// The law of tearing, instead of a checksum: a page torn between blank and a code word is no other code word. An
/// erase may also meet a page that was left torn: it turns a page that is not spoiled into no new code word. The first two
/// clauses say so of the pages, and the next two as a reader of the page sees it. Neither a program of a code word nor an
/// erase spoils a page: the last two.
pub fn tearing()
    ensures programmed { (asked page found torn : List ℕ) → IsCodeWordOf asked page → IsTornPage blank_page page torn → IsCodeWordOf found torn → torn ≡ page }
    ensures erased { (stood page found torn : List ℕ) → IsCodeWordOf stood page → IsTornPage page blank_page torn → IsCodeWordOf found torn → torn ≡ page }
    ensures program_or_none { (asked page torn : List ℕ) → IsCodeWordOf asked page → IsTornPage blank_page page torn → (torn ≡ page) ⊎ (unsealed torn ≡ None) }
    ensures erase_or_none { (stood torn : List ℕ) → is_spoiled stood ≡ false → IsTornPage stood blank_page torn → (torn ≡ stood) ⊎ (unsealed torn ≡ None) }
    ensures program_unspoiled { (asked page torn : List ℕ) → IsCodeWordOf asked page → IsTornPage blank_page page torn → is_spoiled torn ≡ false }
    ensures erase_unspoiled { (stood torn : List ℕ) → is_spoiled stood ≡ false → IsTornPage stood blank_page torn → is_spoiled torn ≡ false }
{}
