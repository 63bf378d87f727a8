//! A page of 16 bytes and their complements, and the pages that no program or erase of one can have left.
ghost use Rattle.std.specs.Prelude.{◌≡◌, ℕ, List, Some, IfSome, IfNone};
ghost use Rattle.flt_code.specs.Seal.{sealed, unsealed, IsCodeWordOf};
ghost use Rattle.flt_code.specs.Spoiled.{is_spoiled};

/// The page of 16 bytes, followed by their complements.
pub fn seal(bytes: &[u8; 16]) -> [u8; 32]
    ensures page { result ≡ sealed bytes.now }
    ensures code_word { IsCodeWordOf bytes.now result }
    ensures unsealed { unsealed result ≡ Some bytes.now }
{
    let bytes = *bytes;
    with_complements(&bytes)
}

fn with_complements(bytes: &[u8; 16]) -> [u8; 32]
    ensures { result ≡ sealed bytes.now }
{
    let mut page = [0; 32];
    for byte in 0..16 {
        page[byte] = bytes[byte];
        page[16 + byte] = 255 - bytes[byte];
    }
    page
}

/// The 16 bytes of a code word; `None` if and only if the page is not a code word.
pub fn unseal(page: &[u8; 32]) -> Option<[u8; 16]>
    ensures bytes { IfSome result (λ bytes. IsCodeWordOf bytes page.now) }
    ensures none { IfNone result ((bytes : List ℕ) → IsCodeWordOf bytes page.now → ⊥) }
    ensures unsealed { result ≡ unsealed page.now }
{
    let mut bytes = [0; 16];
    bytes.copy_from_slice(&page[..16]);
    if *page == seal(&bytes) {
        Some(bytes)
    } else {
        None
    }
}

/// Whether a bit of the first 16 bytes and the same bit of the last 16 bytes are both 0.
pub fn is_spoiled(page: &[u8; 32]) -> bool
    ensures { result ≡ is_spoiled page.now }
{
    for byte in 0..16 {
        if page[byte] | page[16 + byte] != 255 {
            return true;
        }
    }
    false
}
