//! The rows of a table that are in optional places, found by their keys.
ghost use Rattle.std.specs.Prelude.{◌≡◌, ℕ, find, option_copied, IfSome};
ghost use Rattle.flt_did.specs.Keyed.{filled, has_key};

/// A row with a key.
pub trait Keyed {
    /// The key, less than 2^16.
    ghost key_of: { Self → ℕ };

    /// The key.
    fn key(&self) -> u16
        ensures { result ≡ key_of self.now };
}

/// The first row with this key. Empty places are passed over.
pub fn find_row<R: Keyed>(rows: &[Option<R>], key: u16) -> Option<&R>
    ensures found { option_copied result ≡ find (has_key R.key_of key) (filled rows.now) }
    ensures keyed { IfSome result (λ row. R.key_of row.now ≡ key) }
{
    for row in rows {
        if let Some(row) = row {
            if row.key() == key {
                return Some(row);
            }
        }
    }
    None
}
