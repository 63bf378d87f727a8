//! What a read found.

/// What a read found.
#[derive(Clone, Copy, Debug, PartialEq, Eq)]
pub enum Got {
    /// This many bytes, 1 to 128, of this copy: 1 or 2 of a redundant block, else 1.
    Bytes { length: usize, copy: u8 },
    /// The block was never written.
    Missing,
    /// The block was made invalid.
    Invalid,
}
