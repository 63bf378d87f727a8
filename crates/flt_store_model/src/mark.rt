//! The block that names a configuration.

/// What identifies the configuration of an image.
#[derive(Clone, Copy, Debug, PartialEq, Eq)]
pub struct Mark {
    /// The number of the configuration.
    pub id: u16,
    /// The number of its events.
    pub events: u16,
    /// The number of entries that its fault memory has room for.
    pub entries: u8,
}
