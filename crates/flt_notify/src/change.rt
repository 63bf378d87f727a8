//! A change of a status byte.

/// A call of the status machine changed the status byte of an event (AUTOSAR Dem, in outline: the callback on a change of an event's
/// status).
#[derive(Clone, Copy, PartialEq, Eq, Debug)]
pub struct Change {
    /// The place of the call in the journal, from 0.
    pub place: u32,
    /// The number of the event.
    pub event: u16,
    /// The status byte before the call (ISO 14229-1).
    pub before: u8,
    /// The status byte after it, which is another one.
    pub after: u8,
}
