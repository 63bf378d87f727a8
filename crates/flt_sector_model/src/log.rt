//! The items of a sector's log.

/// What is at a page of the log.
#[derive(Clone, Copy, Debug, PartialEq, Eq)]
pub enum Item {
    /// The end: nothing was written from here on.
    End,
    /// A head that was torn; it takes one page.
    Torn,
    /// A record of `length` bytes, 0 to 128, whose head is here: the head, a page for every 32 bytes or part of 32, and
    /// the gate. It is complete if its gate is present.
    Kept {
        block: u16,
        length: u16,
        valid: bool,
        complete: bool,
    },
}
