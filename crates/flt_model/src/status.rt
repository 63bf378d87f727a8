//! The status byte of an event, as bits, and the rank of its entry.
ghost use Rattle.std.specs.Prelude.{◌≡◌};
ghost use Rattle.flt_model.specs.Entry.{is_worse as is_worse_rank, gives_way as rank_gives_way};

/// The bits of a status byte (ISO 14229-1, DTC status bits), from the lowest.
#[derive(Clone, Copy, PartialEq, Eq, Debug)]
pub struct Status {
    /// Bit 0, testFailed.
    pub test_failed: bool,
    /// Bit 1, testFailedThisOperationCycle.
    pub failed_this_cycle: bool,
    /// Bit 2, pendingDTC.
    pub pending: bool,
    /// Bit 3, confirmedDTC.
    pub confirmed: bool,
    /// Bit 4, testNotCompletedSinceLastClear.
    pub not_completed_since_clear: bool,
    /// Bit 5, testFailedSinceLastClear.
    pub failed_since_clear: bool,
    /// Bit 6, testNotCompletedThisOperationCycle.
    pub not_completed_this_cycle: bool,
    /// Bit 7, warningIndicatorRequested.
    pub indicator_requested: bool,
}

/// What decides which entry of a full fault memory gives way.
#[derive(Clone, Copy, PartialEq, Eq, Debug)]
pub struct Rank {
    /// The priority number of the entry's event, of which 1 is the highest priority.
    pub priority: u8,
    /// Whether the last test of the event did not fail.
    pub passive: bool,
}

impl Rank {
    /// Whether this rank is worse than the other: of a greater number, or of an equal one and passive
    /// where the other is active.
    pub fn is_worse(self, other: Rank) -> bool
        ensures { result ≡ is_worse_rank self other }
    {
        (other.priority < self.priority)
            | ((self.priority == other.priority) & (self.passive & !other.passive))
    }

    /// Whether an entry of this rank gives way to an event of this priority number: its number is
    /// greater, or equal and it is passive.
    pub fn gives_way(self, priority: u8) -> bool
        ensures { result ≡ rank_gives_way self priority }
    {
        (priority < self.priority) | ((self.priority == priority) & self.passive)
    }
}
