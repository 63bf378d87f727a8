//! The faults that a bench is ordered to make.
ghost use Rattle.std.specs.Prelude.{◌≡◌, ℕ};
ghost use Rattle.flt_flash.specs.Arms.{idle_arm, after_write, mutes, after_read, stands, is_due_cut, is_due_fault};

/// Which bits of a torn program or erase take effect; the others stay as before.
#[derive(Clone, Copy, Debug, PartialEq, Eq)]
pub enum Pattern {
    Nothing,
    All,
    /// Bytes 16 to 31 of a program, pages 2 and above of an erase.
    Tail,
    /// Bits 1, 3, 5 and 7 of each byte, bit 0 being the lowest.
    Odd,
}

/// A fault that remains until it has fired. Operations made while the power is off count for none.
#[derive(Clone, Copy, Debug, PartialEq, Eq)]
pub enum Arm {
    /// Tears the program or erase number `after` from the arming on, fails it, and turns the flash off. `after` is
    /// at least 1. Where several cuts and faults meet at one operation one alone acts, a cut rather than a fault and of
    /// one kind the one armed first, and all of them are gone.
    Cut { after: u32, pattern: Pattern },
    /// Tears the program or erase number `after` from the arming on, at least 1, and fails it.
    Fault { after: u32, pattern: Pattern },
    /// Makes the next `times` reads of a page fail. Two mutes of one page both count each of its reads. With 0 `times` it
    /// does nothing, and is gone with the next operation.
    Mute { sector: u8, page: u16, times: u16 },
}

/// An arm, with the number of boots and the count of faults when it was made.
#[derive(Clone, Copy, Debug, PartialEq, Eq)]
pub struct ArmMade {
    pub arm: Arm,
    pub boots: u16,
    pub faults: u64,
}

/// An arm with nothing left to do, which fills the free places of a list of arms.
impl Default for Arm {
    ghost is_default = { λ arm. arm ≡ idle_arm };

    fn default() -> Self {
        Arm::Mute {
            sector: 0,
            page: 0,
            times: 0,
        }
    }
}

/// An arm with nothing left to do, before any boot or fault.
impl Default for ArmMade {
    ghost is_default = { λ made. made ≡ record { arm = idle_arm; boots = 0; faults = 0 } };

    fn default() -> Self {
        ArmMade {
            arm: Arm::default(),
            boots: 0,
            faults: 0,
        }
    }
}

impl Arm {
    /// The arm after one more program or erase.
    pub(crate) fn after_write(self) -> Arm
        ensures { result ≡ after_write self }
    {
        match self {
            Arm::Cut { after, pattern } => Arm::Cut {
                after: after.saturating_sub(1),
                pattern,
            },
            Arm::Fault { after, pattern } => Arm::Fault {
                after: after.saturating_sub(1),
                pattern,
            },
            Arm::Mute { .. } => self,
        }
    }

    /// The arm after one more read of this page.
    pub(crate) fn after_read(self, sector: u8, page: u16) -> Arm
        ensures { result ≡ after_read sector page self }
    {
        match self {
            Arm::Mute {
                sector: muted_sector,
                page: muted_page,
                times,
            } if muted_sector == sector && muted_page == page => Arm::Mute {
                sector: muted_sector,
                page: muted_page,
                times: times.saturating_sub(1),
            },
            _ => self,
        }
    }

    /// Whether it makes reads of this page fail.
    pub(crate) fn mutes(&self, sector: u8, page: u16) -> bool
        ensures { result ≡ mutes sector page self.now }
    {
        match self {
            Arm::Mute {
                sector: muted_sector,
                page: muted_page,
                times,
            } => *muted_sector == sector && *muted_page == page && *times > 0,
            _ => false,
        }
    }

    /// Whether it has something left to do.
    pub(crate) fn stands(&self) -> bool
        ensures { result ≡ stands self.now }
    {
        match self {
            Arm::Cut { after, .. } | Arm::Fault { after, .. } => *after > 0,
            Arm::Mute { times, .. } => *times > 0,
        }
    }

    /// Whether it is a cut that has come to its program or erase.
    pub(crate) fn is_due_cut(&self) -> bool
        ensures { result ≡ is_due_cut self.now }
    {
        matches!(self, Arm::Cut { after: 0, .. })
    }

    /// Whether it is a fault that has come to its program or erase.
    pub(crate) fn is_due_fault(&self) -> bool
        ensures { result ≡ is_due_fault self.now }
    {
        matches!(self, Arm::Fault { after: 0, .. })
    }
}
