//! A sector, the pages of it that are used, and its sequence number.
ghost use Rattle.std.specs.Prelude.{◌<◌, ◌≤◌};

/// One of the two sectors of a flash, with the number of its used pages, at least the two of its gates, and its sequence number.
#[derive(Clone, Copy, Debug, PartialEq, Eq)]
pub struct CurrentSector {
    /// Sector 0 or 1.
    pub sector: u8,
    /// How many of its pages are used, from the first one.
    pub used: u16,
    /// Its number: of two valid sectors the one with the greater number is the current one.
    pub sequence: u32,
    pub ghost one_of_two: { sector < 2 },
    pub ghost least: { 2 ≤ used },
}
