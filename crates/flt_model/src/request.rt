//! What a tester's request asks for (ISO 14229-1).

/// What is asked for. A DTC has three bytes; 0xFFFFFF means all of them.
#[derive(Clone, Copy, PartialEq, Eq, Debug)]
pub enum Request {
    /// Service 0x10: another diagnostic session, the default one (0x01) or the extended one (0x03).
    Session { extended: bool },
    /// Service 0x3E: the tester is present.
    Present,
    /// Service 0x14: clear a DTC, or all.
    Clear { dtc: u32 },
    /// Service 0x85: switch the DTC setting on (0x01) or off (0x02).
    Setting { on: bool },
    /// Service 0x19, 0x01: how many DTCs have a status that meets the mask.
    Count { mask: u8 },
    /// Service 0x19, 0x02: which DTCs have a status that meets the mask.
    ByMask { mask: u8 },
    /// Service 0x19, 0x03: which DTCs have snapshots.
    Snapshots,
    /// Service 0x19, 0x04: a DTC's snapshots, the first (0x01), the most recent (0x02) or both (0xFF).
    Snapshot { dtc: u32, number: u8 },
    /// Service 0x19, 0x06: a DTC's extended data, the occurrences (0x01), the clean cycles (0x02) or both (0xFF).
    Extended { dtc: u32, number: u8 },
    /// Service 0x19, 0x0A: all DTCs.
    Supported,
    /// Service 0x19, 0x0B to 0x0E: the first failed, first confirmed, most recent failed or most recent confirmed DTC.
    Noted { sub: u8 },
    /// Service 0x19, 0x14: the fault detection counters of DTCs on their way to failed.
    Counters,
}

/// A request, and whether a positive response to it is suppressed (bit 7 of its sub-function).
#[derive(Clone, Copy, PartialEq, Eq, Debug)]
pub struct Asked {
    pub request: Request,
    pub silent: bool,
}

/// A negative response: the service that was asked for, and the response code.
#[derive(Clone, Copy, PartialEq, Eq, Debug)]
pub struct Negative {
    pub service: u8,
    pub code: u8,
}
