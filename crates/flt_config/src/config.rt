//! What a controller is configured to.
use crate::{DIDS, EVENTS};
use arrayvec::ArrayVec;
use thiserror::Error;

/// A data identifier (DID, ISO 14229-1) in the frame of an event.
#[derive(Clone, Copy, PartialEq, Eq, Debug, Default)]
pub struct DidUse {
    /// The identifier.
    pub id: u16,
    /// How many bytes its value takes in the frame, 1 to 8.
    pub width: u8,
}

/// How the reports of an event are debounced (AUTOSAR Dem, in outline).
#[derive(Clone, Copy, PartialEq, Eq, Debug)]
pub enum Debounce {
    /// By a counter that starts at 0.
    Counter {
        /// The value at which the test has failed, 1 to 32767.
        fail_at: i16,
        /// The value at which the test has passed, -32768 to -1.
        pass_at: i16,
        /// What a prefailed report adds, 1 to 32767.
        up: i16,
        /// What a prepassed report subtracts, 1 to 32767.
        down: i16,
        /// The value to which a prefailed report first raises a lower one, strictly between the two thresholds.
        jump_up: Option<i16>,
        /// The value to which a prepassed report first lowers a higher one, strictly between the two thresholds.
        jump_down: Option<i16>,
    },
    /// By the time for which the reports have one direction, in ticks of 10 ms.
    Time {
        /// After how many ticks the test has failed, at least 1.
        fail: u16,
        /// After how many ticks the test has passed, at least 1.
        pass: u16,
    },
}

impl Default for Debounce {
    ghost use Rattle.std.specs.Prelude.{◌≡◌, pos, negsuc, None};
    ghost use Rattle.flt_config.specs.declared.config.Debounce.TheVariants.{Counter};

    ghost is_default = { λ debounce. debounce ≡ Counter (pos 1) (negsuc 0) (pos 1) (pos 1) None None };

    fn default() -> Self {
        Debounce::Counter {
            fail_at: 1,
            pass_at: -1,
            up: 1,
            down: 1,
            jump_up: None,
            jump_down: None,
        }
    }
}

/// One event of a configuration. Its number is its position in the configuration.
#[derive(Clone, Drop, PartialEq, Eq, Debug, Default)]
pub struct EventCfg {
    /// The diagnostic trouble code (ISO 14229-1) of three bytes, 0x000001 to 0xFFFFFE.
    pub dtc: u32,
    /// 1 to 255; 1 is the highest priority.
    pub priority: u8,
    /// The operation cycle in which the event is tested, 0 to 3.
    pub cycle: u8,
    /// At which failed count the event is confirmed, 1 to 255 failed cycles.
    pub confirm: u8,
    /// After how many clean cycles the warning indicator heals, 1 to 255.
    pub heal: u8,
    /// After how many clean cycles the event ages, 1 to 255; if it is lit, those for healing come first.
    pub age: u8,
    /// Whether a confirmed failure lights the warning indicator.
    pub indicator: bool,
    /// Which of the eight enable conditions the event needs: bit c for condition c.
    pub needs: u8,
    /// How its reports are debounced.
    pub debounce: Debounce,
    /// What its frames hold, in this order; together at most 32 bytes wide.
    pub dids: ArrayVec<DidUse, DIDS>,
}

impl EventCfg {
    ghost use Rattle.std.specs.Prelude.{◌≡◌};
    ghost use Rattle.flt_config.specs.Plain.{plain_event};

    /// An event of this DTC, with what an event line of a script gives where it names nothing else (this profile): priority 1,
    /// operation cycle 0, confirmed by one failed cycle, healed after 3 clean cycles and aged after 40, without a warning indicator,
    /// an enable condition that it needs or a data identifier, and debounced by the default counter.
    pub fn new(dtc: u32) -> EventCfg
        ensures { result ≡ plain_event dtc }
    {
        EventCfg {
            dtc,
            priority: 1,
            cycle: 0,
            confirm: 1,
            heal: 3,
            age: 40,
            indicator: false,
            needs: 0,
            debounce: Debounce::default(),
            dids: ArrayVec::new(),
        }
    }
}

/// A whole configuration, as it is written.
#[derive(Clone, Drop, PartialEq, Eq, Debug)]
pub struct Config {
    /// The number by which an image identifies its configuration.
    pub id: u16,
    /// The number of entries that the fault memory has room for, 1 to 16.
    pub memory: u8,
    /// How many pages of 32 bytes of each flash sector are used, 64 to 1024.
    pub pages: u16,
    /// The number of application blocks, 0 to 40.
    pub blocks: u8,
    /// The events, by number.
    pub events: ArrayVec<EventCfg, EVENTS>,
}

/// A number of a configuration that has a range. The variants are in the order in which they are checked.
#[derive(Clone, Copy, PartialEq, Eq, Debug)]
pub enum Field {
    Memory,
    Pages,
    Blocks,
    Dtc,
    Priority,
    Cycle,
    Confirm,
    Heal,
    Age,
    FailAt,
    PassAt,
    Up,
    Down,
    JumpUp,
    JumpDown,
    FailTicks,
    PassTicks,
    /// The width of one data identifier.
    DidWidth,
    /// The width of an event's frame.
    DidSum,
}

/// Why a configuration is refused.
#[derive(Clone, Copy, PartialEq, Eq, Debug, Error)]
pub enum CfgFault {
    /// A number is out of range: the event that it belongs to, if any, which number it is, and its value.
    #[error("{field:?} is out of range: {value}")]
    Range {
        event: Option<u16>,
        field: Field,
        value: i64,
    },
    /// Two events have the same DTC: the number of the second, and that of the first event before it with this DTC.
    #[error("events {first} and {second} have the same DTC")]
    DtcTwice {
        first: u16,
        second: u16,
    },
    /// The records of the configuration take more pages of a sector than are used.
    #[error("the records take {needed} pages of a sector, and {pages} are used")]
    NoRoom {
        needed: u32,
        pages: u32,
    },
}
