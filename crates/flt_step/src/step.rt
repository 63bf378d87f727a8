//! The steps of a script, and its parts.
ghost use Rattle.std.specs.Prelude.{◌≡◌};
ghost use Rattle.flt_step.specs.Step.{is_lane_step, is_store_step};

use arrayvec::ArrayVec;
use flt_flash::Arm;
use flt_model::{REQUEST, Report};

/// The most bytes of a write job for an application block.
pub const BLOCK_BYTES: usize = 32;

/// A step of a script. `put_words` puts its words.
#[derive(Drop, PartialEq, Eq)]
pub enum Step {
    /// `pass`, `fail`, `prepass` or `prefail`: a monitor's report on the event of this number.
    Report {
        event: u16,
        report: Report,
    },
    /// `show`: what is known of the event of this number.
    Show {
        event: u16,
    },
    /// `cycle`: the operation cycle of this number, 0 to 3, ends and starts again.
    Cycle {
        cycle: u8,
    },
    /// `tick`: so much time passes, 1 to 65535 ticks of 10 ms.
    Tick {
        ticks: u16,
    },
    /// `sig`: the signal of this number, 0 to 7, has this value, 0 to 65535, from now on.
    Signal {
        index: u8,
        value: u16,
    },
    /// `enable`: the enable condition of this number, 0 to 7, is fulfilled from now on (1), or is not (0).
    Enable {
        condition: u8,
        fulfilled: bool,
    },
    /// `t`: the tester of this number, 0 to 3 for A to D, sends a request of these bytes, 1 to 16.
    Request {
        tester: u8,
        bytes: ArrayVec<u8, REQUEST>,
    },
    /// `save`: what is to outlive the power is written to the flash.
    Save,
    /// `post` or `urge`: a write job for the application block of this number, below `blocks`, of 1 to 32 bytes; an urgent one
    /// is taken before the others.
    Post {
        urgent: bool,
        block: u8,
        bytes: ArrayVec<u8, BLOCK_BYTES>,
    },
    /// `drain`: the jobs that wait are taken and written, at most 32 of them.
    Drain,
    /// `get`: the bytes that the application block of this number, below `blocks`, holds.
    Get {
        block: u8,
    },
    /// `ask`: what became of the last job of the application block of this number, below `blocks`.
    Ask {
        block: u8,
    },
    /// `cut`, `fault` or `mute`: from now on the flash is to fail like this. `after` and `times` are 1 to 65535, `sector`
    /// is 0 or 1 and `page` 0 to 1023.
    Arming(Arm),
}

/// A part of a life, which is carried out before the next one.
#[derive(Drop, PartialEq, Eq)]
pub enum Part {
    /// A step by itself.
    One(Step),
    /// A block: lanes that make their steps at the same time.
    Lanes(Vec<Vec<Step>>),
}

impl Step {
    /// Whether it is allowed in a lane: it is none of `cut`, `fault` and `mute`.
    pub fn is_lane_step(&self) -> bool
        ensures { result ≡ is_lane_step self.now }
    {
        !matches!(*self, Step::Arming(_))
    }

    /// Whether it uses the store, as at most one lane of a block may: it is `save`, `drain` or `get`.
    pub fn is_store_step(&self) -> bool
        ensures { result ≡ is_store_step self.now }
    {
        matches!(*self, Step::Save | Step::Drain | Step::Get { .. })
    }
}
