//! The calls of the status machine, and its answers.
use crate::{REQUEST, RESPONSE};
use arrayvec::ArrayVec;

/// What a monitor reports of its event (AUTOSAR Dem, in outline).
#[derive(Clone, Copy, PartialEq, Eq, Debug)]
pub enum Report {
    /// The test passed, with no debouncing.
    Passed,
    /// The test failed, with no debouncing.
    Failed,
    /// The test tends to pass: debouncing decides.
    PrePassed,
    /// The test tends to fail: debouncing decides.
    PreFailed,
}

/// A qualified result.
#[derive(Clone, Copy, PartialEq, Eq, Debug)]
pub enum Qualified {
    Passed,
    Failed,
}

/// The state of an event's debouncing. It is volatile, and at rest at power-up.
#[derive(Clone, Copy, PartialEq, Eq, Debug)]
pub enum DebState {
    /// The value of a counter, from its passed threshold to its failed threshold.
    Count(i16),
    /// A timer that no report has started.
    Idle,
    /// A timer towards failed, with the ticks of 10 ms since it was started.
    Failing(u16),
    /// A timer towards passed, with the ticks of 10 ms since it was started.
    Passing(u16),
    /// A timer that has reached failed.
    AtFailed,
    /// A timer that has reached passed.
    AtPassed,
}

impl Default for DebState {
    ghost use Rattle.std.specs.Prelude.{◌≡◌};
    ghost use Rattle.flt_model.specs.declared.call.DebState.TheVariants.{Idle};

    ghost is_default = { λ state. state ≡ Idle };

    fn default() -> Self {
        DebState::Idle
    }
}

/// A call of the status machine.
#[derive(Clone, Drop, PartialEq, Eq, Debug)]
pub enum Op {
    /// The signal of this index (0 to 7) has a new value.
    Signal {
        index: u8,
        value: u16,
    },
    /// The enable condition of this index (0 to 7) is fulfilled from now on, or is not.
    Enable {
        condition: u8,
        fulfilled: bool,
    },
    /// The monitor of an event reports.
    Report {
        event: u16,
        report: Report,
    },
    /// Time passes by this many ticks of 10 ms.
    Tick {
        ticks: u16,
    },
    /// This operation cycle (0 to 3) ends, if it was started, and starts.
    Cycle {
        cycle: u8,
    },
    /// The tester of this number (0 to 3) sends a request of 1 to 16 bytes.
    Request {
        tester: u8,
        bytes: ArrayVec<u8, REQUEST>,
    },
    /// The state of an event is asked for.
    Show {
        event: u16,
    },
    /// The durable state is taken, to be saved.
    Snapshot,
    /// The durable state was saved under this generation number.
    Saved {
        generation: u32,
    },
}

/// Why a report is ignored. Nothing changed.
#[derive(Clone, Copy, PartialEq, Eq, Debug)]
pub enum Cause {
    /// A tester holds the DTC setting off (ISO 14229-1, service 0x85).
    SettingOff,
    /// The setting is on, and the event's operation cycle was not started since power-up.
    NotStarted,
    /// The setting is on and the cycle was started, and an enable condition that the event needs is not fulfilled.
    NotEnabled,
}

/// What is shown of an event.
#[derive(Clone, Copy, PartialEq, Eq, Debug)]
pub struct Shown {
    /// The status byte of the DTC (ISO 14229-1).
    pub status: u8,
    /// The fault detection counter, -128 (passed) to 127 (failed).
    pub fdc: i8,
    /// The number of cycles in which the event failed since the last clean one, at most 255.
    pub failed: u8,
    /// The number of clean cycles that ended since the last failure, at most 510.
    pub clean: u16,
    /// The occurrences that the event's entry counts, 1 to 255, or 0 without an entry.
    pub stored: u8,
    /// Whether an event found the fault memory full since the last clear of all.
    pub overflow: bool,
}

/// The answer to a call, in which a response is a `B`.
#[derive(Clone, Copy, Drop, PartialEq, Eq, Debug)]
pub enum ReplyOf<B> {
    /// The call was taken.
    Taken,
    /// The report was ignored.
    Ignored(Cause),
    /// What is shown of the event.
    Shown(Shown),
    /// A response, positive or negative.
    Response(B),
    /// A positive response that the request suppressed.
    Silent,
}

impl<B: Drop> ReplyOf<B> {
    ghost use Rattle.std.specs.Prelude.{◌≡◌};
    ghost use Rattle.flt_model.specs.Reply.{map_reply};

    /// The same answer, in which a response is this one.
    pub fn with<C: Drop>(self, response: C) -> ReplyOf<C>
        ensures { result ≡ map_reply (λ _. response) self }
    {
        match self {
            ReplyOf::Taken => ReplyOf::Taken,
            ReplyOf::Ignored(cause) => ReplyOf::Ignored(cause),
            ReplyOf::Shown(shown) => ReplyOf::Shown(shown),
            ReplyOf::Response(_) => ReplyOf::Response(response),
            ReplyOf::Silent => ReplyOf::Silent,
        }
    }
}

/// The answer to a call, with the bytes of a response.
pub type Reply = ReplyOf<ArrayVec<u8, RESPONSE>>;
