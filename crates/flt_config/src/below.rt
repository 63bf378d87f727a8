//! Numbers that have a limit: of a tester, an enable condition, a signal, an operation cycle or an application block.
ghost use Rattle.std.specs.Prelude.{◌≡◌, ◌<◌};

use std::marker::{Model, PhantomData};

/// A number from 0 to `LIMIT - 1` of what `Kind` names. Numbers of two kinds are of two types, so neither is taken for the other.
/// Contracts see it as this number, and know that it is below the limit.
#[derive(Clone, Copy, Debug, PartialEq, Eq)]
pub struct Below<Kind, const LIMIT: u8> {
    number: u8,
    kind: PhantomData<Kind>,
}

impl<Kind, const LIMIT: u8> Model for Below<Kind, LIMIT> {
    ghost use Rattle.std.specs.Prelude.{ℕ, ◌<◌};

    ghost Value = { ℕ };

    ghost view = { λ below. below.number };

    ghost inverse = { λ number. record { number = number; kind = record {} } };

    ghost invariant = { λ below. below.number < LIMIT };
}

impl<Kind, const LIMIT: u8> Below<Kind, LIMIT> {
    /// This number, where the caller knows that it is below the limit.
    #[inline(always)]
    pub const fn new(number: u8) -> Below<Kind, LIMIT>
        requires { number < LIMIT }
        ensures { result ≡ number }
    {
        Below {
            number,
            kind: PhantomData,
        }
    }

    /// The number.
    #[inline(always)]
    pub fn get(self) -> u8
        ensures number { result ≡ self }
        ensures below { result < LIMIT }
    {
        self.number
    }
}

/// What a number with a limit is the number of. These types only tell numbers apart.
pub mod kind {
    #[derive(Clone, Copy, Debug, PartialEq, Eq)]
    pub struct Tester;

    #[derive(Clone, Copy, Debug, PartialEq, Eq)]
    pub struct Condition;

    #[derive(Clone, Copy, Debug, PartialEq, Eq)]
    pub struct Signal;

    #[derive(Clone, Copy, Debug, PartialEq, Eq)]
    pub struct OperationCycle;

    #[derive(Clone, Copy, Debug, PartialEq, Eq)]
    pub struct ApplicationBlock;
}

/// The number of a tester: 0 to 3, for the testers A to D.
pub type Tester = Below<kind::Tester, 4>;

/// The number of an enable condition: 0 to 7.
pub type Condition = Below<kind::Condition, 8>;

/// The number of a signal: 0 to 7.
pub type SignalIndex = Below<kind::Signal, 8>;

/// The number of an operation cycle: 0 to 3.
pub type OperationCycle = Below<kind::OperationCycle, 4>;

/// The number of an application block: 0 to 39.
pub type ApplicationBlock = Below<kind::ApplicationBlock, 40>;
