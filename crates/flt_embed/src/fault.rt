//! Why a call was not made.
use std::alloc::AllocError;

/// Why a call was not made. Nothing changed, but where it is `Text`.
#[derive(Clone, Copy, Debug, PartialEq, Eq)]
pub enum Fault {
    /// The text is no configuration, or has something else too.
    Config,
    /// The image has another size than the configuration asks for.
    Size,
    /// A number is out of its range.
    Range,
    /// The operations of an earlier call were not reported as done.
    Pending,
    /// The fault memory does not run: the power has to come first.
    Dark,
    /// No operation is pending.
    Nothing,
    /// Memory ran out.
    Memory,
    /// The flash did not do the step.
    Flash,
    /// The step was made, and memory ran out when its line was written.
    Text,
}

impl From<AllocError> for Fault {
    fn from(_: AllocError) -> Fault {
        Fault::Memory
    }
}
