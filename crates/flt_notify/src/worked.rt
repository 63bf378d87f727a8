//! Worked examples, which the check computes.

ghost use Rattle.flt_notify.specs.Examples.{ClearOfTwo, Displacement, FailAndPass};

/// An event fails and passes.
pub fn fail_and_pass()
    ensures { FailAndPass }
{}

/// Two events fail, and a tester clears all.
pub fn clear_of_two()
    ensures { ClearOfTwo }
{}

/// The memory is full: an event fails and passes, and gives way to another one that fails.
pub fn displacement()
    ensures { Displacement }
{}
