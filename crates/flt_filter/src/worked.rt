//! A worked example, which the check computes.

ghost use Rattle.flt_filter.specs.Examples.{LargestInput};

/// The largest input that is taken, and one that is larger.
pub fn largest_input()
    ensures { LargestInput }
{}
