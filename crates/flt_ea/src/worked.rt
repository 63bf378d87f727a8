//! Worked examples, which the check computes.
ghost use Rattle.flt_ea.specs.Examples.{EachBlock, FirstDamage, GateInBytes};

/// A gate, byte by byte.
pub fn gate_in_bytes()
    ensures { GateInBytes }
{}

/// What units hold of blocks that were written, made invalid, cut in a write and never written, and which are at their last number.
pub fn each_block()
    ensures { EachBlock }
{}

/// Each kind of damage is reported at its place, and the first one of several.
pub fn first_damage()
    ensures { FirstDamage }
{}
