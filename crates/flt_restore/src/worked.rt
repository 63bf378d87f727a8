//! Worked calls of a start-up, which the checker computes.
ghost use Rattle.flt_restore.specs.Examples.{FailuresOfReads};

/// Which reads that failed are those of a block that a start-up needs.
pub fn failures_of_reads()
    ensures { FailuresOfReads }
{}
