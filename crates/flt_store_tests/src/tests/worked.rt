//! Worked examples of the definitions of commits, which the checker computes. The values that are expected are written by hand.
ghost use Rattle.flt_store_tests.specs.CommitExamples.{LaterBits, FirstIndices, NextIndices, IndicesAreKept, OverLongRecords};

/// Which bits of a commit the later blocks of states have.
pub fn later_bits()
    ensures { LaterBits }
{}

/// The indices of the first commit.
pub fn first_indices()
    ensures { FirstIndices }
{}

/// The indices of the commit after another one.
pub fn next_indices()
    ensures { NextIndices }
{}

/// What is said of the indices after a save.
pub fn indices_are_kept()
    ensures { IndicesAreKept }
{}

/// How many pages records count that are too long.
pub fn over_long_records()
    ensures { OverLongRecords }
{}
