//! Tests of the store over both drivers of blocks and their devices in memory: worked examples with cuts and faults, images that were
//! changed, and jobs of which each program, erase or write is cut or fails. The layers beneath the store are tested here too: the bytes
//! of each block, what any driver answers, blocks by their kind, and what is restored of an image. Worked examples of commits are in
//! `specs/CommitExamples.antt`, and the checker computes them.
//!
//! It depends on `flt_store` and has nothing for the crates above. Read `src/tests/cuts.rt` first: it says what may be there after
//! each cut.
#![tactic(auto)]

#[cfg(test)]
mod tests;
