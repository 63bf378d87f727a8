//! Tests of the programs from end to end: worked scripts with their reports, lanes that are at work at once, images that were changed by
//! hand, bytes that are hardly a script, and streams that fail at one call; watches with their values, the scripts that a watch does not
//! make, and the words of the first program; a worked trace, in which each key, each text and each line of a list is changed, one at a time;
//! a worked dump in both versions of its format, with pages that are spoiled one at a time; sessions whose flash is cut off from its bytes at each
//! write; and each exit status.
//!
//! It depends on `flt_run`, `flt_watch`, `flt_program`, `flt_live`, `flt_audit` and `flt_examine`, and has nothing for the crates above. Read the tables
//! of `src/tests/reports.rt`, `src/tests/watches.rt` and `src/tests/examinations.rt`.
#![tactic(auto)]

#[cfg(test)]
mod tests;
