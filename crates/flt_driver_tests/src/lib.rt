//! Tests of the drivers of blocks over a flash and over an EEPROM in memory: worked rows, and a job each of whose operations is cut or fails.
//! Worked examples of the definitions beneath them are in `specs/`, and the checker computes them.
//!
//! It depends on `flt_fee` and `flt_ea` and has nothing for the crates above. Read `src/tests/job.rt` first, the job over any driver, and
//! then `src/tests/fee/cuts.rt`: it holds what the driver reads against a plain restatement of what the image says.
#![tactic(auto)]

#[cfg(test)]
mod tests;
