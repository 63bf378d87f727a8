//! Tests of the status machine and its parts: configurations, debouncing, status bytes, data identifiers, ranks, requests, the event
//! manager and testers, in worked examples and beside plain restatements of the rules; and of what runs it: the ticket lock with a machine
//! that adds, on threads, the queue of write jobs, and the subscribers of status changes; and of the script, of what a life makes of its
//! steps, and of the lines of the report.
//!
//! It depends on `flt_dcm`, `flt_turn`, `flt_queue`, `flt_notify`, `flt_script`, `flt_life_model` and `flt_report` and has nothing for
//! the crates above.
#![tactic(auto)]

#[cfg(test)]
mod tests;
