//! The status machine, from its configuration to the responses of testers; the ticket lock, the queue, and the subscribers of status
//! changes: their table, and the changes that are reported to them; and scripts.
mod comparison;
mod configurations;
mod debouncing;
mod identifiers;
mod jobs;
mod manager;
mod ranks;
mod requests;
mod scripts;
mod statuses;
mod subscribers;
mod testers;
mod told;
mod turns;
mod worked;

use std::process::Abort;

/// Stops the test unless this is so.
fn holds(rt: &impl Abort, is_so: bool, what: &str) {
    assert!(rt; is_so, "{what}");
}

/// Stops the test unless this is so of the case of this number.
fn holds_at(rt: &impl Abort, is_so: bool, what: &str, number: usize) {
    assert!(rt; is_so, "{what} {number}");
}
