//! Whole runs, watches and examinations, sessions that are cut off, and the streams that they read and write.
mod audits;
mod examinations;
mod gates;
mod hostile;
mod orders;
mod program;
mod reports;
mod stops;
mod streams;
mod watches;
mod worked;

use std::process::Abort;

/// Stops the test unless this is so.
fn holds(rt: &impl Abort, is_so: bool, what: &str) {
    assert!(rt; is_so, "{what}");
}

/// Stops the test unless this is so of the case of this number.
fn holds_at(rt: &impl Abort, is_so: bool, what: &str, number: usize) {
    assert!(rt; is_so, "{what} {number}");
}
