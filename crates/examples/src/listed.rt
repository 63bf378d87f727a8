//! The examples: a script with its report beside it, in a file of its own each.
use crate::case::{Answer, Case, Word, tell};
use crate::running::answer_to;
use std::marker::Sync;
use std::rt::Files;
use std::sync::Wait;
use std::thread::Threads;
use std::{fs, io};

/// The words under which an example is run, one after the other.
#[derive(Clone, Copy)]
enum Words {
    /// Over the flash.
    Run,
    /// Over the flash and over the EEPROM, with the same report.
    Both,
    /// It is checked.
    Check,
    /// It is watched.
    Watch,
}

impl Words {
    fn words(self) -> &'static [Word] {
        match self {
            Words::Run => &[Word::Run],
            Words::Both => &[Word::Run, Word::Ea],
            Words::Check => &[Word::Check],
            Words::Watch => &[Word::Watch],
        }
    }
}

/// The scripts by their names, each with the words under which it is run and the status that it ends with.
static EXAMPLES: [(&str, Words, u8); 70] = [
    ("before_a_cycle", Words::Both, 0),
    ("causes", Words::Both, 0),
    ("checked", Words::Check, 0),
    ("checked_room", Words::Check, 2),
    ("checked_twice", Words::Check, 2),
    ("clear", Words::Both, 0),
    ("confirmed_at_two", Words::Both, 0),
    ("counted_from_passed", Words::Both, 0),
    ("cut", Words::Both, 0),
    ("cut_all", Words::Both, 0),
    ("cut_before_a_commit", Words::Both, 0),
    ("cut_behind_a_commit", Words::Both, 0),
    ("cut_between_commits", Words::Both, 0),
    ("cut_in_a_switch", Words::Both, 0),
    ("cycles", Words::Both, 0),
    ("dark", Words::Both, 0),
    ("dark_end", Words::Both, 5),
    ("dark_life", Words::Both, 0),
    ("debounce_by_count", Words::Both, 0),
    ("debounce_by_time", Words::Both, 0),
    ("did", Words::Both, 0),
    ("did_unknown", Words::Both, 2),
    ("did_wide", Words::Both, 2),
    ("displaced", Words::Both, 0),
    ("drain_cut", Words::Both, 0),
    ("empty", Words::Both, 0),
    ("enable", Words::Both, 0),
    ("events", Words::Both, 0),
    ("extended_data", Words::Both, 0),
    ("failed_save", Words::Both, 0),
    ("first", Words::Both, 0),
    ("five_lanes", Words::Both, 0),
    ("forty_events", Words::Both, 0),
    ("four_testers", Words::Both, 0),
    ("frames", Words::Both, 0),
    ("healing_and_aging", Words::Both, 0),
    ("jobs", Words::Both, 0),
    ("jobs_full", Words::Both, 0),
    ("jobs_in_lanes", Words::Both, 0),
    ("lanes", Words::Both, 0),
    ("lives", Words::Both, 0),
    ("many_events", Words::Both, 0),
    ("masks", Words::Both, 0),
    ("mute_copy", Words::Run, 0),
    ("profile", Words::Both, 0),
    ("queue_full", Words::Both, 0),
    ("refused_range", Words::Both, 2),
    ("refused_room", Words::Both, 2),
    ("refused_store_lanes", Words::Both, 2),
    ("refused_tester", Words::Both, 2),
    ("refused_twice", Words::Both, 2),
    ("reports", Words::Both, 0),
    ("session_ends", Words::Both, 0),
    ("sessions", Words::Both, 0),
    ("settings", Words::Both, 0),
    ("sig", Words::Both, 0),
    ("silence", Words::Both, 0),
    ("silent_tester", Words::Both, 0),
    ("spaces", Words::Both, 0),
    ("status_bits", Words::Both, 0),
    ("store_lane", Words::Both, 0),
    ("suppressed", Words::Both, 0),
    ("testers", Words::Both, 0),
    ("ticks", Words::Both, 0),
    ("timed_once", Words::Both, 0),
    ("two_blocks", Words::Both, 0),
    ("two_sessions", Words::Both, 0),
    ("urgent", Words::Both, 0),
    ("watched", Words::Watch, 0),
    ("watched_save", Words::Watch, 2),
];

/// Runs the script of this name under this word, reports how its status and its report compare with this status and with the report of the
/// same name, and answers whether they are the same.
fn run_example<R: Files + AllocGlobal + Print + Threads + Wait + Sync>(
    rt: &R,
    name: &str,
    word: Word,
    status: u8,
) -> io::Result<bool> {
    let alloc = rt.alloc();
    let script = fs::read_to_string(rt, format!(in alloc; "{name}.script")?)?;
    let report = fs::read_to_string(rt, format!(in alloc; "{name}.report")?)?;
    let case = Case {
        name,
        word,
        status,
        script: script.as_bytes(),
        report: report.as_bytes(),
    };
    let answer = answer_to(rt, alloc, &case)?;
    tell(rt, &case, answer)?;
    Ok(answer == Answer::AsWritten)
}

/// Reports of each example whether it is as written, and answers whether all are.
pub(crate) fn run_examples<R: Files + AllocGlobal + Print + Threads + Wait + Sync>(
    rt: &R,
) -> io::Result<bool> {
    let mut all = true;
    for (name, words, status) in &EXAMPLES {
        for word in words.words() {
            let same = run_example(rt, name, *word, *status)?;
            all = all && same;
        }
    }
    Ok(all)
}
