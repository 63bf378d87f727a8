//! The summary of a generation: its overflow flag, its number of entries and its noted events.
ghost use Rattle.std.specs.Prelude.{◌≡◌, ◌↔◌, ◌+◌, ◌<◌, ◌≤◌, IsTrue, length, replicate, min};
ghost use Rattle.flt_store_model.specs.declared.part.Part.TheVariants.{Summary};
ghost use Rattle.flt_store_model.specs.Form.{summary_length, note_word, note_bytes, summary_bytes};
ghost use Rattle.flt_store_model.specs.Reading.{note_at, untaken_entry, with_summary, taken};
ghost use Rattle.flt_image.specs.Taking.{no_state, summed_up, IsSummaryOf, TakesIn};

use crate::pushing::word_at;
use arrayvec::ArrayVec;
use flt_config::{ENTRIES, EntryState, Persist, ValidConfig, is_noted};
use flt_store_model::SUMMARY_LENGTH;

/// The number that means no event.
const NO_EVENT: u16 = 0xFFFF;

fn note_bytes(note: Option<u16>) -> [u8; 2]
    ensures { result ≡ note_bytes note }
{
    note_word(note).to_be_bytes()
}

fn note_word(note: Option<u16>) -> u16
    ensures { result ≡ note_word note }
{
    match note {
        None => NO_EVENT,
        Some(event) => event,
    }
}

/// The bytes of the summary of a state.
#[tactic(auto, unfolding(flt_store_model::specs::Form::summary_bytes))]
pub(crate) fn summary_bytes(state: &Persist) -> [u8; SUMMARY_LENGTH]
    ensures { result ≡ summary_bytes state.now }
{
    let [a, b] = note_bytes(state.first_failed);
    let [c, d] = note_bytes(state.first_confirmed);
    let [e, f] = note_bytes(state.recent_failed);
    let [g, h] = note_bytes(state.recent_confirmed);
    let overflow = state.overflow as u8;
    let entries = state.entries.len() as u8;
    [
        1, overflow, entries, 0, a, b, c, d, e, f, g, h, 0, 0, 0, 0, 0, 0, 0, 0, 0, 0, 0, 0, 0, 0,
        0, 0, 0, 0, 0, 0,
    ]
}

fn note_at(bytes: &[u8], at: usize) -> Option<u16>
    requires { at + 1 < length bytes.now }
    ensures { result ≡ note_at bytes.now at }
{
    let event = word_at(bytes, at);
    if event == NO_EVENT { None } else { Some(event) }
}

fn untaken_entry() -> EntryState
    ensures { result ≡ untaken_entry }
{
    EntryState {
        event: NO_EVENT,
        occurrence: 0,
        first: ArrayVec::new(),
        recent: ArrayVec::new(),
    }
}

fn untaken_entries(count: u8) -> ArrayVec<EntryState, ENTRIES>
    ensures { result.items ≡ replicate (min count ENTRIES) untaken_entry }
{
    let mut entries = ArrayVec::new();
    let places = (count as usize).min(ENTRIES);
    for _place in 0..places {
        entries.push(untaken_entry());
    }
    entries
}

/// A state that holds the summary in these bytes, and no events.
#[tactic(auto, unfolding(flt_store_model::specs::Reading::with_summary))]
fn summary_from(bytes: &[u8]) -> Persist
    requires { length bytes.now ≡ summary_length }
    ensures { result ≡ with_summary bytes.now no_state }
{
    Persist {
        events: ArrayVec::new(),
        entries: untaken_entries(bytes[2]),
        overflow: bytes[1] == 1,
        first_failed: note_at(bytes, 4),
        first_confirmed: note_at(bytes, 6),
        recent_failed: note_at(bytes, 8),
        recent_confirmed: note_at(bytes, 10),
    }
}

/// Whether the entries are within the memory, and the noted events are configured.
fn is_summary_of(config: &ValidConfig, read: &Persist) -> bool
    ensures { IsTrue result ↔ IsSummaryOf config.now read.now }
{
    let config = config.config();
    read.entries.len() <= config.memory as usize
        && is_noted(&config.events, read.first_failed)
        && is_noted(&config.events, read.first_confirmed)
        && is_noted(&config.events, read.recent_failed)
        && is_noted(&config.events, read.recent_confirmed)
}

/// Gives a state what a summary says.
fn set_summary(read: Persist, into: &mut Persist)
    ensures { into.new ≡ summed_up read into.old }
{
    into.overflow = read.overflow;
    into.entries = read.entries;
    into.first_failed = read.first_failed;
    into.first_confirmed = read.first_confirmed;
    into.recent_failed = read.recent_failed;
    into.recent_confirmed = read.recent_confirmed;
}

/// Takes the summary from its bytes. Where they are none that fits, nothing changes.
pub(crate) fn take_summary(config: &ValidConfig, bytes: &[u8], into: &mut Persist) -> bool
    requires { length bytes.now ≡ summary_length }
    ensures { TakesIn (taken config.now Summary bytes.now into.old) result into.old into.new }
{
    let read = summary_from(bytes);
    if !is_summary_of(config, &read) {
        return false;
    }
    if bytes != &summary_bytes(&read)[..] {
        return false;
    }
    set_summary(read, into);
    true
}
