//! The entry at a place.
ghost use Rattle.std.specs.Prelude.{◌≡◌, ◌+◌, ◌<◌, ◌≤◌, ◌++◌, length, slice_get, slice_set, bytes_eq};
ghost use Rattle.flt_store_model.specs.declared.part.Part.TheVariants.{Entry};
ghost use Rattle.flt_store_model.specs.Fit.{is_alone};
ghost use Rattle.flt_store_model.specs.Form.{entry_length, padded, entry_bytes, no_entry_bytes, place_bytes};
ghost use Rattle.flt_store_model.specs.Reading.{frame_at, entry_from, taken};
ghost use Rattle.flt_image.specs.Taking.{TakesIn};

use crate::pushing::{BlockBytes, push_all, push_zeros, word_at};
use arrayvec::ArrayVec;
use flt_config::{ENTRIES, EntryState, FRAME, Frame, Persist, ValidConfig, is_entry_of, place_of};
use flt_store_model::ENTRY_LENGTH;

fn put_frame(frame: &Frame, out: &mut BlockBytes)
    requires { length out.old.items + FRAME ≤ 128 }
    ensures items { out.new.items ≡ out.old.items ++ padded frame.now.items }
    ensures size { length out.new.items ≡ length out.old.items + FRAME }
{
    let bytes = frame.as_slice();
    push_all(out, bytes);
    push_zeros(out, FRAME - bytes.len());
}

#[tactic(auto, unfolding(flt_store_model::specs::Form::entry_bytes))]
fn put_entry(entry: &EntryState, out: &mut BlockBytes)
    requires { length out.old.items ≡ 0 }
    ensures items { out.new.items ≡ entry_bytes entry.now }
    ensures size { length out.new.items ≡ entry_length }
{
    let [high, low] = entry.event.to_be_bytes();
    push_all(out, &[high, low, entry.occurrence, entry.first.len() as u8]);
    put_frame(&entry.first, out);
    put_frame(&entry.recent, out);
}

#[tactic(auto, unfolding(flt_store_model::specs::Form::no_entry_bytes))]
fn put_no_entry(out: &mut BlockBytes)
    requires { length out.old.items ≡ 0 }
    ensures items { out.new.items ≡ no_entry_bytes }
    ensures size { length out.new.items ≡ entry_length }
{
    push_all(out, &[0xFF, 0xFF]);
    push_zeros(out, ENTRY_LENGTH - 2);
}

/// Puts the entry at a place, or the bytes that mean none.
pub(crate) fn put_place(entries: &[EntryState], place: u16, out: &mut BlockBytes)
    requires { length out.old.items ≡ 0 }
    ensures items { out.new.items ≡ place_bytes (slice_get entries.now place) }
    ensures size { length out.new.items ≡ entry_length }
{
    match entries.get(place as usize) {
        Some(entry) => put_entry(entry, out),
        None => put_no_entry(out),
    }
}

fn are_bytes_of(entry: &EntryState, bytes: &[u8]) -> bool
    ensures { result ≡ bytes_eq bytes.now (entry_bytes entry.now) }
{
    let mut written = BlockBytes::new();
    put_entry(entry, &mut written);
    bytes == &written[..]
}

fn are_bytes_of_none(bytes: &[u8]) -> bool
    ensures { result ≡ bytes_eq bytes.now no_entry_bytes }
{
    let mut written = BlockBytes::new();
    put_no_entry(&mut written);
    bytes == &written[..]
}

fn frame_at(bytes: &[u8], at: usize) -> Frame
    requires size { length bytes.now ≡ entry_length }
    requires at { at + FRAME ≤ entry_length }
    ensures { result.items ≡ frame_at bytes.now at }
{
    let count = (bytes[3] as usize).min(FRAME);
    let mut frame = Frame::new();
    frame.try_extend_from_slice(&bytes[at..at + count]).unwrap();
    frame
}

#[tactic(auto, unfolding(flt_store_model::specs::Reading::entry_from))]
fn entry_from(bytes: &[u8]) -> EntryState
    requires { length bytes.now ≡ entry_length }
    ensures { result ≡ entry_from bytes.now }
{
    EntryState {
        event: word_at(bytes, 0),
        occurrence: bytes[2],
        first: frame_at(bytes, 4),
        recent: frame_at(bytes, 36),
    }
}

/// Whether no entry at another place is of this event.
fn is_alone(entries: &[EntryState], place: usize, event: u16) -> bool
    requires { place < length entries.now }
    ensures { result ≡ is_alone entries.now place event }
{
    place_of(&entries[..place], event).is_none() && place_of(&entries[place + 1..], event).is_none()
}

fn set_entry(entries: &mut ArrayVec<EntryState, ENTRIES>, place: u16, entry: EntryState)
    requires { place < length entries.old.items }
    ensures { entries.new.items ≡ slice_set entries.old.items place entry }
{
    entries[place as usize] = entry;
}

/// Takes the entry at a place from its bytes; a place past the entries has none. Where they are none that fit, nothing changes.
pub(crate) fn take_entry(config: &ValidConfig, place: u16, bytes: &[u8], into: &mut Persist) -> bool
    requires { length bytes.now ≡ entry_length }
    ensures { TakesIn (taken config.now (Entry place) bytes.now into.old) result into.old into.new }
{
    let at = place as usize;
    if at >= into.entries.len() {
        return are_bytes_of_none(bytes);
    }
    let entry = entry_from(bytes);
    if !is_entry_of(&config.config().events, &entry) {
        return false;
    }
    if !are_bytes_of(&entry, bytes) {
        return false;
    }
    if !is_alone(&into.entries, at, entry.event) {
        return false;
    }
    set_entry(&mut into.entries, place, entry);
    true
}
