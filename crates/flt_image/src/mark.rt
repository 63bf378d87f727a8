//! The mark of a configuration.
ghost use Rattle.std.specs.Prelude.{◌≡◌, length};
ghost use Rattle.flt_store_model.specs.Form.{mark_length, mark_of, mark_bytes, mark_bytes_1, versioned_mark, IsMark};
ghost use Rattle.flt_store_model.specs.Reading.{mark_from, mark_in, are_bytes_of_mark};
ghost use Rattle.flt_store_model.specs.Laws.{IsGiven};

use crate::pushing::word_at;
use flt_config::ValidConfig;
use flt_store_model::{MARK_LENGTH, Mark};

/// The mark of a configuration, whose numbers are those of its type.
pub fn mark_of(config: &ValidConfig) -> Mark
    ensures value { result ≡ mark_of config.now }
    ensures fields { IsMark result }
    ensures valid_config { IsGiven config.now }
{
    let config = config.config();
    mark_with(config.id, config.events.len() as u16, config.memory)
}

fn mark_with(id: u16, events: u16, entries: u8) -> Mark
    ensures value { result ≡ record { id = id; events = events; entries = entries } }
    ensures fields { IsMark result }
{
    Mark {
        id,
        events,
        entries,
    }
}

/// The version, the configuration, its events, its entries, 00 00; numbers of two bytes are big-endian.
fn versioned(version: u8, mark: &Mark) -> [u8; MARK_LENGTH]
    ensures { result ≡ versioned_mark version mark.now }
{
    let [a, b] = mark.id.to_be_bytes();
    let [c, d] = mark.events.to_be_bytes();
    [version, a, b, c, d, mark.entries, 0, 0]
}

/// The bytes of a mark in version 2, which is written: 02, the configuration, its events, its entries, 00 00; numbers of two bytes are
/// big-endian.
#[tactic(auto, unfolding(flt_store_model::specs::Form::mark_bytes))]
pub fn put_mark(mark: &Mark) -> [u8; MARK_LENGTH]
    ensures { result ≡ mark_bytes mark.now }
{
    versioned(2, mark)
}

/// The bytes of a mark in version 1: the same with 01 first.
#[tactic(auto, unfolding(flt_store_model::specs::Form::mark_bytes_1))]
pub fn put_mark_1(mark: &Mark) -> [u8; MARK_LENGTH]
    ensures { result ≡ mark_bytes_1 mark.now }
{
    versioned(1, mark)
}

/// These are bytes of this mark, in one of the two versions.
fn are_bytes_of(bytes: &[u8], mark: &Mark) -> bool
    ensures { result ≡ are_bytes_of_mark bytes.now mark.now }
{
    bytes == &put_mark(mark)[..] || bytes == &put_mark_1(mark)[..]
}

/// The mark whose numbers are in these bytes.
#[tactic(auto, unfolding(flt_store_model::specs::Reading::mark_from))]
fn mark_from(bytes: &[u8]) -> Mark
    requires { length bytes.now ≡ mark_length }
    ensures value { result ≡ mark_from bytes.now }
    ensures fields { IsMark result }
{
    mark_with(word_at(bytes, 1), word_at(bytes, 3), bytes[5])
}

/// The mark of which these are the bytes in one of the two versions, and none exactly where they are the bytes of no mark.
pub fn get_mark(bytes: &[u8]) -> Option<Mark>
    ensures { result ≡ mark_in bytes.now }
{
    if bytes.len() != MARK_LENGTH {
        return None;
    }
    let mark = mark_from(bytes);
    if are_bytes_of(bytes, &mark) {
        Some(mark)
    } else {
        None
    }
}
