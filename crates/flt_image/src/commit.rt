//! The record that names the blocks of a generation.
ghost use Rattle.std.specs.Prelude.{◌≡◌, ◌≢◌, ℕ, ◌<◌, ◌≤◌, ◌+◌, ◌==◌, IfSome, Some, List, length, bytes_eq, slice_index, slice_range, IsTrue, IsFalse};
ghost use Rattle.std.specs.Int.{from_be_bytes, w32};
ghost use Rattle.std.specs.List.{list_all, range_with_len};
ghost use Rattle.flt_store_model.specs.Form.{commit_length, commit_length_2, index_bit, packed, commit_bytes, commit_bytes_1, HasNoLater};
ghost use Rattle.flt_store_model.specs.Holding.{last_number};
ghost use Rattle.flt_store_model.specs.Layout.{first_part, parts, end_part, index_in};
ghost use Rattle.flt_store_model.specs.Reading.{commit_from, commit_from_1, bit_in, index_by_bit, if_commit, commit_in, is_index, is_commit};
ghost use Rattle.flt_store_model.specs.Successor.{IsNext, IsNextIndex, number_in};
ghost use Rattle.flt_image.specs.Blocks.{bytes_at};

use crate::blocks::StateBlocks;
use crate::layout::is_used;
use flt_config::ValidConfig;
use flt_store_model::{
    COMMIT_LENGTH, COMMIT_LENGTH_2, Commit, END_PART, FIRST_INDICES, FIRST_PART, INDICES,
};

/// What a commit has for a block that is not used.
const UNUSED: u8 = 0xFF;

/// 1 for a block that is named at index 1, else 0.
fn index_bit(index: &[u8; INDICES], place: usize) -> u8
    ensures bit { result ≡ index_bit index.now place }
    ensures small { result ≤ 1 }
{
    (index.get(place).copied().unwrap_or(0) == 1) as u8
}

/// Those of eight blocks, the first in the lowest bit.
fn packed(index: &[u8; INDICES], place: usize) -> u8
    requires { place ≤ parts }
    ensures { result ≡ packed index.now place }
{
    index_bit(index, place)
        + 2 * index_bit(index, place + 1)
        + 4 * index_bit(index, place + 2)
        + 8 * index_bit(index, place + 3)
        + 16 * index_bit(index, place + 4)
        + 32 * index_bit(index, place + 5)
        + 64 * index_bit(index, place + 6)
        + 128 * index_bit(index, place + 7)
}

/// The bytes of a commit in version 2, which is written: 02, the number of the generation in four bytes, big-endian, and 40 bits. Bit
/// `i`, of byte `i / 8` of the five, from the lowest on, is 1 where the block `3 + i` is named at index 1; the bits 33 to 39 are 0.
#[tactic(auto, unfolding(flt_store_model::specs::Form::commit_bytes))]
pub fn put_commit(commit: &Commit) -> [u8; COMMIT_LENGTH_2]
    ensures { result ≡ commit_bytes commit.now }
{
    let [a, b, c, d] = commit.generation.to_be_bytes();
    let index = &commit.index;
    let bits = [
        packed(index, 0),
        packed(index, 8),
        packed(index, 16),
        packed(index, 24),
        packed(index, 32),
    ];
    [2, a, b, c, d, bits[0], bits[1], bits[2], bits[3], bits[4]]
}

#[tactic(auto, unfolding(flt_store_model::specs::Form::commit_bytes_1))]
fn first_version(commit: &Commit) -> [u8; COMMIT_LENGTH]
    ensures { result ≡ commit_bytes_1 commit.now }
{
    let mut bytes = [0; COMMIT_LENGTH];
    bytes[0] = 1;
    bytes[1..5].copy_from_slice(&commit.generation.to_be_bytes());
    bytes[5..].copy_from_slice(&commit.index[..FIRST_INDICES]);
    bytes
}

/// The bytes of a commit in version 1: 01, the number of the generation in four bytes, big-endian, and the index of each block from 3 to
/// 23. The commit names no later block: it has 0xFF for each.
pub fn put_commit_1(commit: &Commit) -> [u8; COMMIT_LENGTH]
    requires { HasNoLater commit.now }
    ensures { result ≡ commit_bytes_1 commit.now }
{
    first_version(commit)
}

/// The commit after this one, or the first: the next number, and each used block at 0 in the first; else, where its bytes before and
/// after are the same, at the index where it is, and at the other where they differ.
pub fn next_commit(
    config: &ValidConfig,
    current: &Option<Commit>,
    before: &StateBlocks,
    after: &StateBlocks,
) -> Commit
    requires { number_in current.now < last_number }
    ensures { IsNext config.now current.now (bytes_at before.now) (bytes_at after.now) result }
{
    let generation = match current {
        None => 1,
        Some(commit) => commit.generation + 1,
    };
    let mut index = [UNUSED; INDICES];
    for id in FIRST_PART..END_PART {
        index[(id - FIRST_PART) as usize] = next_index(
            config,
            current,
            before.get(id),
            after.get(id),
            id,
        );
    }
    Commit { generation, index }
}

/// The index at which the next commit names a block, by its bytes before and after.
fn next_index(
    config: &ValidConfig,
    current: &Option<Commit>,
    before: &[u8],
    after: &[u8],
    id: u16,
) -> u8
    requires first { first_part ≤ id }
    requires end { id < end_part }
    ensures { IsNextIndex config.now current.now before.now after.now id result }
{
    if !is_used(config, id) {
        return UNUSED;
    }
    match current {
        None => 0,
        Some(commit) => other_index(commit.index_of(id), before == after),
    }
}

/// The same index, or the other one.
fn other_index(index: u8, stays: bool) -> u8
    ensures stays { IsTrue stays → result ≡ index }
    ensures small { IsFalse stays → result ≤ 1 }
    ensures moves { IsFalse stays → index ≢ result }
{
    if stays {
        index
    } else if index == 0 {
        1
    } else {
        0
    }
}

fn is_index(config: &ValidConfig, id: u16, index: u8) -> bool
    ensures { result ≡ is_index config.now id index }
{
    if is_used(config, id) {
        index <= 1
    } else {
        index == UNUSED
    }
}

fn has_indices(config: &ValidConfig, commit: &Commit) -> bool
    ensures { result ≡ list_all (λ id. is_index config.now id (index_in commit.now id)) (range_with_len first_part parts) }
{
    (FIRST_PART..END_PART).all(
        |id| -> bool
            requires first { first_part ≤ id }
            requires end { id < end_part }
            ensures { result ≡ is_index config.entry.now id (index_in commit.entry.now id) }
        { is_index(config, id, commit.index_of(id)) },
    )
}

#[tactic(auto, unfolding(flt_store_model::specs::Reading::is_commit))]
fn is_commit(config: &ValidConfig, commit: &Commit) -> bool
    ensures { result ≡ is_commit config.now commit.now }
{
    1 <= commit.generation && has_indices(config, commit)
}

/// The number of a generation in these bytes of a commit.
fn generation_in(bytes: &[u8]) -> u32
    requires { 5 ≤ length bytes.now }
    ensures { result ≡ from_be_bytes w32 (slice_range bytes.now 1 5) }
{
    let mut generation = [0; 4];
    generation.copy_from_slice(&bytes[1..5]);
    u32::from_be_bytes(generation)
}

/// The commit whose numbers are in these bytes of version 1.
#[tactic(auto, unfolding(flt_store_model::specs::Reading::commit_from_1))]
fn commit_from_1(bytes: &[u8]) -> Commit
    requires { length bytes.now ≡ commit_length }
    ensures { result ≡ commit_from_1 bytes.now }
{
    let mut index = [UNUSED; INDICES];
    index[..FIRST_INDICES].copy_from_slice(&bytes[5..]);
    Commit {
        generation: generation_in(bytes),
        index,
    }
}

/// The bit of a block in these bytes of version 2.
fn bit_in(bytes: &[u8], place: usize) -> u8
    requires size { length bytes.now ≡ commit_length_2 }
    requires place { place < parts }
    ensures { result ≡ bit_in bytes.now place }
{
    (bytes[5 + place / 8] >> (place % 8)) % 2
}

/// The index of a block by its bit.
fn index_by_bit(config: &ValidConfig, bytes: &[u8], id: u16) -> u8
    requires size { length bytes.now ≡ commit_length_2 }
    requires first { first_part ≤ id }
    requires end { id < end_part }
    ensures { result ≡ index_by_bit config.now bytes.now id }
{
    if is_used(config, id) {
        bit_in(bytes, (id - FIRST_PART) as usize)
    } else {
        UNUSED
    }
}

/// The commit whose numbers are in these bytes of version 2.
#[tactic(auto, unfolding(flt_store_model::specs::Reading::commit_from))]
fn commit_from(config: &ValidConfig, bytes: &[u8]) -> Commit
    requires { length bytes.now ≡ commit_length_2 }
    ensures { result ≡ commit_from config.now bytes.now }
{
    let mut index = [UNUSED; INDICES];
    for id in FIRST_PART..END_PART {
        index[(id - FIRST_PART) as usize] = index_by_bit(config, bytes, id);
    }
    Commit {
        generation: generation_in(bytes),
        index,
    }
}

fn get_commit_1(config: &ValidConfig, bytes: &[u8]) -> Option<Commit>
    ensures { result ≡ if_commit config.now bytes.now (commit_bytes_1 (commit_from_1 bytes.now)) (commit_from_1 bytes.now) }
{
    if bytes.len() != COMMIT_LENGTH {
        return None;
    }
    let commit = commit_from_1(bytes);
    if bytes == &first_version(&commit)[..] && is_commit(config, &commit) {
        Some(commit)
    } else {
        None
    }
}

fn get_commit_2(config: &ValidConfig, bytes: &[u8]) -> Option<Commit>
    ensures { result ≡ if_commit config.now bytes.now (commit_bytes (commit_from config.now bytes.now)) (commit_from config.now bytes.now) }
{
    if bytes.len() != COMMIT_LENGTH_2 {
        return None;
    }
    let commit = commit_from(config, bytes);
    if bytes == &put_commit(&commit)[..] && is_commit(config, &commit) {
        Some(commit)
    } else {
        None
    }
}

/// The first byte says that it is version 1.
fn is_version_1(bytes: &[u8]) -> bool
    ensures { result ≡ (slice_index bytes.now 0 == 1) }
{
    bytes.first().copied().unwrap_or(0) == 1
}

/// The commit of which these are the bytes in one of the two versions, and none exactly where they are those of no commit of this
/// configuration: its number is at least 1, and each used block has the index 0 or 1, each other one 0xFF. A configuration of more than
/// 64 events has none of version 1.
#[tactic(auto, unfolding(flt_store_model::specs::Reading::commit_in))]
pub fn get_commit(config: &ValidConfig, bytes: &[u8]) -> Option<Commit>
    ensures { result ≡ commit_in config.now bytes.now }
{
    if is_version_1(bytes) {
        get_commit_1(config, bytes)
    } else {
        get_commit_2(config, bytes)
    }
}
