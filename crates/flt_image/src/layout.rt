//! Which blocks a configuration has, and which part of a generation each of them holds.
ghost use Rattle.std.specs.Prelude.{◌≡◌, ◌<◌, ◌≤◌, ◌+◌, ◌++◌, [], ◌∷◌, if◌then◌else◌, length};
ghost use Rattle.flt_store_model.specs.Layout.{first_part, end_part, part_of_block, parts, has_part, is_used, used_ids};

use arrayvec::ArrayVec;
use flt_config::ValidConfig;
use flt_store_model::{
    END_PART, FIRST_ENTRY, FIRST_PART, FIRST_STATES, INDICES, LATER_STATES, Part, STATES_BLOCKS,
    STATES_PER_BLOCK,
};

/// How many events have their states in one block.
const PER_BLOCK: u16 = STATES_PER_BLOCK as u16;

/// The first event whose state comes after the entries.
const LATER_EVENT: u16 = STATES_BLOCKS * PER_BLOCK;

/// The part of a generation that a block holds.
pub fn part_of(id: u16) -> Part
    requires least { first_part ≤ id }
    requires end { id < end_part }
    ensures { result ≡ part_of_block id }
{
    if id == FIRST_PART {
        Part::Summary
    } else if id < FIRST_ENTRY {
        Part::States {
            first: (id - FIRST_STATES) * PER_BLOCK,
        }
    } else if id < LATER_STATES {
        Part::Entry {
            place: id - FIRST_ENTRY,
        }
    } else {
        Part::States {
            first: LATER_EVENT + (id - LATER_STATES) * PER_BLOCK,
        }
    }
}

fn has_part(config: &ValidConfig, part: Part) -> bool
    ensures { result ≡ has_part config.now part }
{
    let config = config.config();
    match part {
        Part::Summary => true,
        Part::States { first } => (first as usize) < config.events.len(),
        Part::Entry { place } => place < config.memory as u16,
    }
}

/// Whether each generation of this configuration has the block.
pub fn is_used(config: &ValidConfig, id: u16) -> bool
    ensures { result ≡ is_used config.now id }
{
    FIRST_PART <= id && id < END_PART && has_part(config, part_of(id))
}

/// The blocks that each generation of this configuration has, in ascending order: the summary (3), a block of states for each
/// 16 events or part of them up to event 63 (from 4 on), one for each entry that the memory has room for (from 8 on), and the blocks of
/// states of the events from 64 on (from 24 on).
pub fn used_ids(config: &ValidConfig) -> ArrayVec<u16, INDICES>
    ensures { result.items ≡ used_ids config.now }
{
    let mut ids = ArrayVec::new();
    for id in FIRST_PART..END_PART {
        push_used(config, id, &mut ids);
    }
    ids
}

/// Puts a block after the others, if it is used.
fn push_used(config: &ValidConfig, id: u16, ids: &mut ArrayVec<u16, INDICES>)
    requires room { length ids.old.items < parts }
    ensures items { ids.new.items ≡ ids.old.items ++ (if is_used config.now id then id ∷ [] else []) }
    ensures size { length ids.new.items ≤ length ids.old.items + 1 }
{
    if is_used(config, id) {
        ids.push(id);
    }
}
