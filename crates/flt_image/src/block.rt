//! The blocks of a generation, written and read.
ghost use Rattle.std.specs.Prelude.{◌≡◌, ◌≤◌, IsTrue, length};
ghost use Rattle.flt_config.specs.Durable.{Fits};
ghost use Rattle.flt_store_model.specs.Form.{block_bytes, part_length};
ghost use Rattle.flt_store_model.specs.Layout.{is_used, part_of_block};
ghost use Rattle.flt_store_model.specs.Reading.{taken};
ghost use Rattle.flt_image.specs.Taking.{TakesIn};

use crate::entry::{put_place, take_entry};
use crate::layout::part_of;
use crate::pushing::{BlockBytes, push_all};
use crate::states::{put_states, take_states};
use crate::summary::{summary_bytes, take_summary};
use flt_config::{Persist, ValidConfig};
use flt_store_model::Part;

/// Puts the bytes of a used block of a state that fits in place of what `out` held: those of the summary, of the states of
/// some events, or of an entry.
pub fn put_block(config: &ValidConfig, state: &Persist, id: u16, out: &mut BlockBytes)
    requires used { IsTrue (is_used config.now id) }
    requires fits { Fits config.now state.now }
    ensures items { out.new.items ≡ block_bytes state.now id }
    ensures size { length out.new.items ≡ part_length (part_of_block id) }
{
    out.clear();
    match part_of(id) {
        Part::Summary => push_all(out, &summary_bytes(state)),
        Part::States { first } => put_states(&state.events, first, out),
        Part::Entry { place } => put_place(&state.entries, place, out),
    }
}

/// Takes a used block of a state from its bytes, beside what `into` holds from the blocks that were taken before; `into` has
/// one state for each event.
///
/// True comes exactly where the bytes are of the block's form and fit. A summary gives `into` its number of entries, each
/// with event 0xFFFF, occurrence 0 and empty frames until its own block is taken; the block of a place at or past that number
/// changes nothing. After false `into` is as it was.
pub fn get_block(config: &ValidConfig, id: u16, bytes: &[u8], into: &mut Persist) -> bool
    requires used { IsTrue (is_used config.now id) }
    requires states { length into.old.events.items ≡ length config.now.events.items }
    ensures taken { TakesIn (taken config.now (part_of_block id) bytes.now into.old) result into.old into.new }
    ensures states { length into.new.events.items ≡ length into.old.events.items }
{
    let part = part_of(id);
    if bytes.len() != part.byte_length() {
        return false;
    }
    match part {
        Part::Summary => take_summary(config, bytes, into),
        Part::States { first } => take_states(config, first, bytes, into),
        Part::Entry { place } => take_entry(config, place, bytes, into),
    }
}
