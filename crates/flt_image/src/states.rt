//! The states of sixteen events.
ghost use Rattle.std.specs.Prelude.{◌≡◌, ℕ, ◌+◌, ◌*◌, ◌<◌, ◌≤◌, ◌++◌, IsTrue, List, length, slice_index_or, slice_set, bytes_eq};
ghost use Rattle.flt_config.specs.Durable.{start_state};
ghost use Rattle.flt_store_model.specs.declared.part.Part.TheVariants.{States};
ghost use Rattle.flt_store_model.specs.Layout.{states_per_block};
ghost use Rattle.flt_store_model.specs.Form.{states_length, state_bytes, states_bytes};
ghost use Rattle.flt_store_model.specs.Reading.{state_from, with_states, taken};
ghost use Rattle.flt_image.specs.Taking.{TakesIn, HaveShortCounts, block_states};

use crate::pushing::{BlockBytes, push_all, word_at};
use arrayvec::ArrayVec;
use flt_config::{EVENTS, EventState, Persist, UNTESTED, ValidConfig, are_states_of};
use flt_store_model::STATES_PER_BLOCK;

/// What is set beside the clean count of an event that is lit.
const LIT: u16 = 0x8000;

#[tactic(auto, unfolding(flt_store_model::specs::Form::state_bytes))]
fn put_state(state: EventState, out: &mut BlockBytes)
    requires clean { state.clean < 0x8000 }
    requires room { length out.old.items + 4 ≤ 128 }
    ensures { out.new.items ≡ out.old.items ++ state_bytes state }
{
    let top = if state.lit { LIT } else { 0 };
    let [high, low] = (state.clean + top).to_be_bytes();
    push_all(out, &[state.status, state.failed, high, low]);
}

fn state_at(states: &[EventState], event: usize) -> EventState
    ensures { result ≡ slice_index_or states.now event start_state }
{
    states.get(event).copied().unwrap_or(UNTESTED)
}

/// Puts the states of sixteen events from `first` on; those past the last event are start states.
pub(crate) fn put_states(states: &[EventState], first: u16, out: &mut BlockBytes)
    requires first { first < EVENTS }
    requires clean { HaveShortCounts states.now }
    requires empty { length out.old.items ≡ 0 }
    ensures items { out.new.items ≡ states_bytes states.now first }
    ensures size { length out.new.items ≡ states_length }
{
    for place in 0..STATES_PER_BLOCK {
        put_state(state_at(states, first as usize + place), out);
    }
}

#[tactic(auto, unfolding(flt_store_model::specs::Reading::state_from))]
fn state_from(bytes: &[u8], place: usize) -> EventState
    requires size { length bytes.now ≡ states_length }
    requires place { place < states_per_block }
    ensures { result ≡ state_from bytes.now place }
{
    let word = word_at(bytes, 4 * place + 2);
    EventState {
        status: bytes[4 * place],
        failed: bytes[4 * place + 1],
        clean: word % LIT,
        lit: LIT <= word,
    }
}

/// The first states of a block.
fn states_from(bytes: &[u8], count: usize) -> ArrayVec<EventState, STATES_PER_BLOCK>
    requires size { length bytes.now ≡ states_length }
    requires count { count ≤ states_per_block }
    ensures { result.items ≡ block_states bytes.now count }
{
    let mut states = ArrayVec::new();
    for place in 0..count {
        states.push(state_from(bytes, place));
    }
    states
}

fn set_state(states: &mut ArrayVec<EventState, EVENTS>, event: usize, state: EventState)
    requires { event < length states.old.items }
    ensures { states.new.items ≡ slice_set states.old.items event state }
{
    states[event] = state;
}

/// Gives the events from `first` on the states that are in a block.
fn set_states(states: &[EventState], first: u16, into: &mut ArrayVec<EventState, EVENTS>)
    requires { first + length states.now ≤ length into.old.items }
    ensures { (held : List ℕ) → states.now ≡ block_states held (length states.now)
        → into.new.items ≡ with_states held first (length states.now) into.old.items }
{
    let count = states.len();
    for place in 0..count {
        set_state(into, first as usize + place, states[place]);
    }
}

/// Whether these are the states of a block, those past them being start states.
fn are_bytes_of(states: &[EventState], bytes: &[u8]) -> bool
    requires { HaveShortCounts states.now }
    ensures { result ≡ bytes_eq bytes.now (states_bytes states.now 0) }
{
    let mut written = BlockBytes::new();
    put_states(states, 0, &mut written);
    bytes == &written[..]
}

/// Takes the states of sixteen events from their bytes. Where they are none that fit, nothing changes.
pub(crate) fn take_states(
    config: &ValidConfig,
    first: u16,
    bytes: &[u8],
    into: &mut Persist,
) -> bool
    requires size { length bytes.now ≡ states_length }
    requires first { first < length config.now.events.items }
    requires states { length into.old.events.items ≡ length config.now.events.items }
    ensures { TakesIn (taken config.now (States first) bytes.now into.old) result into.old into.new }
{
    let events = &config.config().events;
    let count = (events.len() - first as usize).min(STATES_PER_BLOCK);
    let states = states_from(bytes, count);
    if !are_states_of(&events[first as usize..first as usize + count], &states) {
        return false;
    }
    if !are_bytes_of(&states, bytes) {
        return false;
    }
    set_states(&states, first, &mut into.events);
    true
}
