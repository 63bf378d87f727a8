//! The fault memory.
ghost use Rattle.std.specs.Prelude.{◌≡◌, ℕ, ◌+◌, ◌<◌, ◌≤◌, ◌↔◌, [], false, not, length, IsTrue, IsSome, is_some, All, AllPairs, position, find, filter, option_copied, slice_set, slice_index_or};
ghost use Rattle.flt_config.specs.declared.persist.EntryState.{EntryState as Entry};
ghost use Rattle.flt_model.specs.Entry.{updated, new_entry};

use crate::rank::displaced_place;
use arrayvec::ArrayVec;
use flt_config::{Config, ENTRIES, EVENTS, EntryState, EventState, Frame, ValidConfig, place_of};
use std::marker::Model;

/// What became of an event that was stored.
#[derive(Clone, Copy, PartialEq, Eq, Debug)]
pub enum Stored {
    /// It has an entry, which is updated in its position.
    Updated,
    /// It has no entry, and one is added after the others.
    Added,
    /// It has no entry, the memory is full, and the entry of the event with this number gives way to it.
    Displaced(u16),
    /// It has no entry, the memory is full, and no entry gives way: the entries do not change.
    Refused,
}

/// The entries of the fault memory, at most 16, of distinct events and in the order in which they
/// were added, and the overflow flag.
#[derive(Drop)]
pub struct EventMemory {
    entries: ArrayVec<EntryState, ENTRIES>,
    overflow: bool,
}

impl Model for EventMemory {
    ghost use Rattle.std.specs.Prelude.{AllPairs};
    ghost use Rattle.flt_config.specs.Durable.{IsOfOtherEvent};
    ghost use Rattle.flt_memory.specs.Memory.{Memory as Kept};

    ghost Value = { Kept };

    ghost view = { λ m. record { entries = m.entries.items; overflow = m.overflow } };

    ghost invariant = { λ m. AllPairs IsOfOtherEvent m.entries.items };
}

impl EventMemory {
    ghost use Rattle.flt_config.specs.Durable.{IsOfOtherEvent, is_of_event};
    ghost use Rattle.flt_memory.specs.Store.{StoresAs};

    /// A memory without entries.
    pub fn empty() -> EventMemory
        ensures { result ≡ record { entries = []; overflow = false } }
    {
        EventMemory {
            entries: ArrayVec::new(),
            overflow: false,
        }
    }

    /// The entries, in the order in which they were added.
    pub fn entries(&self) -> &ArrayVec<EntryState, ENTRIES>
        ensures value { result.now.items ≡ self.now.entries }
        ensures distinct { AllPairs IsOfOtherEvent self.now.entries }
    {
        &self.entries
    }

    /// The overflow flag: whether an event found the memory full since the last clear of all.
    pub fn overflow(&self) -> bool
        ensures { result ≡ self.now.overflow }
    {
        self.overflow
    }

    /// Takes over saved entries, of distinct events, and the overflow flag.
    pub fn load(&mut self, entries: &ArrayVec<EntryState, ENTRIES>, overflow: bool)
        requires { AllPairs IsOfOtherEvent entries.now.items }
        ensures { self.new ≡ record { entries = entries.now.items; overflow = overflow } }
    {
        self.entries = entries.clone().unwrap();
        self.overflow = overflow;
    }

    /// Removes all entries, and resets the overflow flag.
    pub fn clear(&mut self)
        ensures { self.new ≡ record { entries = []; overflow = false } }
    {
        self.entries.clear();
        self.overflow = false;
    }

    /// The event's entry, if there is one.
    pub fn find(&self, event: u16) -> Option<&EntryState>
        ensures { option_copied result ≡ find (is_of_event event) self.now.entries }
    {
        self.entries.iter().find(|entry| entry.event == event)
    }

    /// Which events have an entry, by their numbers, found in one pass over the entries.
    pub fn stored(&self) -> [bool; EVENTS]
        ensures { (event : ℕ) → event < EVENTS → slice_index_or result event false ≡ is_some (find (is_of_event event) self.now.entries) }
    {
        let mut stored = [false; EVENTS];
        for entry in self.entries.as_slice() {
            if (entry.event as usize) < EVENTS {
                stored[entry.event as usize] = true;
            }
        }
        stored
    }

    /// Removes the event's entry, and answers whether there was one.
    pub fn remove(&mut self, event: u16) -> bool
        ensures removed { IsTrue result ↔ IsSome (position (is_of_event event) self.old.entries) }
        ensures entries { self.new.entries ≡ filter (λ entry. not (is_of_event event entry)) self.old.entries }
        ensures overflow { self.new.overflow ≡ self.old.overflow }
    {
        let before = self.entries.len();
        self.entries.retain(|entry| entry.event != event);
        self.entries.len() < before
    }
}

/// A first entry of an event, with the frame of its first occurrence.
fn entry_of(event: u16, frame: &Frame) -> EntryState
    ensures { result ≡ new_entry event frame.now.items }
{
    EntryState {
        event,
        occurrence: 1,
        first: frame.clone().unwrap(),
        recent: frame.clone().unwrap(),
    }
}

/// The entry's event occurred once more: the occurrence rises, up to 255, and the recent frame is
/// replaced.
fn update(entry: &mut EntryState, frame: &Frame)
    ensures { entry.new ≡ updated entry.old frame.now.items }
{
    entry.occurrence = entry.occurrence.saturating_add(1);
    entry.recent = frame.clone().unwrap();
}

/// The same for the entry at a position, which does not change.
fn update_at(entries: &mut ArrayVec<EntryState, ENTRIES>, place: usize, frame: &Frame)
    requires { place < length entries.old.items }
    ensures { (d : Entry) → entries.new.items ≡ slice_set entries.old.items place (updated (slice_index_or entries.old.items place d) frame.now.items) }
{
    update(&mut entries[place], frame);
}

impl EventMemory {
    ghost use Rattle.flt_config.specs.Durable.{IsOfOtherEvent};
    ghost use Rattle.flt_memory.specs.Store.{StoresAs};

    /// Stores an event with the frame of this moment: in its entry, in a new one, or instead of the worst
    /// entry if the memory has its `memory` entries. Of two entries the one with the greater priority number
    /// is worse; of equal numbers the one whose last test did not fail (its status bit 0 is 0); and of
    /// those the older. The worst gives way to an event of a smaller number, and to one of the same number
    /// if its own last test did not fail. A memory that is found full sets the overflow flag.
    pub fn store(
        &mut self,
        config: &ValidConfig,
        states: &ArrayVec<EventState, EVENTS>,
        event: u16,
        frame: &Frame,
    ) -> Stored
        requires configured { event < length config.now.events.items }
        requires entries { All (λ entry. entry.event < length config.now.events.items) self.old.entries }
        requires states { length states.now.items ≡ length config.now.events.items }
        requires room { length self.old.entries ≤ config.now.memory }
        ensures stored { StoresAs config.now states.now.items event frame.now.items self.old self.new result }
        ensures distinct { AllPairs IsOfOtherEvent self.old.entries }
    {
        let config = config.config();
        if let Some(place) = place_of(&self.entries, event) {
            update_at(&mut self.entries, place, frame);
            return Stored::Updated;
        }
        if self.entries.len() < config.memory as usize {
            self.entries.push(entry_of(event, frame));
            return Stored::Added;
        }
        self.overflow = true;
        match displaced_place(config, states, &self.entries, event) {
            None => Stored::Refused,
            Some(place) => {
                let displaced = self.entries.remove(place);
                self.entries.push(entry_of(event, frame));
                Stored::Displaced(displaced.event)
            }
        }
    }
}
