//! How bad an entry is when the memory is full.
ghost use Rattle.std.specs.Prelude.{◌≡◌, ◌<◌, ◌≤◌, IfSome, IfNone, length, All};
ghost use Rattle.flt_memory.specs.Displacement.{rank_in as event_rank, ranks_of, priority_of, IsWorst, WorstGivesWay, IsDisplaced, StaysFull};

use flt_config::{Config, EntryState, EventState};
use flt_model::Rank;

/// The rank of the event's entry.
pub fn rank_of(config: &Config, states: &[EventState], event: u16) -> Rank
    requires configured { event < length config.now.events.items }
    requires states { length states.now ≡ length config.now.events.items }
    ensures { result ≡ event_rank config.now states.now event }
{
    Rank {
        priority: config.events[event as usize].priority,
        passive: states[event as usize].status & 1 == 0,
    }
}

/// The position of the worst of the entries, of which there is at least one.
pub fn worst_of(config: &Config, states: &[EventState], entries: &[EntryState]) -> usize
    requires some { 0 < length entries.now }
    requires configured { All (λ entry. entry.event < length config.now.events.items) entries.now }
    requires states { length states.now ≡ length config.now.events.items }
    ensures worst { IsWorst (ranks_of config.now states.now entries.now) result }
    ensures within { result < length entries.now }
{
    let mut worst = 0;
    let mut worst_rank = rank_of(config, states, entries[0].event);
    for place in 1..entries.len() {
        let rank = rank_of(config, states, entries[place].event);
        if rank.is_worse(worst_rank) {
            worst = place;
            worst_rank = rank;
        }
    }
    worst
}

/// The position of the entry that gives way to the event in a full memory, if one does.
pub fn displaced_place(
    config: &Config,
    states: &[EventState],
    entries: &[EntryState],
    event: u16,
) -> Option<usize>
    requires some { 0 < length entries.now }
    requires configured { All (λ entry. entry.event < length config.now.events.items) entries.now }
    requires event { event < length config.now.events.items }
    requires states { length states.now ≡ length config.now.events.items }
    ensures displaced { IfSome result (IsDisplaced config.now states.now entries.now event) }
    ensures stays { IfNone result (StaysFull config.now states.now entries.now event) }
{
    let worst = worst_of(config, states, entries);
    let priority = rank_of(config, states, event).priority;
    if rank_of(config, states, entries[worst].event).gives_way(priority) {
        Some(worst)
    } else {
        None
    }
}
