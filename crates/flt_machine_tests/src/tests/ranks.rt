//! Which entry gives way.
use super::holds;
use flt_model::{DebState, Rank};

#[test]
fn the_worse_rank_gives_way(rt: HostRuntime) {
    let active = Rank {
        priority: 5,
        passive: false,
    };
    let passive = Rank {
        priority: 5,
        passive: true,
    };
    let is_worse = passive.is_worse(active) && !active.is_worse(passive);
    holds(&rt, is_worse, "the passive one is worse");
    let gives_way = passive.gives_way(5) && !active.gives_way(5);
    holds(&rt, gives_way, "the passive one gives way to its like");
    holds(&rt, active.gives_way(1), "the active one to a better one");
}

#[test]
fn debouncing_begins_at_rest(rt: HostRuntime) {
    holds(&rt, DebState::default() == DebState::Idle, "at rest");
}
