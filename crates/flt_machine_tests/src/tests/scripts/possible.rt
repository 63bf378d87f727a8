use super::holds;
use arrayvec::ArrayVec;
use flt_config::{Config, EventCfg};
use flt_flash::{Arm, Pattern};
use flt_life_model::are_possible;
use flt_step::{Part, Step};
use std::alloc::{AllocError, Global};
use std::process::Abort;

/// A configuration of one event and two application blocks.
fn small() -> Config {
    let mut events = ArrayVec::new();
    events.push(EventCfg::new(1));
    Config {
        id: 0,
        memory: 16,
        pages: 512,
        blocks: 2,
        events,
    }
}

/// A block of two lanes, each of one step.
fn block(alloc: Global, first: Step, second: Step) -> Result<Part, AllocError> {
    let mut lanes = Vec::new(alloc);
    for step in [first, second] {
        let mut lane = Vec::new(alloc);
        lane.push(step)?;
        lanes.push(lane)?;
    }
    Ok(Part::Lanes(lanes))
}

/// A cut of the power at this operation.
fn cut(after: u32) -> Step {
    Step::Arming(Arm::Cut {
        after,
        pattern: Pattern::All,
    })
}

fn enable(condition: u8) -> Step {
    Step::Enable {
        condition,
        fulfilled: true,
    }
}

/// Whether a life of one step is possible.
fn is_possible(config: &Config, step: Step) -> bool {
    are_possible(config, &[Part::One(step)])
}

/// Whether the first step is possible, and the other, which is just out of range, is not.
fn is_last(config: &Config, step: Step, other: Step) -> bool {
    is_possible(config, step) && !is_possible(config, other)
}

fn signal(index: u8) -> Step {
    Step::Signal { index, value: 1 }
}

fn show(event: u16) -> Step {
    Step::Show { event }
}

fn get(block: u8) -> Step {
    Step::Get { block }
}

fn cycle(cycle: u8) -> Step {
    Step::Cycle { cycle }
}

#[test]
fn possible_steps_are_told(rt: HostRuntime) {
    let config = small();
    holds(&rt, is_last(&config, show(0), show(1)), "show");
    holds(&rt, is_last(&config, cycle(3), cycle(4)), "cycle");
    holds(&rt, is_last(&config, signal(7), signal(8)), "signal");
    holds(&rt, is_last(&config, enable(7), enable(8)), "enable");
    holds(&rt, is_last(&config, get(1), get(2)), "get");
    holds(&rt, is_last(&config, cut(1), cut(0)), "cut");
}

/// Whether a life of one block of a save beside this step is possible.
fn may_save_beside(alloc: Global, config: &Config, step: Step) -> Result<bool, AllocError> {
    Ok(are_possible(config, &[block(alloc, Step::Save, step)?]))
}

/// Stops the test unless such a life is possible, or is not.
fn saves_beside(rt: &impl Abort, alloc: Global, step: Step, wanted: bool, what: &str) {
    let is_told = match may_save_beside(alloc, &small(), step) {
        Ok(found) => found == wanted,
        Err(_) => false,
    };
    holds(rt, is_told, what);
}

#[test]
fn possible_blocks_are_told(rt: HostRuntime) {
    saves_beside(&rt, rt.alloc(), cycle(0), true, "a cycle");
    saves_beside(&rt, rt.alloc(), cycle(4), false, "no cycle");
    saves_beside(&rt, rt.alloc(), Step::Drain, false, "a drain");
    saves_beside(&rt, rt.alloc(), cut(1), false, "a cut");
}
