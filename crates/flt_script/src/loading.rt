ghost use Rattle.std.specs.Prelude.{◌≡◌, ◌<◌, ◌≤◌, ◌+◌, ◌++◌, IfOk, OnOk, map};
ghost use Rattle.std.specs.List.{flat_map};
ghost use Rattle.flt_script.specs.Load.{load_event, load_config, plain_parts, next_number, load_number, load_report, load_step, load_lane, load_lanes, load_life, shown_life, load_script};
ghost use Rattle.flt_step.specs.Part.{parts_of};
ghost use Rattle.flt_step.specs.declared.step.Step.{Step};
ghost use Rattle.flt_step.specs.declared.step.Part.TheVariants.{One};
ghost use Rattle.flt_script.specs.Script.{content};

use crate::script::Script;
use arrayvec::ArrayVec;
use flt_config::{Config, EventCfg, check};
use flt_model::Report;
use flt_step::{Part, Step};
use std::alloc::{AllocError, Global};

/// How many events a load reports on, of which each lane has four.
const LOAD_EVENTS: u16 = 16;

/// How many lanes a load has.
const LOAD_LANES: u32 = 4;

/// The DTC of the first event of a load.
const FIRST_DTC: u32 = 0x00_0100;

/// The script of a load: a life of `cycle 0`, `count` reports on 16 events and a save, and a life in which each event is shown.
/// The reports come from a generator of numbers; they are in four lanes of a block or, without lanes, one lane's after the
/// other's. `count` is from 1 to 60,000.
pub fn load(alloc: Global, count: u32, lanes: bool) -> Result<Script, AllocError>
    requires some { 1 ≤ count }
    requires few { count ≤ 60000 }
    ensures { IfOk result (λ script. content script ≡ load_script count lanes) }
{
    let Ok(config) = check(load_config()) else {
        unreachable!()
    };
    let mut lives = Vec::new(alloc);
    lives.push(load_life(alloc, count, lanes)?)?;
    lives.push(shown_life(alloc)?)?;
    Ok(Script::new(config, lives))
}

fn load_event(number: u16) -> EventCfg
    requires { number < 16 }
    ensures { result ≡ load_event number }
{
    EventCfg::new(FIRST_DTC + u32::from(number))
}

#[tactic(auto, unfolding(crate::specs::Load::load_config))]
fn load_config() -> Config
    ensures { result ≡ load_config }
{
    let mut events = ArrayVec::new();
    for number in 0..LOAD_EVENTS {
        events.push(load_event(number));
    }
    Config {
        id: 1,
        memory: 16,
        pages: 512,
        blocks: 0,
        events,
    }
}

/// The number after a number of the generator.
fn next_number(number: u32) -> u32
    ensures { result ≡ next_number number }
{
    ((u64::from(number) * 1_103_515_245 + 12_345) % (1 << 31)) as u32
}

/// The kind of a report, 0 to 3.
fn load_report(kind: u32) -> Report
    ensures { result ≡ load_report kind }
{
    match kind {
        0 => Report::Passed,
        1 => Report::Failed,
        2 => Report::PrePassed,
        _ => Report::PreFailed,
    }
}

/// The fourth number after a number of the generator: that of the next report of the same lane. It is as linear in the number as the
/// next one is.
fn fourth_number(number: u32) -> u32
    ensures { result ≡ next_number (next_number (next_number (next_number number))) }
{
    ((u64::from(number) * 1_845_919_505 + 1_449_466_924) % (1 << 31)) as u32
}

/// The number of the first report of a lane.
fn first_number(count: u32, lane: u32) -> u32
    ensures { result ≡ load_number count (lane + 1) }
{
    let mut number = next_number(count);
    for _place in 0..lane {
        number = next_number(number);
    }
    number
}

/// What a lane reports by a number, on one of its four events.
fn load_step(lane: u32, number: u32) -> Step
    requires { lane < 4 }
    ensures { result ≡ load_step lane number }
{
    Step::Report {
        event: (4 * lane + number / 65_536 % 4) as u16,
        report: load_report(number / 1_048_576 % 4),
    }
}

/// What a list has for a step.
trait OfStep: Drop {
    ghost of: { Step → Self };

    fn of(step: Step) -> Self
        ensures { result ≡ of step };
}

impl OfStep for Step {
    ghost of = { λ step. step };

    fn of(step: Step) -> Step {
        step
    }
}

impl OfStep for Part {
    ghost of = { One };

    fn of(step: Step) -> Part {
        Part::One(step)
    }
}

/// Adds what a lane reports: once in each round of the lanes.
fn add_lane<T: OfStep>(list: &mut Vec<T>, count: u32, lane: u32) -> Result<(), AllocError>
    requires { lane < 4 }
    ensures { OnOk result (list.new.items ≡ list.old.items ++ map T.of (load_lane count lane count)) }
{
    let mut number = first_number(count, lane);
    for _round in 0..count / LOAD_LANES {
        list.push(T::of(load_step(lane, number)))?;
        number = fourth_number(number);
    }
    if lane < count % LOAD_LANES {
        list.push(T::of(load_step(lane, number)))?;
    }
    Ok(())
}

/// What a lane reports.
fn load_lane(alloc: Global, count: u32, lane: u32) -> Result<Vec<Step>, AllocError>
    requires { lane < 4 }
    ensures { IfOk result (λ steps. steps.items ≡ load_lane count lane count) }
{
    let mut steps = Vec::with_capacity(alloc, (count / LOAD_LANES) as usize + 1)?;
    add_lane(&mut steps, count, lane)?;
    Ok(steps)
}

/// What the lanes report, each by itself.
fn load_lanes(alloc: Global, count: u32) -> Result<Vec<Vec<Step>>, AllocError>
    ensures { IfOk result (λ lanes. map (λ lane. lane.items) lanes.items ≡ load_lanes count) }
{
    let mut lanes = Vec::new(alloc);
    for lane in 0..LOAD_LANES {
        lanes.push(load_lane(alloc, count, lane)?)?;
    }
    Ok(lanes)
}

/// Adds what the lanes report, each report by itself, one lane's after the other's.
fn add_lanes(life: &mut Vec<Part>, count: u32) -> Result<(), AllocError>
    ensures { OnOk result (parts_of life.new.items ≡ parts_of life.old.items ++ flat_map plain_parts (load_lanes count)) }
{
    life.reserve(count as usize + 1)?;
    for lane in 0..LOAD_LANES {
        add_lane(life, count, lane)?;
    }
    Ok(())
}

/// The life of the reports.
fn load_life(alloc: Global, count: u32, lanes: bool) -> Result<Vec<Part>, AllocError>
    ensures { IfOk result (λ life. parts_of life.items ≡ load_life count lanes) }
{
    let mut life = Vec::new(alloc);
    life.push(Part::One(Step::Cycle { cycle: 0 }))?;
    if lanes {
        life.push(Part::Lanes(load_lanes(alloc, count)?))?;
    } else {
        add_lanes(&mut life, count)?;
    }
    life.push(Part::One(Step::Save))?;
    Ok(life)
}

/// The life in which each event is shown.
fn shown_life(alloc: Global) -> Result<Vec<Part>, AllocError>
    ensures { IfOk result (λ life. parts_of life.items ≡ shown_life) }
{
    let mut life = Vec::new(alloc);
    for event in 0..LOAD_EVENTS {
        life.push(Part::One(Step::Show { event }))?;
    }
    Ok(life)
}
