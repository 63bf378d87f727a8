//! Worked examples as lists of steps over a list of states.
ghost use Rattle.std.specs.Prelude.{IfOk, IsTrue, OnOk};
ghost use Rattle.flt_store.specs.Store.{IsAlive};
ghost use Rattle.flt_store_tests.specs.Room.{IsRoomy, SameRoom};

use super::*;

/// A step of a worked example. A state is given by its place in the example's list.
#[derive(Clone, Copy)]
pub(super) enum Step {
    // The program or erase of this number fails, and takes no effect.
    Fault(u32),
    // It is cut so.
    Cut(u32, Pattern),
    // This page of sector 0 can't be read, so often.
    Mute(u16, u16),
    // A save of this state answers so.
    Save(usize, Result<u32, SaveFault>),
    // There are this many arms.
    Armed(u8),
    // The power comes back, and the start-up answers this number and state.
    Life(u32, usize),
}

fn state_at(states: &[Persist], place: usize) -> Result<&Persist, Fail> {
    match states.get(place) {
        Some(state) => Ok(state),
        None => Err(Fail::from("no such state")),
    }
}

/// Turns the power on again and starts up, and returns whether that answers this number and state.
fn lives<B: Blocks + Drop>(
    store: &mut Store<B>,
    config: &ValidConfig,
    number: u32,
    state: &Persist,
) -> bool
    requires { IsRoomy config.now store.old }
    ensures alive { IsTrue result → IsAlive config.now store.new }
    ensures room { SameRoom store.old store.new }
{
    power_up(store);
    match start(store, config) {
        Err(_) => false,
        Ok((found, told)) => found == number && told == *state,
    }
}

/// Takes a step, and returns whether it goes as it says.
fn take<B: Blocks + Drop>(
    rt: &impl Abort,
    store: &mut Store<B>,
    config: &ValidConfig,
    states: &[Persist],
    step: Step,
) -> Result<bool, Fail>
    requires alive { IsAlive config.now store.old }
    requires room { IsRoomy config.now store.old }
    ensures alive { IfOk result (λ goes. IsTrue goes → IsAlive config.now store.new) }
    ensures room { SameRoom store.old store.new }
{
    let pattern = Pattern::Nothing;
    let sector = 0;
    match step {
        Step::Fault(after) => arm(rt, store, Arm::Fault { after, pattern }),
        Step::Cut(after, pattern) => arm(rt, store, Arm::Cut { after, pattern }),
        Step::Mute(page, times) => arm(
            rt,
            store,
            Arm::Mute {
                sector,
                page,
                times,
            },
        ),
        Step::Save(place, answer) => {
            return Ok(save(rt, store, config, state_at(states, place)?) == answer);
        }
        Step::Armed(count) => return Ok(store.armed() == count),
        Step::Life(number, place) => {
            return Ok(lives(store, config, number, state_at(states, place)?));
        }
    }
    Ok(true)
}

/// Takes the steps one after the other, each of which has to go as it says.
fn take_all<B: Blocks + Drop>(
    rt: &impl Abort,
    store: &mut Store<B>,
    config: &ValidConfig,
    states: &[Persist],
    steps: &[Step],
) -> Result<(), Fail>
    requires alive { IsAlive config.now store.old }
    requires room { IsRoomy config.now store.old }
    ensures alive { OnOk result (IsAlive config.now store.new) }
    ensures room { SameRoom store.old store.new }
{
    for (at, step) in steps.iter().enumerate() {
        let goes = take(rt, store, config, states, *step)?;
        assert!(rt; goes, "step {at}");
    }
    Ok(())
}

/// Starts up, which has to answer this number and state, and takes the steps.
pub(super) fn play_on<B: Blocks + Drop>(
    rt: &impl Abort,
    store: &mut Store<B>,
    config: &ValidConfig,
    first: (u32, Persist),
    states: &[Persist],
    steps: &[Step],
) -> Result<(), Fail>
    requires { IsRoomy config.now store.old }
    ensures alive { OnOk result (IsAlive config.now store.new) }
    ensures room { SameRoom store.old store.new }
{
    let is_first = start(store, config)? == first;
    holds(rt, is_first, "the first start-up");
    take_all(rt, store, config, states, steps)
}

/// Starts up on a blank device, and takes the first steps and then the rest.
fn play_twice<B: Blocks + Drop>(
    rt: &impl Abort,
    store: &mut Store<B>,
    config: &ValidConfig,
    states: &[Persist],
    first: &[Step],
    rest: &[Step],
) -> Result<(), Fail>
    requires { IsRoomy config.now store.old }
{
    play_on(rt, store, config, (0, initial(config)), states, first)?;
    take_all(rt, store, config, states, rest)
}

/// Takes the first steps and then the rest on a store over a blank flash; the flash comes back.
pub(super) fn play(
    rt: &impl Abort,
    alloc: Global,
    config: &ValidConfig,
    states: &[Persist],
    first: &[Step],
    rest: &[Step],
) -> Result<FlashMem, Fail> {
    let mut store = blank_store(alloc, config)?;
    play_twice(rt, &mut store, config, states, first, rest)?;
    Ok(store.retire().retire())
}
