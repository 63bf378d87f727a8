//! A fixed job on a store, each of whose programs and erases, or writes to an EEPROM, is cut or fails by each pattern: what is
//! there then is what was there before the call that failed, or what it asked for.
ghost use Rattle.std.specs.Prelude.{IsTrue};
ghost use Rattle.flt_store.specs.Store.{IsAlive};
ghost use Rattle.flt_store_tests.specs.Room.{IsRoomy, SameRoom};

use super::rows::of_version_1;
use super::*;

/// A call of the job.
#[derive(Clone, Copy)]
pub(super) enum Call {
    Start,
    // Saves the state of an event of this status.
    Save(u8),
    // Puts this byte into block 0.
    Put(u8),
}

/// The job after its start-up: a save, 14 puts, of which the last switches the sectors, a save, and a start-up.
pub(super) static JOB: [Call; 17] = [
    Call::Save(FAILED),
    Call::Put(1),
    Call::Put(2),
    Call::Put(3),
    Call::Put(4),
    Call::Put(5),
    Call::Put(6),
    Call::Put(7),
    Call::Put(8),
    Call::Put(9),
    Call::Put(10),
    Call::Put(11),
    Call::Put(12),
    Call::Put(13),
    Call::Put(14),
    Call::Save(PASSED),
    Call::Start,
];

/// The job on an image of version 1 that holds generation 1, after its start-up: a save, 14 puts, of which the tenth switches the sectors,
/// a save, and a start-up.
pub(super) static OLD_JOB: [Call; 17] = [
    Call::Save(PASSED),
    Call::Put(1),
    Call::Put(2),
    Call::Put(3),
    Call::Put(4),
    Call::Put(5),
    Call::Put(6),
    Call::Put(7),
    Call::Put(8),
    Call::Put(9),
    Call::Put(10),
    Call::Put(11),
    Call::Put(12),
    Call::Put(13),
    Call::Put(14),
    Call::Save(FAILED),
    Call::Start,
];

/// How many programs and erases that makes: 3 of the mark, 10 of each save, whose summary and entry stay, 3 of each put, and 31 of the
/// switch.
pub(super) const OLD_OPERATIONS: u32 = 96;

/// How many programs and erases the job makes: 3 of the first mount, 3 of the mark, 18 of the first save, 10 of the second, whose
/// summary and entry stay, 3 of each put, and 27 of the switch.
pub(super) const OPERATIONS: u32 = 103;

/// How many writes it makes to an EEPROM, where no sector is begun and none switched.
pub(super) const WRITES: u32 = 73;

/// What the image says: the generation's number, the status of its event, and the byte of block 0 where that was put.
#[derive(Clone, Copy, Debug, PartialEq)]
pub(super) struct Told {
    number: u32,
    status: u8,
    byte: Option<u8>,
}

impl Told {
    /// What a blank flash says.
    pub(super) fn blank() -> Told {
        Told {
            number: 0,
            status: NOT_TESTED,
            byte: None,
        }
    }

    /// What an image of version 1 says, after its first save.
    pub(super) fn old() -> Told {
        Told {
            number: 1,
            status: FAILED,
            byte: None,
        }
    }

    /// What it says after a call.
    fn after(self, call: Call) -> Told {
        match call {
            Call::Start => self,
            Call::Save(status) => Told {
                number: self.number.saturating_add(1),
                status,
                ..self
            },
            Call::Put(byte) => Told {
                byte: Some(byte),
                ..self
            },
        }
    }

    /// The state of the generation.
    fn state(self) -> Persist {
        let occurrences: &[u8] = if self.number == 0 { &[] } else { &[1] };
        state(&[self.status], occurrences)
    }
}

/// Starts up; it returns whether that answered `Ok`, with what it has to answer.
fn starts<B: Blocks + Drop>(
    rt: &impl Abort,
    store: &mut Store<B>,
    config: &ValidConfig,
    asked: Told,
) -> bool
    requires { IsRoomy config.now store.old }
    ensures alive { IsTrue result → IsAlive config.now store.new }
    ensures room { SameRoom store.old store.new }
{
    match start(store, config) {
        Err(_) => false,
        Ok((number, state)) => {
            let is_asked = number == asked.number && state == asked.state();
            holds(rt, is_asked, "the state of a start-up");
            true
        }
    }
}

/// Makes a call of the job; it returns whether that answered `Ok`, with what it has to answer.
fn make<B: Blocks + Drop>(
    rt: &impl Abort,
    store: &mut Store<B>,
    config: &ValidConfig,
    call: Call,
    asked: Told,
) -> bool
    requires alive { IsAlive config.now store.old }
    requires room { IsRoomy config.now store.old }
    ensures alive { IsTrue result → IsAlive config.now store.new }
    ensures room { SameRoom store.old store.new }
{
    match call {
        Call::Start => starts(rt, store, config, asked),
        Call::Save(_) => match save(rt, store, config, &asked.state()) {
            Err(_) => false,
            Ok(number) => {
                holds(rt, number == asked.number, "the number of a save");
                true
            }
        },
        Call::Put(byte) => put(rt, store, config, byte).is_ok(),
    }
}

/// Starts up on an image that says this, and makes the calls of a job until one fails: what was there before the last call, and what it
/// asked for.
pub(super) fn run_job<B: Blocks + Drop>(
    rt: &impl Abort,
    store: &mut Store<B>,
    config: &ValidConfig,
    first: Told,
    job: &[Call],
) -> (Told, Told, bool)
    requires { IsRoomy config.now store.old }
    ensures { SameRoom store.old store.new }
{
    if !starts(rt, store, config, first) {
        return (first, first, false);
    }
    let mut before = first;
    for call in job {
        let asked = before.after(*call);
        if !make(rt, store, config, *call, asked) {
            return (before, asked, false);
        }
        before = asked;
    }
    (before, before, true)
}

/// What the store reports when it starts up.
pub(super) fn read_told<B: Blocks + Drop>(
    rt: &impl Abort,
    store: &mut Store<B>,
    config: &ValidConfig,
) -> Result<Told, Fail>
    requires { IsRoomy config.now store.old }
{
    let (number, state) = start(store, config)?;
    let status = match state.events.first() {
        None => 0,
        Some(event) => event.status,
    };
    let byte = get(rt, store, config)?;
    let told = Told {
        number,
        status,
        byte,
    };
    holds(rt, state == told.state(), "the state");
    Ok(told)
}

/// Stops the test unless this is so of what is found after an arm.
fn holds_of(rt: &impl Abort, is_so: bool, made: Arm, found: Told) {
    assert!(rt; is_so, "{made:?} {found:?}");
}

/// Runs a job over a device that says this, with this arm, and starts up with the power on again. It returns whether each call of the job
/// answered `Ok`, and whether the arm is still there.
fn run_case<B: Blocks + Drop>(
    rt: &impl Abort,
    store: Store<B>,
    config: &ValidConfig,
    first: Told,
    job: &[Call],
    made: Arm,
) -> Result<(bool, bool), Fail>
    requires { IsRoomy config.now store }
{
    let mut store = store;
    arm(rt, &mut store, made);
    let (before, asked, done) = run_job(rt, &mut store, config, first, job);
    let stands = store.armed() > 0;
    power_up(&mut store);
    let found = read_told(rt, &mut store, config)?;
    holds_of(rt, found == before || found == asked, made, found);
    Ok((done, stands))
}

/// A cut, or a fault, at this operation.
fn arm_at(is_cut: bool, after: u32, pattern: Pattern) -> Arm {
    if is_cut {
        Arm::Cut { after, pattern }
    } else {
        Arm::Fault { after, pattern }
    }
}

/// Where an operation of the job is cut, the job ends there; by a fault it goes on. After its last operation the arm is still there.
fn assert_ended(rt: &impl Abort, ended: (bool, bool), made: Arm, is_cut: bool, last: bool) {
    assert!(rt; ended == (last || !is_cut, last), "{made:?}");
}

/// The patterns, and whether an operation is cut by each, or fails.
static KINDS: [(Pattern, bool); 8] = [
    (Pattern::Nothing, true),
    (Pattern::All, true),
    (Pattern::Tail, true),
    (Pattern::Odd, true),
    (Pattern::Nothing, false),
    (Pattern::All, false),
    (Pattern::Tail, false),
    (Pattern::Odd, false),
];

#[test]
fn each_operation_is_cut_and_fails(rt: HostRuntime) -> Result<(), Fail> {
    let config = configured(&rt, 1, 1, 1);
    for (pattern, is_cut) in &KINDS {
        for after in 1..OPERATIONS + 2 {
            let made = arm_at(*is_cut, after, *pattern);
            let store = blank_store(rt.alloc(), &config)?;
            let ended = run_case(&rt, store, &config, Told::blank(), &JOB, made)?;
            assert_ended(&rt, ended, made, *is_cut, after > OPERATIONS);
        }
    }
    Ok(())
}

/// The start-up that writes the mark anew, and the saves that write a commit of version 2 beside one of version 1.
#[test]
fn each_operation_on_an_image_of_version_1_is_cut_and_fails(rt: HostRuntime) -> Result<(), Fail> {
    let config = configured(&rt, 1, 1, 1);
    for (pattern, is_cut) in &KINDS {
        for after in 1..OLD_OPERATIONS + 2 {
            let made = arm_at(*is_cut, after, *pattern);
            let store = store_over(rt.alloc(), of_version_1(&rt, rt.alloc())?, &config)?;
            let ended = run_case(&rt, store, &config, Told::old(), &OLD_JOB, made)?;
            assert_ended(&rt, ended, made, *is_cut, after > OLD_OPERATIONS);
        }
    }
    Ok(())
}

#[test]
fn each_write_to_an_eeprom_is_cut_and_fails(rt: HostRuntime) -> Result<(), Fail> {
    let config = configured(&rt, 1, 1, 1);
    for (pattern, is_cut) in &KINDS {
        for after in 1..WRITES + 2 {
            let made = arm_at(*is_cut, after, *pattern);
            let store = units_store(rt.alloc())?;
            let ended = run_case(&rt, store, &config, Told::blank(), &JOB, made)?;
            assert_ended(&rt, ended, made, *is_cut, after > WRITES);
        }
    }
    Ok(())
}
