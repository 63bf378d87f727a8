//! The jobs over a flash and an EEPROM that a store of bytes keeps, which stops in each write after each number of its bytes: what the bytes
//! then hold is opened again, and says what was there before the call that failed, or what it asked for.
ghost use Rattle.std.specs.Prelude.{◌≡◌, IfOk, Some};
ghost use Rattle.flt_file.specs.MemBytes.{memory_bytes};
ghost use Rattle.flt_store_tests.specs.Room.{IsRoomy, SameRoom};

use super::cuts::{
    Call, JOB, OLD_JOB, OLD_OPERATIONS, OPERATIONS, Told, WRITES, read_told, run_job,
};
use super::rows::{image_of, of_version_1};
use super::*;
use flt_file::{ByteStore, EepromFile, FlashFile, MemBytes, StoreFault};

/// The bytes of a flash, and of an EEPROM.
const FLASH_BYTES: usize = 4096;

const UNITS_BYTES: usize = 34_880;

/// A job on bytes, after its start-up, with what these say, and how many writes it makes.
#[derive(Drop)]
struct Case<'a> {
    bytes: &'a [u8],
    first: Told,
    job: &'a [Call],
    writes: u32,
}

/// Where a store of bytes stops: in the write of this number, counted from 1, after this many bytes.
#[derive(Clone, Copy, Debug)]
struct Stop {
    write: u32,
    bytes: usize,
}

/// Bytes in memory that note how long the first write was that failed.
#[derive(Drop)]
struct Noted {
    bytes: MemBytes,
    stopped: Option<usize>,
}

impl Noted {
    /// These bytes, which may stop. Their read at the opening counts as number 0.
    fn new(bytes: Vec<u8>, stop: Option<Stop>) -> Noted
        ensures { memory_bytes result.bytes ≡ bytes.items }
    {
        Noted {
            bytes: match stop {
                None => MemBytes::new(bytes),
                Some(stop) => MemBytes::failing(bytes, u64::from(stop.write), stop.bytes),
            },
            stopped: None,
        }
    }
}

impl ByteStore for Noted {
    ghost told = { λ store. Some (memory_bytes store.bytes) };

    fn read(&mut self, out: &mut [u8]) -> Result<(), StoreFault> {
        self.bytes.read(out)
    }

    fn write(&mut self, at: usize, bytes: &[u8]) -> Result<(), StoreFault> {
        let written = self.bytes.write(at, bytes);
        if written.is_err() && self.stopped.is_none() {
            self.stopped = Some(bytes.len());
        }
        written
    }
}

/// A store over a flash in these bytes.
fn flash_store(
    alloc: Global,
    bytes: Vec<u8>,
    config: &ValidConfig,
    stop: Option<Stop>,
) -> Result<Store<Fee<FlashFile<Noted>>>, Fail>
    ensures { IfOk result (λ store. IsRoomy config.now store) }
{
    if bytes.len() != FLASH_BYTES {
        return Err(Fail::from("size"));
    }
    let flash = FlashFile::load(alloc, Noted::new(bytes, stop), PAGES)?;
    store_over(alloc, flash, config)
}

/// A store over an EEPROM in these bytes.
fn units_store_in(
    alloc: Global,
    bytes: Vec<u8>,
    config: &ValidConfig,
    stop: Option<Stop>,
) -> Result<Store<Ea<EepromFile<Noted>>>, Fail>
    ensures { IfOk result (λ store. IsRoomy config.now store) }
{
    if bytes.len() != UNITS_BYTES {
        return Err(Fail::from("size"));
    }
    let device = EepromFile::load(alloc, Noted::new(bytes, stop), UNITS)?;
    store_of_units(alloc, units_over(alloc, device)?)
}

/// Turns the power on, and makes a job until a call fails: what was there before the last call, and what it asked for.
fn live<B: Blocks + Drop>(
    rt: &impl Abort,
    store: &mut Store<B>,
    config: &ValidConfig,
    case: &Case<'_>,
) -> (Told, Told)
    requires { IsRoomy config.now store.old }
    ensures { SameRoom store.old store.new }
{
    power_up(store);
    let (before, asked, _) = run_job(rt, store, config, case.first, case.job);
    (before, asked)
}

/// Turns the power on, and looks whether the store says one of these.
fn says<B: Blocks + Drop>(
    rt: &impl Abort,
    store: Store<B>,
    config: &ValidConfig,
    before: Told,
    asked: Told,
) -> Result<bool, Fail>
    requires { IsRoomy config.now store }
{
    let mut store = store;
    power_up(&mut store);
    let found = read_told(rt, &mut store, config)?;
    Ok(found == before || found == asked)
}

/// Stops the test unless this is so of a stop.
fn holds_of(rt: &impl Abort, is_so: bool, stop: Stop) {
    assert!(rt; is_so, "{stop:?}");
}

/// Makes a job on a flash in bytes that stop, and opens them again. It returns how long the write was that stopped.
fn flash_stops(
    rt: &impl Abort,
    alloc: Global,
    config: &ValidConfig,
    case: &Case<'_>,
    stop: Stop,
) -> Result<Option<usize>, Fail> {
    let bytes = Vec::from_slice(alloc, case.bytes)?;
    let mut store = flash_store(alloc, bytes, config, Some(stop))?;
    let (before, asked) = live(rt, &mut store, config, case);
    let noted = store.retire().retire().into_store();
    let again = flash_store(alloc, noted.bytes.into_bytes(), config, None)?;
    holds_of(rt, says(rt, again, config, before, asked)?, stop);
    Ok(noted.stopped)
}

/// The same on an EEPROM.
fn units_stop(
    rt: &impl Abort,
    alloc: Global,
    config: &ValidConfig,
    case: &Case<'_>,
    stop: Stop,
) -> Result<Option<usize>, Fail> {
    let bytes = Vec::from_slice(alloc, case.bytes)?;
    let mut store = units_store_in(alloc, bytes, config, Some(stop))?;
    let (before, asked) = live(rt, &mut store, config, case);
    let noted = store.retire().retire().into_store();
    let again = units_store_in(alloc, noted.bytes.into_bytes(), config, None)?;
    holds_of(rt, says(rt, again, config, before, asked)?, stop);
    Ok(noted.stopped)
}

/// One write of a job on a flash stops after each number of its bytes. It returns how many it has.
fn write_stops(
    rt: &impl Abort,
    alloc: Global,
    config: &ValidConfig,
    case: &Case<'_>,
    write: u32,
) -> Result<usize, Fail> {
    for bytes in 0..FLASH_BYTES {
        let stopped = flash_stops(rt, alloc, config, case, Stop { write, bytes })?;
        if stopped == Some(bytes) {
            return Ok(bytes);
        }
    }
    Err(Fail::from("no write is so long"))
}

/// Each write of a job on a flash stops after each number of its bytes: 32 of a program, and those of a sector of an erase.
fn each_stops(rt: &impl Abort, alloc: Global, case: &Case<'_>, erases: u32) -> Result<(), Fail> {
    let config = configured(rt, 1, 1, 1);
    let mut whole = 0u32;
    for write in 1..case.writes.saturating_add(1) {
        let length = write_stops(rt, alloc, &config, case, write)?;
        if length == FLASH_BYTES / 2 {
            whole = whole.saturating_add(1);
        } else {
            holds_at(rt, length == 32, "the bytes of write", write as usize);
        }
    }
    holds_at(rt, whole == erases, "the erases are not", whole as usize);
    let behind = Stop {
        write: case.writes.saturating_add(1),
        bytes: 0,
    };
    let stopped = flash_stops(rt, alloc, &config, case, behind)?;
    holds_of(rt, stopped.is_none(), behind);
    Ok(())
}

/// The bytes of the pages of an image.
fn all_bytes(alloc: Global, image: &[[u8; 32]]) -> Result<Vec<u8>, Fail> {
    let mut bytes = Vec::new(alloc);
    for page in image {
        bytes.extend_from_slice(page)?;
    }
    Ok(bytes)
}

#[test]
fn each_write_to_the_bytes_of_a_flash_stops(rt: HostRuntime) -> Result<(), Fail> {
    let blank = Vec::from_elem(rt.alloc(), 0xFFu8, FLASH_BYTES)?;
    let case = Case {
        bytes: &blank,
        first: Told::blank(),
        job: &JOB,
        writes: OPERATIONS,
    };
    each_stops(&rt, rt.alloc(), &case, 2)
}

#[test]
fn each_write_to_the_bytes_of_version_1_stops(rt: HostRuntime) -> Result<(), Fail> {
    let flash = of_version_1(&rt, rt.alloc())?;
    let old = all_bytes(rt.alloc(), &image_of(rt.alloc(), &flash)?)?;
    let case = Case {
        bytes: &old,
        first: Told::old(),
        job: &OLD_JOB,
        writes: OLD_OPERATIONS,
    };
    each_stops(&rt, rt.alloc(), &case, 1)
}

#[test]
fn each_write_to_the_bytes_of_an_eeprom_stops(rt: HostRuntime) -> Result<(), Fail> {
    let config = configured(&rt, 1, 1, 1);
    let blank = Vec::from_elem(rt.alloc(), 0xFFu8, UNITS_BYTES)?;
    let case = Case {
        bytes: &blank,
        first: Told::blank(),
        job: &JOB,
        writes: WRITES,
    };
    for bytes in 0..33usize {
        for write in 1..WRITES + 2 {
            let stop = Stop { write, bytes };
            let stopped = units_stop(&rt, rt.alloc(), &config, &case, stop)?;
            holds_of(&rt, stopped.is_none() == (write > WRITES), stop);
        }
    }
    Ok(())
}
