//! A job over a store in memory that fails at each of its reads and writes in turn: what it kept is opened again, and each block holds what
//! it held or what was asked.
use super::*;

/// How many bytes a write that fails writes: none, a part of a page, a page, and a part of an erase.
static WRITTEN: [usize; 6] = [0, 1, 16, 31, 32, 100];

/// The number of programs and erases of the job, as `fee/cuts.rt` has it.
const FLASH_WRITES: u64 = 43;

/// The number of writes of units of the job, as `ea/cuts.rt` has it.
const EEPROM_WRITES: u64 = 22;

/// A store of bytes that fails from this read or write on, of which it then writes this many bytes.
#[derive(Clone, Copy)]
struct Failing {
    from: u64,
    written: usize,
}

/// Stops the test unless this is so of a job over such a store.
fn holds_of(rt: &impl Abort, is_so: bool, failing: Failing) {
    let Failing { from, written } = failing;
    assert!(rt; is_so, "{from} {written}");
}

/// Makes the job over a flash, and opens again what it kept. It answers whether all of the job was made.
fn live_in_flash(
    rt: &impl Abort,
    alloc: Global,
    flash: FlashFile<MemBytes>,
    failing: Failing,
) -> Result<Option<bool>, Fail> {
    let mut fee = fee_over(alloc, flash)?;
    let progress = live(&mut fee);
    let found = look_into_flash(alloc, fee.retire().into_store().into_bytes())?;
    holds_of(rt, progress.allows(found), failing);
    Ok(Some(progress.is_whole))
}

/// The same over an EEPROM.
fn live_in_eeprom(
    rt: &impl Abort,
    alloc: Global,
    device: EepromFile<MemBytes>,
    failing: Failing,
) -> Result<Option<bool>, Fail> {
    let mut ea = ea_over(alloc, device)?;
    let progress = live(&mut ea);
    let found = look_into_eeprom(alloc, ea.retire().into_store().into_bytes())?;
    holds_of(rt, progress.allows(found), failing);
    Ok(Some(progress.is_whole))
}

/// Whether a store could not be read.
fn is_unread(fault: LoadFault) -> bool {
    fault == LoadFault::Store(StoreFault::Read)
}

/// Makes the job over a blank flash whose store fails so. It answers whether all of the job was made, or nothing where the store was not
/// read.
fn flash_fails(rt: &impl Abort, alloc: Global, failing: Failing) -> Result<Option<bool>, Fail> {
    let blank = Vec::from_elem(alloc, 255u8, 896)?;
    let store = MemBytes::failing(blank, failing.from, failing.written);
    match FlashFile::load(alloc, store, PAGES) {
        Err(fault) => {
            holds_of(rt, is_unread(fault), failing);
            Ok(None)
        }
        Ok(flash) => live_in_flash(rt, alloc, flash, failing),
    }
}

/// The same over a blank EEPROM.
fn eeprom_fails(rt: &impl Abort, alloc: Global, failing: Failing) -> Result<Option<bool>, Fail> {
    let blank = Vec::from_elem(alloc, 255u8, 640)?;
    let store = MemBytes::failing(blank, failing.from, failing.written);
    match EepromFile::load(alloc, store, UNITS) {
        Err(fault) => {
            holds_of(rt, is_unread(fault), failing);
            Ok(None)
        }
        Ok(device) => live_in_eeprom(rt, alloc, device, failing),
    }
}

/// What is known of a job of this many writes over a store that fails from this read or write on: the first one is the read.
fn told(failing: u64, writes: u64) -> Option<bool> {
    if failing == 0 {
        None
    } else {
        Some(failing > writes)
    }
}

#[test]
fn each_write_of_a_flash_fails(rt: HostRuntime) -> Result<(), Fail> {
    for written in &WRITTEN {
        for from in 0..46u64 {
            let failing = Failing {
                from,
                written: *written,
            };
            let found = flash_fails(&rt, rt.alloc(), failing)?;
            holds_of(&rt, found == told(from, FLASH_WRITES), failing);
        }
    }
    Ok(())
}

#[test]
fn each_write_of_an_eeprom_fails(rt: HostRuntime) -> Result<(), Fail> {
    for written in &WRITTEN {
        for from in 0..25u64 {
            let failing = Failing {
                from,
                written: *written,
            };
            let found = eeprom_fails(&rt, rt.alloc(), failing)?;
            holds_of(&rt, found == told(from, EEPROM_WRITES), failing);
        }
    }
    Ok(())
}
