//! Where pages and units are in the bytes, by offsets that are written out, and a device that is off after a failure.
ghost use Rattle.std.specs.Prelude.{◌≡◌, IfOk, length};

use super::*;

/// Four pages, of which each byte is that of its page.
fn paged(alloc: Global) -> Result<Vec<u8>, Fail>
    ensures { IfOk result (λ made. length made.items ≡ 128) }
{
    let mut bytes = Vec::from_elem(alloc, 0u8, 128)?;
    for at in 0..128usize {
        bytes[at] = (at / 32) as u8;
    }
    Ok(bytes)
}

/// Whether these are four pages, of which each byte is this one of its page, but that so many at the front are blank.
fn are_paged(bytes: &[u8], pages: [u8; 4], blank: usize) -> bool {
    for (at, byte) in bytes.iter().enumerate() {
        let wanted = if at < blank {
            Some(255)
        } else {
            pages.get(at / 32).copied()
        };
        if wanted != Some(*byte) {
            return false;
        }
    }
    bytes.len() == 128
}

/// Whether each byte of a page is this one.
fn has_page<F: Flash>(flash: &mut F, sector: u8, page: u16, byte: u8) -> bool {
    let mut out = [9; 32];
    sector < 2
        && page < flash.pages()
        && flash.read_page(sector, page, &mut out).is_ok()
        && out == [byte; 32]
}

/// Whether a sector can be erased.
fn can_erase<F: Flash>(flash: &mut F, sector: u8) -> bool {
    sector < 2 && flash.erase(sector).is_ok()
}

/// The pages of both sectors, each with its byte.
static PAGES_OF_BOTH: [(u8, u16, u8); 4] = [(0, 0, 0), (0, 1, 1), (1, 0, 2), (1, 1, 3)];

/// Whether each page has its byte.
fn has_each_page<F: Flash>(flash: &mut F) -> bool {
    for (sector, page, byte) in &PAGES_OF_BOTH {
        if !has_page(flash, *sector, *page, *byte) {
            return false;
        }
    }
    true
}

#[test]
fn a_flash_has_sector_0_first(rt: HostRuntime) -> Result<(), Fail> {
    let bytes = paged(rt.alloc())?;
    let mut flash = FlashFile::load(rt.alloc(), MemBytes::new(bytes), 2)?;
    flash.power_up();
    holds(&rt, has_each_page(&mut flash), "each page of both sectors");
    holds(&rt, can_erase(&mut flash, 1), "an erase of sector 1");
    let bytes = flash.into_store().into_bytes();
    holds(&rt, are_paged(&bytes, [0, 1, 255, 255], 0), "the bytes");
    Ok(())
}

/// Whether each byte of a unit is this one.
fn has_unit<E: Eeprom>(device: &mut E, unit: u16, byte: u8) -> bool {
    let mut out = [9; 32];
    unit < device.units() && device.read_unit(unit, &mut out).is_ok() && out == [byte; 32]
}

/// Whether each byte of a unit can be made this one.
fn can_write<E: Eeprom>(device: &mut E, unit: u16, byte: u8) -> bool {
    unit < device.units() && device.write_unit(unit, &[byte; 32]).is_ok()
}

#[test]
fn a_unit_has_32_bytes(rt: HostRuntime) -> Result<(), Fail> {
    let bytes = paged(rt.alloc())?;
    let mut device = EepromFile::load(rt.alloc(), MemBytes::new(bytes), 4)?;
    device.power_up();
    holds(&rt, has_unit(&mut device, 3, 3), "a read of unit 3");
    holds(&rt, can_write(&mut device, 1, 7), "a write of unit 1");
    let bytes = device.into_store().into_bytes();
    holds(&rt, are_paged(&bytes, [0, 7, 2, 3], 0), "the bytes");
    Ok(())
}

/// Whether a page can be read.
fn can_read<F: Flash>(flash: &mut F, sector: u8, page: u16) -> bool {
    sector < 2 && page < flash.pages() && flash.read_page(sector, page, &mut [9; 32]).is_ok()
}

/// Turns the power on, where it may come back.
fn switch_on<B: Bench>(flash: &mut B) {
    if flash.boots_left() > 0 {
        flash.power_up();
    }
}

/// Whether a device without power can't be read or erased, and its power may not come back.
fn is_off<B: Bench>(flash: &mut B) -> bool {
    !can_read(flash, 1, 0) && !can_erase(flash, 1) && flash.boots_left() == 0 && flash.armed() == 0
}

/// Whether each sector counts as erased once, beside these many operations in all.
fn is_erased_once<F: Flash>(flash: &F, operations: u64) -> bool {
    flash.operations() == operations && flash.wear(0) == 1 && flash.wear(1) == 1
}

/// The store fails at its first write, of which it keeps five bytes.
#[test]
fn a_flash_is_off_after_a_failure(rt: HostRuntime) -> Result<(), Fail> {
    let store = MemBytes::failing(paged(rt.alloc())?, 1, 5);
    let mut flash = FlashFile::load(rt.alloc(), store, 2)?;
    holds(&rt, !can_read(&mut flash, 0, 0), "a read without power");
    holds(&rt, flash.boots_left() == 1, "one boot is left");
    switch_on(&mut flash);
    holds(&rt, can_read(&mut flash, 0, 0), "a read with power");
    holds(&rt, !can_erase(&mut flash, 0), "an erase that fails");
    holds(&rt, is_off(&mut flash), "the flash is off");
    holds(
        &rt,
        is_erased_once(&flash, 5),
        "its operations and its wear",
    );
    let bytes = flash.into_store().into_bytes();
    holds(&rt, are_paged(&bytes, [0, 1, 2, 3], 5), "the bytes");
    Ok(())
}
