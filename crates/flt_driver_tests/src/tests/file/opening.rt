//! Real files, in the working folder: a job whose blocks are found again, and each refusal, after which the file is as it was.
use super::*;
use std::fs::{File, Permissions};
use std::io;
use std::os::unix::fs::PermissionsExt;
use std::rt::Files;

/// Makes an empty folder of this name.
fn make_folder<R: Files<File = File> + AllocGlobal + Abort>(rt: &R, folder: &str) {
    let _ = fs::remove_dir_all(rt, folder);
    holds(rt, fs::create_dir(rt, folder).is_ok(), folder);
}

/// Removes a folder.
fn remove_folder<R: Files<File = File> + AllocGlobal + Abort>(rt: &R, folder: &str) {
    holds(rt, fs::remove_dir_all(rt, folder).is_ok(), folder);
}

/// Whether a file has these bytes.
fn has_bytes<R: Files<File = File> + AllocGlobal>(rt: &R, path: &str, bytes: &[u8]) -> bool {
    match fs::read(rt, path) {
        Ok(found) => found.as_slice() == bytes,
        Err(_) => false,
    }
}

/// Whether there is no file of this name.
fn is_missing<R: Files<File = File> + AllocGlobal>(rt: &R, path: &str) -> bool {
    matches!(fs::exists(rt, path), Ok(false))
}

/// The job in memory: its bytes.
fn flash_in_memory(alloc: Global) -> Result<Vec<u8>, Fail> {
    let blank = Vec::from_elem(alloc, 255u8, 896)?;
    let mut fee = fee_over(alloc, FlashFile::load(alloc, MemBytes::new(blank), PAGES)?)?;
    live(&mut fee);
    Ok(fee.retire().into_store().into_bytes())
}

/// The bytes of a flash that is new.
static BLANK: [u8; 896] = [255; 896];

/// Makes the job over a flash that is new, and in use until then.
fn live_in_flash<R: Files<File = File> + AllocGlobal + Abort>(
    rt: &R,
    path: &str,
    wanted: &[u8],
) -> Result<Progress, Fail> {
    let flash = open_flash(rt, path, PAGES)?;
    holds(rt, has_bytes(rt, path, &BLANK), "a new flash");
    let mut fee = fee_over(rt.alloc(), flash)?;
    let progress = live(&mut fee);
    holds(rt, has_bytes(rt, path, wanted), "the flash after the job");
    is_refused(rt, path, "the file is in use");
    Ok(progress)
}

/// Whether the blocks of a flash may be found as a job left them.
fn is_found_in_flash<R: Files<File = File> + AllocGlobal>(
    rt: &R,
    path: &str,
    progress: &Progress,
) -> Result<bool, Fail> {
    let mut fee = fee_over(rt.alloc(), open_flash(rt, path, PAGES)?)?;
    Ok(progress.allows(look(&mut fee)?))
}

#[test]
fn a_flash_is_found_again(rt: HostRuntime) -> Result<(), Fail> {
    let path = "flash_is_found_again/image";
    make_folder(&rt, "flash_is_found_again");
    let wanted = flash_in_memory(rt.alloc())?;
    let progress = live_in_flash(&rt, path, &wanted)?;
    holds(&rt, progress.is_whole, "the job is whole");
    holds(&rt, is_found_in_flash(&rt, path, &progress)?, "the blocks");
    remove_folder(&rt, "flash_is_found_again");
    Ok(())
}

/// Whether a file is so long.
fn has_length<R: Files<File = File> + AllocGlobal>(rt: &R, path: &str, length: u64) -> bool {
    match fs::metadata(rt, path) {
        Ok(found) => found.len() == length,
        Err(_) => false,
    }
}

/// Makes the job over an EEPROM that is new.
fn live_in_eeprom<R: Files<File = File> + AllocGlobal + Abort>(
    rt: &R,
    path: &str,
) -> Result<Progress, Fail> {
    let mut ea = ea_over(rt.alloc(), open_eeprom(rt, path, UNITS)?)?;
    let progress = live(&mut ea);
    holds(rt, has_length(rt, path, 640), "the length of the file");
    Ok(progress)
}

/// Whether the blocks of an EEPROM may be found as a job left them.
fn is_found_in_eeprom<R: Files<File = File> + AllocGlobal>(
    rt: &R,
    path: &str,
    progress: &Progress,
) -> Result<bool, Fail> {
    let mut ea = ea_over(rt.alloc(), open_eeprom(rt, path, UNITS)?)?;
    Ok(progress.allows(look(&mut ea)?))
}

#[test]
fn an_eeprom_is_found_again(rt: HostRuntime) -> Result<(), Fail> {
    let path = "eeprom_is_found_again";
    let _ = fs::remove_file(&rt, path);
    let progress = live_in_eeprom(&rt, path)?;
    holds(&rt, progress.is_whole, "the job is whole");
    holds(&rt, is_found_in_eeprom(&rt, path, &progress)?, "the blocks");
    holds(&rt, fs::remove_file(&rt, path).is_ok(), path);
    Ok(())
}

/// Sees that a fault has this text.
fn reads<R: AllocGlobal + Abort>(rt: &R, fault: OpenFault, text: &str) {
    match fault.to_string(rt.alloc()) {
        Ok(found) => assert!(rt; found.as_str() == text, "{found:?} and not {text:?}"),
        Err(_) => holds(rt, false, text),
    }
}

/// Sees that neither a flash nor an EEPROM of 896 bytes is opened, with this text.
fn is_refused<R: Files<File = File> + AllocGlobal + Abort>(rt: &R, path: &str, text: &str) {
    match open_flash(rt, path, PAGES) {
        Ok(_) => holds(rt, false, path),
        Err(fault) => reads(rt, fault, text),
    }
    match open_eeprom(rt, path, 28) {
        Ok(_) => holds(rt, false, path),
        Err(fault) => reads(rt, fault, text),
    }
}

/// Files that are no image, each with its bytes, its permissions and what is reported of it.
static FILES: [(&str, &[u8], u32, &str); 3] = [
    (
        "refused/short",
        &[7; 895],
        0o644,
        "the file has 895 bytes and not 896",
    ),
    (
        "refused/long",
        &[7; 897],
        0o644,
        "the file has 897 bytes and not 896",
    ),
    (
        "refused/kept",
        &[7; 896],
        0o444,
        "the file may not be written",
    ),
];

/// Paths of no image, each with what is reported of it.
static PATHS: [(&str, &str); 3] = [
    ("refused/missing/image", "the folder of the file is missing"),
    ("refused", "it is not a file"),
    (
        "refused/kept/image",
        "the file could not be opened: Not a directory (os error 20)",
    ),
];

/// Whether a file of these bytes and permissions is made.
fn makes_file<R: Files<File = File> + AllocGlobal>(
    rt: &R,
    path: &str,
    bytes: &[u8],
    mode: u32,
) -> bool {
    fs::write(rt, path, bytes).is_ok()
        && fs::set_permissions(rt, path, Permissions::from_mode(mode)).is_ok()
}

#[test]
fn what_is_no_image_is_refused(rt: HostRuntime) {
    make_folder(&rt, "refused");
    for (path, bytes, mode, text) in &FILES {
        holds(&rt, makes_file(&rt, path, bytes, *mode), path);
        is_refused(&rt, path, text);
        holds(&rt, has_bytes(&rt, path, bytes), path);
    }
    for (path, text) in &PATHS {
        is_refused(&rt, path, text);
    }
    holds(&rt, is_missing(&rt, "refused/missing"), "a missing folder");
    make_folder(&rt, "refused/image.new");
    let text = "the file could not be made: Is a directory (os error 21)";
    is_refused(&rt, "refused/image", text);
    holds(&rt, is_missing(&rt, "refused/image"), "a missing image");
    remove_folder(&rt, "refused");
}

/// A draft that an earlier process left.
static DRAFT: [u8; 2000] = [7; 2000];

/// A draft that an earlier process left is taken over, whatever is in it.
#[test]
fn a_draft_is_taken_over(rt: HostRuntime) {
    make_folder(&rt, "draft");
    holds(
        &rt,
        makes_file(&rt, "draft/image.new", &DRAFT, 0o644),
        "a draft",
    );
    holds(
        &rt,
        open_flash(&rt, "draft/image", PAGES).is_ok(),
        "an image",
    );
    holds(&rt, has_bytes(&rt, "draft/image", &BLANK), "a new flash");
    holds(&rt, is_missing(&rt, "draft/image.new"), "a missing draft");
    remove_folder(&rt, "draft");
}

#[test]
fn each_other_fault_has_its_text(rt: HostRuntime) {
    reads(
        &rt,
        OpenFault::Folder(io::Error::from_raw_os_error(5)),
        "the folder of the file could not be synced: Input/output error (os error 5)",
    );
    let read = OpenFault::from(LoadFault::from(StoreFault::Read));
    reads(&rt, read, "the bytes could not be read");
    let written = OpenFault::from(LoadFault::from(StoreFault::Write));
    reads(&rt, written, "the bytes could not be written");
    let synced = OpenFault::from(LoadFault::from(StoreFault::Sync));
    reads(&rt, synced, "the bytes could not be synced");
    reads(&rt, OpenFault::from(LoadFault::Memory), "memory ran out");
}
