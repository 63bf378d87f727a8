//! Opens the file of a flash or of an EEPROM.
ghost use Rattle.std.specs.Prelude.{◌≡◌, ◌≤◌, IfOk};
ghost use Rattle.flt_file.specs.FileBytes.{file_bytes_told};
ghost use Rattle.flt_file.specs.FlashFile.{flash_file_state as flash_state, sector_bytes as flash_bytes, first_flash};
ghost use Rattle.flt_file.specs.EepromFile.{eeprom_file_state as eeprom_state, unit_bytes as eeprom_bytes, first_eeprom};

use crate::{EepromFile, FileBytes, FlashFile, LoadFault, StoreFault};
use std::alloc::AllocError;
use std::fs::{self, File, OpenOptions, TryLockError};
use std::io::{self, ErrorKind};
use std::os::fd::AsRawFd;
use std::os::unix::fs::{FileExt, MetadataExt};
use std::rt::Files;
use thiserror::Error;

/// Why a file was not opened. What was at the path is as it was.
#[derive(Debug, Drop, Error)]
pub enum OpenFault {
    /// The folder of the path is missing. Make it, or name another path.
    #[error("the folder of the file is missing")]
    NoFolder,
    /// A folder, a pipe or a device is at the path. Name another path.
    #[error("it is not a file")]
    NoFile,
    /// The file has another size, in bytes: it is that of another device, or of something else. Name another path.
    #[error("the file has {found} bytes and not {needed}")]
    Size { found: u64, needed: u64 },
    /// The file may not be written by anyone, or not by this process. Let it be written, or open a copy.
    #[error("the file may not be written")]
    ReadOnly,
    /// Another device has the file open, in this process or in another, or a process makes the file just now. End that one, and open again.
    #[error("the file is in use")]
    InUse,
    /// The file was missing, and a blank one could not be made. Nothing is at the path; what is beside it, under the name with
    /// `.new`, is taken over by the next opening.
    #[error("the file could not be made: {0}")]
    Make(io::Error),
    /// The system did not open the file, say what it is, or lock it.
    #[error("the file could not be opened: {0}")]
    Open(io::Error),
    /// The folder of the file could not be synced, so it is not known whether it keeps the file. Look after the disk, and open again.
    #[error("the folder of the file could not be synced: {0}")]
    Folder(io::Error),
    /// The bytes of the file could not be read, or not be written back and synced. Look after the disk, and open again.
    #[error("{0}")]
    Store(StoreFault),
    /// Memory ran out.
    #[error("memory ran out")]
    Memory,
}

impl From<AllocError> for OpenFault {
    fn from(_: AllocError) -> OpenFault {
        OpenFault::Memory
    }
}

impl From<LoadFault> for OpenFault {
    fn from(fault: LoadFault) -> OpenFault {
        match fault {
            LoadFault::Memory => OpenFault::Memory,
            LoadFault::Store(fault) => OpenFault::Store(fault),
        }
    }
}

/// Locks a file against each other open of it, and sees that the path still leads to it.
fn lock<R: Files>(rt: &R, file: &File, path: &str) -> Result<(), OpenFault> {
    match file.try_lock() {
        Ok(()) => {}
        Err(TryLockError::WouldBlock) => return Err(OpenFault::InUse),
        Err(TryLockError::Error(error)) => return Err(OpenFault::Open(error)),
    }
    let locked = file.metadata().map_err(OpenFault::Open)?;
    let named = fs::metadata(rt, path).map_err(OpenFault::Open)?;
    if locked.dev() == named.dev() && locked.ino() == named.ino() {
        Ok(())
    } else {
        Err(OpenFault::InUse)
    }
}

/// Opens the draft of a file beside its path, or makes it.
fn open_draft<R: Files<File = File>>(rt: &R, draft: &str) -> Result<File, OpenFault> {
    match OpenOptions::new()
        .read(true)
        .write(true)
        .create(true)
        .open(rt, draft)
    {
        Ok(file) => Ok(file),
        Err(error) if error.kind() == ErrorKind::NotFound => Err(OpenFault::NoFolder),
        Err(error) => Err(OpenFault::Make(error)),
    }
}

/// Makes a draft blank, on the disk too, and gives it its name.
fn name_draft<R: Files>(
    rt: &R,
    file: &File,
    draft: &str,
    path: &str,
    blank: &[u8],
) -> io::Result<()> {
    file.set_len(0)?;
    file.write_all_at(blank, 0)?;
    file.sync_all()?;
    fs::rename(rt, draft, path)
}

/// Makes a blank file of this many bytes at a path where there was none. It has its name only once it is whole. Of two processes that make
/// it at the same time one is refused.
fn make<R: Files<File = File> + AllocGlobal>(
    rt: &R,
    path: &str,
    size: usize,
) -> Result<File, OpenFault> {
    let blank = Vec::from_elem(rt.alloc(), 255u8, size)?;
    let draft = format!(in rt.alloc(); "{path}.new")?;
    let file = open_draft(rt, draft.as_str())?;
    lock(rt, &file, draft.as_str())?;
    if fs::exists(rt, path).map_err(OpenFault::Open)? {
        return Err(OpenFault::InUse);
    }
    name_draft(rt, &file, draft.as_str(), path, &blank).map_err(OpenFault::Make)?;
    Ok(file)
}

/// Opens a file that is there, and locks it.
fn open_there<R: Files<File = File>>(rt: &R, path: &str) -> Result<File, OpenFault> {
    match OpenOptions::new().read(true).write(true).open(rt, path) {
        Ok(file) => {
            lock(rt, &file, path)?;
            Ok(file)
        }
        Err(error) => match error.kind() {
            ErrorKind::PermissionDenied | ErrorKind::ReadOnlyFilesystem => Err(OpenFault::ReadOnly),
            _ => Err(OpenFault::Open(error)),
        },
    }
}

/// The file at a path, locked; a blank one of this many bytes is made if there is none.
fn find<R: Files<File = File> + AllocGlobal>(
    rt: &R,
    path: &str,
    size: usize,
) -> Result<File, OpenFault> {
    match fs::metadata(rt, path) {
        Ok(found) if !found.is_file() => Err(OpenFault::NoFile),
        Ok(found) if found.permissions().readonly() => Err(OpenFault::ReadOnly),
        Ok(_) => open_there(rt, path),
        Err(error) if error.kind() == ErrorKind::NotFound => make(rt, path, size),
        Err(error) => Err(OpenFault::Open(error)),
    }
}

/// Syncs the folder in which a file lies, so that it keeps the name of the file.
fn sync_folder<R: Files<File = File> + AllocGlobal>(rt: &R, path: &str) -> io::Result<()> {
    let mut folder = fs::canonicalize(rt, path)?;
    folder.pop();
    File::open(rt, folder.as_str())?.sync_all()
}

/// The file of this many bytes at a path, locked.
fn open_bytes<R: Files<File = File> + AllocGlobal>(
    rt: &R,
    path: &str,
    size: usize,
) -> Result<FileBytes, OpenFault> {
    let mut file = find(rt, path, size)?;
    // What is printed to a standard stream that was closed must not land in the file.
    if file.as_raw_fd() <= 2 {
        file = file.try_clone().map_err(OpenFault::Open)?;
    }
    let needed = size as u64;
    let found = file.metadata().map_err(OpenFault::Open)?.len();
    if found != needed {
        return Err(OpenFault::Size { found, needed });
    }
    sync_folder(rt, path).map_err(OpenFault::Folder)?;
    Ok(FileBytes::new(file))
}

/// Opens the flash of two sectors of this many pages, 2 to 1,024, in the file at this path of 64 bytes a page, sector 0 first. If the file
/// is missing, it is made blank. The flash is off, and its power may come once. No other opening of the file succeeds before it is dropped.
///
/// # Errors
///
/// `OpenFault` says why; a file that was there is as it was, byte for byte.
pub fn open_flash<R: Files<File = File> + AllocGlobal>(
    rt: &R,
    path: &str,
    pages: u16,
) -> Result<FlashFile<FileBytes>, OpenFault>
    requires least { 2 ≤ pages }
    requires most { pages ≤ 1024 }
    ensures { IfOk result (λ flash. flash_state file_bytes_told flash ≡ first_flash pages (flash_bytes file_bytes_told flash)) }
{
    let store = open_bytes(rt, path, 64 * pages as usize)?;
    Ok(FlashFile::load(rt.alloc(), store, pages)?)
}

/// Opens the EEPROM of this many units in the file at this path of 32 bytes a unit. If the file is missing, it is made blank. The device is
/// off, and its power may come once. No other opening of the file succeeds before it is dropped.
///
/// # Errors
///
/// `OpenFault` says why; a file that was there is as it was, byte for byte.
pub fn open_eeprom<R: Files<File = File> + AllocGlobal>(
    rt: &R,
    path: &str,
    units: u16,
) -> Result<EepromFile<FileBytes>, OpenFault>
    ensures { IfOk result (λ device. eeprom_state file_bytes_told device ≡ first_eeprom units (eeprom_bytes file_bytes_told device)) }
{
    let store = open_bytes(rt, path, 32 * units as usize)?;
    Ok(EepromFile::load(rt.alloc(), store, units)?)
}
