//! Where the flash is between two lives of a session.
ghost use Rattle.std.specs.Prelude.{◌≡◌, ◌*◌, ◌<◌, ◌≤◌, ℕ, Bool, List, Option, Some, IfOk, IsTrue, length};
ghost use Rattle.flt_file.specs.Layout.{image_in};
ghost use Rattle.flt_file.specs.MemBytes.{memory_bytes};
ghost use Rattle.flt_live.specs.Shelf.{GivesBack, kept_in};

use flt_file::{ByteStore, FileBytes, FlashFile, MemBytes, OpenFault, open_flash};
use flt_flash::{Bench, Flash};
use std::alloc::Global;
use std::fs::File;
use std::rt::Files;

/// Gives the flash for each life of a session, and takes it back.
pub trait Shelf<B: Bench + Drop> {
    /// The image that it keeps between two lives, if it keeps one.
    ghost kept: { Self → Option (List (List (List ℕ))) };

    /// Whether it reveals that image. No contract of the standard library says which bytes a file keeps, so one of files reveals nothing.
    ghost tells: { Bool };

    /// The flash of this many pages a sector, 2 to 1,024, whose power may come once at least. It has the image that was kept.
    fn open(&mut self, pages: u16) -> Result<B, OpenFault>
        requires least { 2 ≤ pages }
        requires most { pages ≤ 1024 }
        ensures pages { IfOk result (λ flash. (B.state flash).pages ≡ pages) }
        ensures boots { IfOk result (λ flash. 0 < (B.state flash).bench.boots_left) }
        ensures image { IfOk result (λ flash. IsTrue tells → GivesBack (kept self.old) (B.state flash).image) };

    /// Takes the flash back when its life ended, and keeps its image.
    fn close(&mut self, flash: B)
        ensures { IsTrue tells → kept self.new ≡ Some (B.state flash).image };
}

/// A file: each life opens it.
#[derive(Drop)]
pub struct FileShelf<'a, R> {
    /// What opens files.
    pub rt: &'a R,
    /// The path of the file.
    pub path: &'a str,
}

impl<R: Files<File = File> + AllocGlobal> Shelf<FlashFile<FileBytes>> for FileShelf<'_, R> {
    ghost use Rattle.std.specs.Prelude.{None, false};

    ghost kept = { λ _. None };

    ghost tells = { false };

    fn open(&mut self, pages: u16) -> Result<FlashFile<FileBytes>, OpenFault> {
        open_flash(self.rt, self.path, pages)
    }

    // To let it go closes the file.
    fn close(&mut self, _flash: FlashFile<FileBytes>) {}
}

/// The bytes of a flash of two sectors of this many pages.
#[derive(Drop)]
pub struct KeptImage {
    /// How many pages a sector has.
    pub pages: u16,
    /// The bytes of sector 0, and after them those of sector 1.
    pub bytes: Vec<u8>,
}

/// When a flash is cut off from its bytes: after this many writes. The next write leaves its first bytes, this many, and none after it
/// leaves any.
#[derive(Clone, Copy)]
pub struct Stop {
    /// How many writes are made.
    pub writes: u64,
    /// How many bytes the next one leaves.
    pub torn: usize,
}

/// A flash in memory, which is blank at first.
#[derive(Drop)]
pub struct MemShelf<'a, R> {
    rt: &'a R,
    kept: Option<KeptImage>,
    stop: Option<Stop>,
}

impl<'a, R: AllocGlobal> MemShelf<'a, R> {
    /// A blank flash.
    pub fn new(rt: &'a R) -> MemShelf<'a, R> {
        MemShelf {
            rt,
            kept: None,
            stop: None,
        }
    }

    /// A blank flash that is cut off from its bytes in the first life. What the bytes are then is what a process leaves that is killed there, and
    /// the life after it finds them.
    pub fn stopping(rt: &'a R, stop: Stop) -> MemShelf<'a, R> {
        MemShelf {
            rt,
            kept: None,
            stop: Some(stop),
        }
    }
}

/// A store of these bytes, which may stop. It is read once before its first write.
fn store_of(bytes: Vec<u8>, stop: Option<Stop>) -> MemBytes
    ensures { memory_bytes result ≡ bytes.items }
{
    match stop {
        Some(stop) => MemBytes::failing(bytes, stop.writes.saturating_add(1), stop.torn),
        None => MemBytes::new(bytes),
    }
}

/// The bytes of a flash of this many pages: those that were kept, or blank ones.
fn bytes_for(alloc: Global, kept: &mut Option<KeptImage>, pages: u16) -> Result<Vec<u8>, OpenFault>
    ensures size { IfOk result (λ bytes. length bytes.items ≡ 64 * pages) }
    ensures kept { IfOk result (λ bytes. GivesBack (kept_in kept.old) (image_in pages bytes.items)) }
{
    let size = 64 * pages as usize;
    let Some(image) = kept.take() else {
        return Ok(Vec::from_elem(alloc, 255u8, size)?);
    };
    if image.pages == pages && image.bytes.len() == size {
        return Ok(image.bytes);
    }
    let found = image.bytes.len() as u64;
    *kept = Some(image);
    Err(OpenFault::Size {
        found,
        needed: size as u64,
    })
}

impl<R: AllocGlobal> Shelf<FlashFile<MemBytes>> for MemShelf<'_, R> {
    ghost use Rattle.std.specs.Prelude.{true};

    ghost kept = { λ shelf. kept_in shelf.kept };

    ghost tells = { true };

    fn open(&mut self, pages: u16) -> Result<FlashFile<MemBytes>, OpenFault> {
        let alloc = self.rt.alloc();
        let bytes = bytes_for(alloc, &mut self.kept, pages)?;
        let store = store_of(bytes, self.stop.take());
        Ok(FlashFile::load(alloc, store, pages)?)
    }

    fn close(&mut self, flash: FlashFile<MemBytes>) {
        let pages = flash.pages();
        let bytes = flash.into_store().into_bytes();
        self.kept = Some(KeptImage { pages, bytes });
    }
}
