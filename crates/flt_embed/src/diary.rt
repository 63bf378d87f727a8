//! The bytes of a flash, with a list of what was done to them.
ghost use Rattle.std.specs.Prelude.{◌≡◌, ◌+◌, ◌≤◌, Some, length};
ghost use Rattle.flt_file.specs.Bytes.{spliced};
ghost use Rattle.flt_embed.specs.Diary.{diary_bytes};

use crate::operation::Operation;
use flt_file::{ByteStore, StoreFault};
use std::alloc::Global;

/// Bytes in memory, which notes each write to them as an operation on a flash of two sectors. It fails where a write is none, or where no
/// room for one more operation is left; it is as it was then.
#[derive(Drop)]
pub(crate) struct Diary {
    bytes: Vec<u8>,
    pages: u16,
    operations: Vec<Operation>,
}

impl Diary {
    /// These bytes, with room for some operations, of which none was done yet.
    pub(crate) fn new(bytes: Vec<u8>, pages: u16, operations: Vec<Operation>) -> Diary
        ensures { diary_bytes result ≡ bytes.items }
    {
        Diary {
            bytes,
            pages,
            operations,
        }
    }

    /// The bytes as the writes left them, and the operations in their order.
    pub(crate) fn into_parts(self) -> (Vec<u8>, Vec<Operation>)
        ensures { result.0.items ≡ diary_bytes self }
    {
        let Diary {
            bytes,
            operations,
            ..
        } = self;
        (bytes, operations)
    }
}

/// The page of a place where a sector has this many pages, and its sector.
fn place_of(pages: u16, at: usize) -> Option<(u8, u16)> {
    let pages = pages as usize;
    let number = at / 32;
    if at % 32 != 0 {
        None
    } else if number < pages {
        Some((0, number as u16))
    } else if number - pages < pages {
        Some((1, (number - pages) as u16))
    } else {
        None
    }
}

/// The operation that a write is: a page, or a blank sector.
fn operation_of(pages: u16, at: usize, bytes: &[u8]) -> Option<Operation> {
    let (sector, page) = place_of(pages, at)?;
    if let Ok(bytes) = <[u8; 32]>::try_from(bytes) {
        return Some(Operation::Program {
            sector,
            page,
            bytes,
        });
    }
    if page == 0 && bytes.iter().all(|byte| *byte == 255) {
        return Some(Operation::Erase { sector });
    }
    None
}

/// Writes these bytes over those from a place on.
fn overwrite(bytes: &mut Vec<u8>, at: usize, new: &[u8])
    requires { at + length new.now ≤ length bytes.old.items }
    ensures { bytes.new.items ≡ spliced at new.now bytes.old.items }
{
    bytes[at..at + new.len()].copy_from_slice(new);
}

impl ByteStore for Diary {
    ghost told = { λ diary. Some (diary_bytes diary) };

    fn read(&mut self, out: &mut [u8]) -> Result<(), StoreFault> {
        out.copy_from_slice(&self.bytes);
        Ok(())
    }

    fn write(&mut self, at: usize, bytes: &[u8]) -> Result<(), StoreFault> {
        let Some(operation) = operation_of(self.pages, at, bytes) else {
            overwrite(&mut self.bytes, at, &bytes[..0]);
            return Err(StoreFault::Write);
        };
        if self.operations.push(operation).is_err() {
            overwrite(&mut self.bytes, at, &bytes[..0]);
            return Err(StoreFault::Write);
        }
        overwrite(&mut self.bytes, at, bytes);
        Ok(())
    }
}
