//! Bytes in memory that reveal what they are, and that fail when they are asked to.
ghost use Rattle.std.specs.Prelude.{◌≡◌, ◌+◌, ◌≤◌, Some, length};
ghost use Rattle.flt_file.specs.Bytes.{spliced};

use crate::{ByteStore, StoreFault};

/// Bytes in memory, for tests of what a failure of a store leaves. They fail from a chosen read or write on, and a write that fails writes
/// the first of its bytes.
#[derive(Drop)]
pub struct MemBytes {
    bytes: Vec<u8>,
    // How many more reads and writes succeed, where not all do.
    left: Option<u64>,
    written: usize,
}

impl MemBytes {
    ghost use Rattle.flt_file.specs.MemBytes.{memory_bytes};

    /// These bytes, which never fail.
    pub fn new(bytes: Vec<u8>) -> MemBytes
        ensures { memory_bytes result ≡ bytes.items }
    {
        MemBytes {
            bytes,
            left: None,
            written: 0,
        }
    }

    /// These bytes. The read or write number `failing`, counted from 0, fails, and each one after it; a write that fails writes its first
    /// `written` bytes.
    pub fn failing(bytes: Vec<u8>, failing: u64, written: usize) -> MemBytes
        ensures { memory_bytes result ≡ bytes.items }
    {
        MemBytes {
            bytes,
            left: Some(failing),
            written,
        }
    }

    /// The bytes as the writes left them.
    pub fn into_bytes(self) -> Vec<u8>
        ensures { result.items ≡ memory_bytes self }
    {
        self.bytes
    }

    /// Counts a read or a write, and says whether it fails.
    fn count(&mut self) -> bool
        ensures { memory_bytes self.new ≡ memory_bytes self.old }
    {
        match self.left {
            None => false,
            Some(0) => true,
            Some(left) => {
                self.left = Some(left - 1);
                false
            }
        }
    }
}

/// Writes these bytes over those from a place on.
pub(crate) fn overwrite(bytes: &mut Vec<u8>, at: usize, new: &[u8])
    requires { at + length new.now ≤ length bytes.old.items }
    ensures { bytes.new.items ≡ spliced at new.now bytes.old.items }
{
    bytes[at..at + new.len()].copy_from_slice(new);
}

impl ByteStore for MemBytes {
    ghost use Rattle.flt_file.specs.MemBytes.{memory_bytes};

    ghost told = { λ store. Some (memory_bytes store) };

    fn read(&mut self, out: &mut [u8]) -> Result<(), StoreFault> {
        if self.count() {
            return Err(StoreFault::Read);
        }
        out.copy_from_slice(&self.bytes);
        Ok(())
    }

    fn write(&mut self, at: usize, bytes: &[u8]) -> Result<(), StoreFault> {
        if self.count() {
            let written = self.written.min(bytes.len());
            overwrite(&mut self.bytes, at, &bytes[..written]);
            return Err(StoreFault::Write);
        }
        overwrite(&mut self.bytes, at, bytes);
        Ok(())
    }
}
