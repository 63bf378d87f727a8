//! The bytes of a file.

use crate::{ByteStore, StoreFault};
use std::fs::File;
use std::os::unix::fs::FileExt;

/// The bytes of an open file, which is closed with it. It reveals none of them, since no contract can say which bytes the system keeps.
#[derive(Drop)]
pub struct FileBytes {
    file: File,
}

impl FileBytes {
    /// The bytes of this file, which is open for reads and writes, and locked.
    pub(crate) fn new(file: File) -> FileBytes {
        FileBytes { file }
    }
}

/// What is trusted of a file: it keeps the bytes that were written once `sync_data` answered `Ok`; of a write or a sync that did not answer
/// `Ok`, each bit of the written range is as before or as asked, and every other bit as before.
impl ByteStore for FileBytes {
    ghost use Rattle.flt_file.specs.FileBytes.{file_bytes_told};

    ghost told = { file_bytes_told };

    // Where a sync of an earlier process failed, the system may give bytes that the disk does not have, and count them as synced. So what
    // was read is written again, and synced.
    fn read(&mut self, out: &mut [u8]) -> Result<(), StoreFault> {
        self.file
            .read_exact_at(out, 0)
            .map_err(|_| StoreFault::Read)?;
        self.write(0, out)
    }

    fn write(&mut self, at: usize, bytes: &[u8]) -> Result<(), StoreFault> {
        self.file
            .write_all_at(bytes, at as u64)
            .map_err(|_| StoreFault::Write)?;
        self.file.sync_data().map_err(|_| StoreFault::Sync)
    }
}
