//! Where bytes outlive the process.
ghost use Rattle.std.specs.Prelude.{◌≡◌, ◌+◌, ◌≤◌, ℕ, List, Option, IfSome, OnOk, OnErr, length};
ghost use Rattle.flt_file.specs.Bytes.{HaveBytesFrom, AreBetween};

use std::alloc::AllocError;
use thiserror::Error;

/// Why a store did not do what it was asked to.
#[derive(Clone, Copy, Debug, PartialEq, Eq, Error)]
pub enum StoreFault {
    /// The bytes were not all read. Nothing changed.
    #[error("the bytes could not be read")]
    Read,
    /// The bytes were not all written: each bit of them is as before or as asked.
    #[error("the bytes could not be written")]
    Write,
    /// The bytes were written, and it is not known which of them the store keeps: each bit is as before or as asked.
    #[error("the bytes could not be synced")]
    Sync,
}

/// Why a device was not made of a store.
#[derive(Clone, Copy, Debug, PartialEq, Eq, Error)]
pub enum LoadFault {
    /// Memory ran out.
    #[error("memory ran out")]
    Memory,
    /// The store could not be read.
    #[error("{0}")]
    Store(StoreFault),
}

impl From<AllocError> for LoadFault {
    fn from(_: AllocError) -> LoadFault {
        LoadFault::Memory
    }
}

impl From<StoreFault> for LoadFault {
    fn from(fault: StoreFault) -> LoadFault {
        LoadFault::Store(fault)
    }
}

/// Bytes that outlive the process, as many at each moment: what was written is kept before the call answers `Ok`.
pub trait ByteStore {
    /// The bytes that it keeps, where they are known.
    ghost told: { Self → Option (List ℕ) };

    /// Reads all bytes: what it answers `Ok` for is kept. After a failure nothing is said of `out`.
    fn read(&mut self, out: &mut [u8]) -> Result<(), StoreFault>
        requires { IfSome (told self.old) (λ held. length held ≡ length out.old) }
        ensures read { OnOk result (IfSome (told self.old) (λ held. out.new ≡ held)) }
        ensures told { told self.new ≡ told self.old };

    /// Writes these bytes over those from a place on. After a failure each of their bits is as before or as asked, and every
    /// other one as before.
    fn write(&mut self, at: usize, bytes: &[u8]) -> Result<(), StoreFault>
        requires { IfSome (told self.old) (λ held. at + length bytes.now ≤ length held) }
        ensures written { OnOk result (HaveBytesFrom at bytes.now (told self.old) (told self.new)) }
        ensures between { OnErr result (AreBetween at bytes.now (told self.old) (told self.new)) };
}
