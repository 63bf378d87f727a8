//! The part that a flash and an EEPROM in a file share: the bytes that a store keeps, with a copy of them in memory.
ghost use Rattle.std.specs.Prelude.{◌≡◌, ◌≢◌, ◌+◌, ◌*◌, ◌^◌, ◌<◌, ◌≤◌, length, IfOk, IfSome, OnOk, OnErr, IsTrue, unwrap_or, vec_capacity};
ghost use Rattle.flt_flash.specs.Tearing.{IsTornPage};
ghost use Rattle.flt_file.specs.declared.stage.Stage.TheVariants.{Broken};
ghost use Rattle.flt_file.specs.Bytes.{spliced};
ghost use Rattle.flt_file.specs.Layout.{page_in};
ghost use Rattle.flt_file.specs.Kept.{Carries, first_kept, powered};

use crate::memory::overwrite;
use crate::stage::Stage;
use crate::{ByteStore, LoadFault};
use flt_flash::FlashFailed;
use std::alloc::Global;

/// Bytes that a store keeps, for one life. The device is off until its one power-up, and goes off for good when its store fails: only the
/// store knows then what it keeps, and the copy is not read any more.
#[derive(Drop)]
pub(crate) struct Kept<B: ByteStore> {
    store: B,
    bytes: Vec<u8>,
    stage: Stage,
    faults: u64,
    operations: u64,
    boot_faults: u64,
    boot_bytes: Vec<u8>,
    ghost size: { length (unwrap_or (B.told store) bytes.items) ≡ length bytes.items },
    ghost same: { stage ≢ Broken → unwrap_or (B.told store) bytes.items ≡ bytes.items },
    ghost room: { length bytes.items ≤ vec_capacity boot_bytes },
    ghost most_operations: { operations < 2 ^ 64 },
}

impl<B: ByteStore + Drop> Kept<B> {
    ghost use Rattle.flt_file.specs.KeptOf.{kept_of};

    /// The bytes of a store that has this many. The error lets the store go.
    pub(crate) fn load(alloc: Global, mut store: B, size: usize) -> Result<Kept<B>, LoadFault>
        requires { IfSome (B.told store) (λ held. length held ≡ size) }
        ensures first { IfOk result (λ kept. kept_of B.told kept ≡ first_kept (kept_of B.told kept).bytes) }
        ensures size { IfOk result (λ kept. length (kept_of B.told kept).bytes ≡ size) }
        ensures bytes { IfOk result (λ kept. IfSome (B.told store) (λ held. (kept_of B.told kept).bytes ≡ held)) }
    {
        let mut bytes = Vec::from_elem(alloc, 255u8, size)?;
        let boot_bytes = Vec::with_capacity(alloc, size)?;
        store.read(&mut bytes)?;
        Ok(Kept {
            store,
            bytes,
            stage: Stage::Waiting,
            faults: 0,
            operations: 0,
            boot_faults: 0,
            boot_bytes,
        })
    }

    /// The store, as the writes left it.
    pub(crate) fn into_store(self) -> B
        ensures { IfSome (B.told result) (λ held. (kept_of B.told self).bytes ≡ held) }
    {
        self.store
    }

    pub(crate) fn operations(&self) -> u64
        ensures { result ≡ (kept_of B.told self.now).operations }
    {
        self.operations
    }

    pub(crate) fn boots_left(&self) -> u16
        ensures { result ≡ (kept_of B.told self.now).boots_left }
    {
        match self.stage {
            Stage::Waiting => 1,
            Stage::On | Stage::Broken => 0,
        }
    }

    /// Reads a page of 32 bytes.
    pub(crate) fn read(&mut self, page: usize, out: &mut [u8; 32]) -> Result<(), FlashFailed>
        requires { 32 * page + 32 ≤ length (kept_of B.told self.old).bytes }
        ensures read { OnOk result (out.new ≡ page_in (kept_of B.told self.old).bytes page) }
        ensures bytes { (kept_of B.told self.new).bytes ≡ (kept_of B.told self.old).bytes }
        ensures off { (kept_of B.told self.new).is_off ≡ (kept_of B.told self.old).is_off }
        ensures operation { Carries (kept_of B.told self.old) (kept_of B.told self.new) result }
    {
        self.operations = self.operations.saturating_add(1);
        if self.stage.is_off() {
            self.faults = self.faults.saturating_add(1);
            return Err(FlashFailed);
        }
        let at = 32 * page;
        out.copy_from_slice(&self.bytes[at..at + 32]);
        Ok(())
    }

    /// Writes bytes from a page on. After a failure each of their bits is as before or as asked, and the device is off.
    pub(crate) fn write(&mut self, page: usize, new: &[u8]) -> Result<(), FlashFailed>
        requires { 32 * page + length new.now ≤ length (kept_of B.told self.old).bytes }
        ensures written { OnOk result ((kept_of B.told self.new).bytes ≡ spliced (32 * page) new.now (kept_of B.told self.old).bytes) }
        ensures torn { OnErr result (IsTornPage (kept_of B.told self.old).bytes (spliced (32 * page) new.now (kept_of B.told self.old).bytes)
            (kept_of B.told self.new).bytes) }
        ensures off { OnErr result (IsTrue (kept_of B.told self.new).is_off) }
        ensures operation { Carries (kept_of B.told self.old) (kept_of B.told self.new) result }
    {
        self.operations = self.operations.saturating_add(1);
        if self.stage.is_off() {
            self.faults = self.faults.saturating_add(1);
            return Err(FlashFailed);
        }
        let at = 32 * page;
        if self.store.write(at, new).is_err() {
            self.stage = Stage::Broken;
            self.faults = self.faults.saturating_add(1);
            return Err(FlashFailed);
        }
        overwrite(&mut self.bytes, at, new);
        Ok(())
    }

    /// Turns the device on.
    pub(crate) fn power_up(&mut self)
        requires { 0 < (kept_of B.told self.old).boots_left }
        ensures { kept_of B.told self.new ≡ powered (kept_of B.told self.old) }
    {
        self.boot_faults = self.faults;
        self.boot_bytes.clear();
        self.boot_bytes.extend_from_slice(&self.bytes).unwrap();
        self.stage = Stage::On;
    }
}
