//! Blocks by identifier.
ghost use Rattle.std.specs.Prelude.{◌≡◌, ◌↔◌, ◌≤◌, ℕ, List, IsTrue, length};
ghost use Rattle.flt_flash.specs.Content.{Content, invalid, bytes as holding};
ghost use Rattle.flt_nvm.specs.Table.{serves, IsRedundant, NoneFrom};
ghost use Rattle.flt_nvm.specs.Leaves.{GotOf};

use crate::got::Got;
use crate::job;
use crate::table::{BlockCfg, is_redundant, redundant_rows};
use flt_flash::{Arm, BlockFault, Blocks, Found};

/// A driver's blocks by identifier and index.
#[derive(Drop)]
pub struct Nvm<B: Blocks + Drop> {
    blocks: B,
    table: Vec<BlockCfg>,
    /// How many rows the table has up to its last redundant one, so that no more are looked at to find which blocks are redundant.
    redundant_rows: usize,
    ghost served: { IsTrue (serves (B.state blocks).numbers table.items) },
    ghost within: { redundant_rows ≤ length table.items },
    ghost none: { NoneFrom redundant_rows table.items },
}

/// Whether these are the bytes of a content that was read to the start of `out`.
fn holds(got: Got, out: &[u8; 128], bytes: &[u8]) -> bool
    ensures { (copy : ℕ) (content : Content) (before : List ℕ) → GotOf copy content got before out.now → IsTrue result ↔ (content ≡ holding bytes.now) }
{
    match got {
        Got::Bytes { length, .. } if length <= out.len() => &out[..length] == bytes,
        _ => false,
    }
}

impl<B: Blocks + Drop> Nvm<B> {
    ghost use Rattle.std.specs.Prelude.{◌<◌, ◌-◌, Contains, IsFalse};
    ghost use Rattle.flt_flash.specs.State.{CanArm};
    ghost use Rattle.flt_flash.specs.Calls.{ArmsDriver, PowersUpDriver, found_of};
    ghost use Rattle.flt_nvm.specs.Table.{driver_number, HasIndex, HasPlace, FitsBlock};
    ghost use Rattle.flt_nvm.specs.Leaves.{GivesCopies, MountsInAJob};
    ghost use Rattle.flt_nvm.specs.Reads.{ReadsCopies, ReadsSecond};
    ghost use Rattle.flt_nvm.specs.Blocks.{GivesBlock, ReadsBlock, ReadsCopy, Repairs};
    ghost use Rattle.flt_nvm.specs.Driver.{driver_of, table_of};

    /// The blocks of this table over a driver that was made with their numbers: `id * 8 + index`, or for a redundant block
    /// `id * 8` for copy 1 and `id * 8 + 1` for copy 2. Of several blocks of one identifier the first counts.
    pub fn make(blocks: B, table: Vec<BlockCfg>) -> Nvm<B>
        requires { IsTrue (serves (B.state blocks).numbers table.items) }
        ensures driver { driver_of result ≡ B.state blocks }
        ensures table { table_of result ≡ table.items }
    {
        let redundant_rows = redundant_rows(&table);
        Nvm {
            blocks,
            table,
            redundant_rows,
        }
    }

    /// Whether the block of this identifier is a redundant one.
    fn is_redundant(&self, id: u16) -> bool
        ensures { IsTrue result ↔ IsRedundant (table_of self.now) id }
    {
        is_redundant(&self.table[..self.redundant_rows], id)
    }

    /// The number under which the driver keeps an index, or a copy from 0.
    fn number(&self, id: u16, place: u8) -> u16
        requires { HasPlace (table_of self.now) id place }
        ensures number { result ≡ driver_number id place }
        ensures of_driver { Contains (driver_of self.now).numbers result }
    {
        id * 8 + place as u16
    }

    /// Mounts the driver. No block changes, and no sequence number is used. `Flash` comes only where three mounts failed.
    ///
    /// At `Err` make no other call before a start that answers `Ok`: after `Flash` start again, now or after the next power-up; after
    /// `Damaged` only a new image helps.
    pub fn start(&mut self) -> Result<(), BlockFault>
        ensures mounted { MountsInAJob (driver_of self.old) (driver_of self.new) result }
        ensures table { table_of self.new ≡ table_of self.old }
    {
        job::mount(&mut self.blocks)
    }

    fn write_both(&mut self, id: u16, bytes: &[u8]) -> Result<(), BlockFault>
        requires redundant { IsRedundant (table_of self.old) id }
        requires least { 1 ≤ length bytes.now }
        requires most { length bytes.now ≤ 128 }
        ensures gives { GivesCopies id (holding bytes.now) (length bytes.now) (driver_of self.old) (driver_of self.new) result }
        ensures table { table_of self.new ≡ table_of self.old }
    {
        let first = self.number(id, 0);
        let second = self.number(id, 1);
        job::write(&mut self.blocks, first, bytes)?;
        job::write(&mut self.blocks, second, bytes)
    }

    /// Gives a native block, an index of a dataset or both copies of a redundant block 1 to `length` bytes. Copy 2 is written
    /// only after the job on copy 1 answered `Ok`. The index is 0 but for a dataset.
    ///
    /// After an error the block, the index or each copy holds what it held or `bytes`, and copy 2 what it held where the job on
    /// copy 1 failed; no other block and no other index changes. `Flash` comes only where three tries failed; each other fault of
    /// the driver ends the job at once. At `Err` write the bytes again after `Flash`; after `Full` or `SequenceSpent` only another image takes
    /// them.
    pub fn write(&mut self, id: u16, index: u8, bytes: &[u8]) -> Result<(), BlockFault>
        requires index { HasIndex (table_of self.old) id index }
        requires least { 1 ≤ length bytes.now }
        requires fits { FitsBlock (table_of self.old) id (length bytes.now) }
        ensures { GivesBlock id index (holding bytes.now) (length bytes.now) self.old self.new result }
    {
        if self.is_redundant(id) {
            self.write_both(id, bytes)
        } else {
            let number = self.number(id, index);
            job::write(&mut self.blocks, number, bytes)
        }
    }

    fn invalidate_both(&mut self, id: u16) -> Result<(), BlockFault>
        requires { IsRedundant (table_of self.old) id }
        ensures gives { GivesCopies id invalid 0 (driver_of self.old) (driver_of self.new) result }
        ensures table { table_of self.new ≡ table_of self.old }
    {
        let first = self.number(id, 0);
        let second = self.number(id, 1);
        job::invalidate(&mut self.blocks, first)?;
        job::invalidate(&mut self.blocks, second)
    }

    /// Makes a native block, an index of a dataset or both copies of a redundant block invalid, in the order and with the faults
    /// of `write`. At `Err` do as after a `write`.
    pub fn invalidate(&mut self, id: u16, index: u8) -> Result<(), BlockFault>
        requires { HasIndex (table_of self.old) id index }
        ensures { GivesBlock id index invalid 0 self.old self.new result }
    {
        if self.is_redundant(id) {
            self.invalidate_both(id)
        } else {
            let number = self.number(id, index);
            job::invalidate(&mut self.blocks, number)
        }
    }

    /// Reads copy 1 or copy 2 of a redundant block alone, in one job, to the start of `out`. What lies past its bytes, and all of
    /// `out` after an error, stays; no block changes. At `Err` read the other copy, or this one again.
    pub fn read_copy(&mut self, id: u16, copy: u8, out: &mut [u8; 128]) -> Result<Got, BlockFault>
        requires redundant { IsRedundant (table_of self.old) id }
        requires least { 1 ≤ copy }
        requires most { copy ≤ 2 }
        ensures { ReadsCopy id copy self.old self.new out.old out.new result }
    {
        let number = self.number(id, copy - 1);
        job::read(&mut self.blocks, number, copy, out)
    }

    /// Reads copy 2; where that has no bytes, the answer is what copy 1 gave, or Flash where it could not be read.
    fn read_second(
        &mut self,
        id: u16,
        out: &mut [u8; 128],
        first: Option<Got>,
    ) -> Result<Got, BlockFault>
        requires { IsRedundant (table_of self.old) id }
        ensures second { ReadsSecond id (driver_of self.old) (driver_of self.new) first out.old out.new result }
        ensures table { table_of self.new ≡ table_of self.old }
    {
        match self.read_copy(id, 2, out)? {
            Got::Bytes { length, copy } => Ok(Got::Bytes { length, copy }),
            Got::Missing | Got::Invalid => first.ok_or(BlockFault::Flash),
        }
    }

    fn read_both(&mut self, id: u16, out: &mut [u8; 128]) -> Result<Got, BlockFault>
        requires { IsRedundant (table_of self.old) id }
        ensures reads { ReadsCopies id (driver_of self.old) (driver_of self.new) out.old out.new result }
        ensures table { table_of self.new ≡ table_of self.old }
    {
        let first = match self.read_copy(id, 1, out) {
            Err(BlockFault::Flash) => return self.read_second(id, out, None),
            read => read?,
        };
        match first {
            Got::Bytes { .. } => Ok(first),
            Got::Missing | Got::Invalid => self.read_second(id, out, Some(first)),
        }
    }

    /// Reads a native block, an index of a dataset or a redundant block to the start of `out`: of a redundant block copy 1, and
    /// copy 2 where copy 1 is missing, invalid or can't be read. Where neither has bytes the answer is `Flash` if one of the two
    /// could not be read, else what copy 1 is. What lies past the bytes, and all of `out` after an error, stays; no block changes. At `Err` read
    /// again.
    pub fn read(&mut self, id: u16, index: u8, out: &mut [u8; 128]) -> Result<Got, BlockFault>
        requires { HasIndex (table_of self.old) id index }
        ensures { ReadsBlock id index self.old self.new out.old out.new result }
    {
        if self.is_redundant(id) {
            self.read_both(id, out)
        } else {
            let number = self.number(id, index);
            job::read(&mut self.blocks, number, 1, out)
        }
    }

    /// Makes both copies of a redundant block hold `bytes`, which copy `copy`, 1 or 2, holds. That copy is never written: the other
    /// is read, and written where it does not hold them or can't be read in three tries. After an error the other copy holds what it
    /// held or `bytes`, and the driver may be stale: at `Err` call `start` before `look_up` and `spent`, and repair again after `Flash`.
    pub fn repair(&mut self, id: u16, copy: u8, bytes: &[u8]) -> Result<(), BlockFault>
        requires redundant { IsRedundant (table_of self.old) id }
        requires least_copy { 1 ≤ copy }
        requires most_copy { copy ≤ 2 }
        requires holds { (driver_of self.old).value (driver_number id (copy - 1)) ≡ holding bytes.now }
        requires least { 1 ≤ length bytes.now }
        requires fits { FitsBlock (table_of self.old) id (length bytes.now) }
        ensures { Repairs id copy (holding bytes.now) (length bytes.now) self.old self.new result }
    {
        let mut out = [0; 128];
        match self.read_copy(id, 3 - copy, &mut out) {
            Err(BlockFault::Flash) => {}
            read => {
                if holds(read?, &out, bytes) {
                    return Ok(());
                }
            }
        }
        let number = self.number(id, 2 - copy);
        job::write(&mut self.blocks, number, bytes)
    }

    /// What a read of an index of a block, or of a copy counted from 0, would find, without its bytes. It makes no operation of the
    /// device.
    pub fn look_up(&self, id: u16, place: u8) -> Found
        requires not_stale { IsFalse (driver_of self.now).is_stale }
        requires place { HasPlace (table_of self.now) id place }
        ensures { result ≡ found_of ((driver_of self.now).value (driver_number id place)) }
    {
        self.blocks.look_up(self.number(id, place))
    }

    /// Whether the last sequence number is in use, so that some record can't be written any more.
    pub fn spent(&self) -> bool
        requires { IsFalse (driver_of self.now).is_stale }
        ensures { result ≡ (driver_of self.now).is_spent }
    {
        self.blocks.spent()
    }

    /// How often the power may still come back.
    pub fn boots_left(&self) -> u16
        ensures { result ≡ (driver_of self.now).device.bench.boots_left }
    {
        self.blocks.boots_left()
    }

    /// How many arms remain, 64 at most.
    pub fn armed(&self) -> u8
        ensures { result ≡ (driver_of self.now).device.bench.armed }
    {
        self.blocks.armed()
    }

    /// Makes an arm of the device.
    pub fn arm(&mut self, arm: Arm)
        requires room { (driver_of self.old).device.bench.armed < 64 }
        requires number { CanArm arm }
        ensures arms { ArmsDriver arm (driver_of self.old) (driver_of self.new) }
        ensures table { table_of self.new ≡ table_of self.old }
    {
        self.blocks.arm(arm)
    }

    /// Turns the device on again, which adds to its list of boots and leaves the driver stale.
    pub fn power_up(&mut self)
        requires { 0 < (driver_of self.old).device.bench.boots_left }
        ensures powers_up { PowersUpDriver (driver_of self.old) (driver_of self.new) }
        ensures table { table_of self.new ≡ table_of self.old }
    {
        self.blocks.power_up()
    }

    /// The driver comes back.
    pub fn retire(self) -> B
        ensures { B.state result ≡ driver_of self }
    {
        self.blocks
    }
}
