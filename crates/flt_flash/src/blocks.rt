//! Blocks that outlive the power, as the layers above a driver see them.
ghost use Rattle.std.specs.Prelude.{◌≡◌, ◌<◌, ◌≤◌, length, Contains, IfOk, OnOk, OnErr, None, IsTrue, IsFalse, ℕ};
ghost use Rattle.flt_flash.specs.Content.{invalid, bytes as holding, IsShort};
ghost use Rattle.flt_flash.specs.State.{CanArm};
ghost use Rattle.flt_flash.specs.Blocks.{BlocksState};
ghost use Rattle.flt_flash.specs.declared.blocks.BlockFault.TheVariants.{Flash};
ghost use Rattle.flt_flash.specs.Calls.{Follows, BlockCalls, CountsCallOf, CountsMount, NeverFull, Changes, Costs, MountCosts, ReadCosts, ReadsAlone, SameSpent, SameValues, Settles, ReadsContent, found_of, ArmsDriver, PowersUpDriver};

use crate::{Arm, FlashFailed};
use thiserror::Error;

/// A driver could not be made, since memory ran out; the device comes back.
#[derive(Drop)]
pub struct Refused<F> {
    pub device: F,
}

/// What a read of a block found.
#[derive(Clone, Copy, Debug, PartialEq, Eq)]
pub enum Found {
    /// This many bytes, 1 to 128.
    Bytes(usize),
    /// The block was never written.
    Missing,
    /// The block was made invalid.
    Invalid,
}

/// Why a call of a driver did not succeed.
#[derive(Clone, Copy, Debug, PartialEq, Eq, Error)]
pub enum BlockFault {
    /// An operation of the device failed: the count of faults rose. A write or invalidate left its block as it was or as
    /// asked, and no call left another block changed.
    #[error("an operation of the device failed")]
    Flash,
    /// The pages of the current records, `live`, and those of the new one, `needed`, are more than the room. Every block
    /// holds what it held.
    #[error("the current records take {live} pages, and no {needed} are free for the new one")]
    Full { live: u16, needed: u16 },
    /// The record has no sequence number left. Every block holds what it held.
    #[error("the record has no sequence number left")]
    SequenceSpent,
    /// The first place of the device that holds what no driver writes: a sector and a page. The device stays as it is.
    #[error("sector {sector} is damaged at page {page}")]
    Damaged { sector: u8, page: u16 },
}

impl From<FlashFailed> for BlockFault {
    ghost from_gives = { λ _ e. e ≡ Flash };

    fn from(_: FlashFailed) -> Self {
        BlockFault::Flash
    }
}

/// Blocks of 1 to 128 bytes under the numbers with which the driver was made, over a device that loses power and fails.
///
/// A driver is stale when it was just made, after a write, invalidate or mount that answered `Flash` or `Damaged`, and
/// after `power_up`; a read that fails may leave a stale one stale. The next call of a stale driver mounts first, and may answer the fault of that mount.
/// It counts its mounts, writes, reads and invalidates, each once; the mount that a stale one makes by itself is not counted. It keeps
/// the block of the last write, read or invalidate that answered `Flash`.
pub trait Blocks {
    /// The blocks, and what the device reports. Room, operations and erases are known or not, as the driver has them.
    ghost state: { Self → BlocksState };

    /// Looks at the device as a power-up left it. It answers `Ok` only where the image has no fault.
    ///
    /// At `Err` no block changed: after `Flash` mount again; after `Damaged` only a new image helps.
    fn mount(&mut self) -> Result<(), BlockFault>
        ensures values { SameValues (state self.old) (state self.new) }
        ensures calls { BlockCalls (state self.old) (state self.new) result }
        ensures once { CountsMount (state self.old) (state self.new) }
        ensures never_full { NeverFull result }
        ensures stale { Settles result (state self.new) }

        // It writes no record, so it uses no sequence number.
        ensures spent { SameSpent (state self.old) (state self.new) }

        // It looks at each gate and each page of one log.
        ensures costs { MountCosts (state self.old) (state self.new) };

    /// Gives a block these bytes.
    ///
    /// At `Err` the block holds what it held or these bytes. After `Flash` write again; after `Full` free room by shorter or fewer blocks; after
    /// `SequenceSpent` or `Damaged` only a new image takes the record.
    fn write(&mut self, block: u16, bytes: &[u8]) -> Result<(), BlockFault>
        requires number { Contains (state self.old).numbers block }
        requires least { 1 ≤ length bytes.now }
        requires most { length bytes.now ≤ 128 }
        ensures changes { Changes (state self.old) (state self.new) block (holding bytes.now) (length bytes.now) result }
        ensures calls { BlockCalls (state self.old) (state self.new) result }
        ensures once { CountsCallOf block (state self.old) (state self.new) result }
        ensures stale { Settles result (state self.new) }
        ensures costs { Costs (state self.old) (state self.new) (length bytes.now) };

    /// Reads a block to the start of `out`. What lies past its bytes stays. At `Err` all of `out` stays, and no block changed: after `Flash` read
    /// again; after `Damaged` only a new image helps.
    fn read(&mut self, block: u16, out: &mut [u8; 128]) -> Result<Found, BlockFault>
        requires { Contains (state self.old).numbers block }
        ensures found { IfOk result (λ found. ReadsContent ((state self.old).value block) found out.old out.new) }
        ensures nothing { OnErr result (out.new ≡ out.old) }
        ensures once { CountsCallOf block (state self.old) (state self.new) result }

        // It changes no block. A driver that was not stale writes nothing and does not become stale, whatever the answer is.
        ensures reads { ReadsAlone (state self.old) (state self.new) result }

        // Such a driver reads the pages of the block's bytes alone.
        ensures costs { ReadCosts (state self.old) (state self.new) block };

    /// What a read of a block would find, without its bytes. It makes no operation of the device.
    fn look_up(&self, block: u16) -> Found
        requires not_stale { IsFalse (state self.now).is_stale }
        requires number { Contains (state self.now).numbers block }
        ensures { result ≡ found_of ((state self.now).value block) };

    /// Makes a block invalid. At `Err` the block is as it was or invalid, and what helps is what helps after a write.
    fn invalidate(&mut self, block: u16) -> Result<(), BlockFault>
        requires { Contains (state self.old).numbers block }
        ensures changes { Changes (state self.old) (state self.new) block invalid 0 result }
        ensures calls { BlockCalls (state self.old) (state self.new) result }
        ensures once { CountsCallOf block (state self.old) (state self.new) result }
        ensures stale { Settles result (state self.new) }
        ensures costs { Costs (state self.old) (state self.new) 0 };

    /// Whether the last sequence number is in use, so that some record can't be written any more.
    fn spent(&self) -> bool
        requires { IsFalse (state self.now).is_stale }
        ensures { result ≡ (state self.now).is_spent };

    /// How often the power may still come back.
    fn boots_left(&self) -> u16
        ensures { result ≡ (state self.now).device.bench.boots_left };

    /// How many arms remain, 64 at most.
    fn armed(&self) -> u8
        ensures { result ≡ (state self.now).device.bench.armed };

    /// Makes an arm of the device.
    fn arm(&mut self, arm: Arm)
        requires room { (state self.old).device.bench.armed < 64 }
        requires number { CanArm arm }
        ensures { ArmsDriver arm (state self.old) (state self.new) };

    /// Turns the device on again, which adds to its list of boots.
    fn power_up(&mut self)
        requires { 0 < (state self.old).device.bench.boots_left }
        ensures { PowersUpDriver (state self.old) (state self.new) };

    ghost stuck_is_spent: { (driver : Self) (block size : ℕ) → IsTrue ((state driver).is_stuck block size) → IsTrue (state driver).is_spent };

    ghost settled_has_mounted: { (driver : Self) → IsFalse (state driver).is_stale → IsTrue (state driver).has_mounted };

    ghost mounted_is_sound: { (driver : Self) → IsTrue (state driver).has_mounted → (state driver).damage ≡ None };

    ghost bytes_are_short: { (driver : Self) (block : ℕ) → IsShort ((state driver).value block) };
}

/// Any number of mounts, reads, writes and invalidates in a row is one relation: it holds of none, and of some and then more.
pub fn calls_follow()
    ensures none { (state : BlocksState) → Follows state state }
    ensures more { (first second third : BlocksState) → Follows first second → Follows second third → Follows first third }
{}
