//! Jobs on one block of a driver: a call that the flash failed is made again, three times in all. Every other fault ends the
//! job at once.
ghost use Rattle.std.specs.Prelude.{◌≡◌, ◌≤◌, length, Contains, IfOk, OnErr};
ghost use Rattle.flt_flash.specs.Content.{invalid, bytes as holding};
ghost use Rattle.flt_flash.specs.Calls.{ReadsContent};
ghost use Rattle.flt_nvm.specs.Tries.{Tries, Mounts, Changing, Looks};
ghost use Rattle.flt_nvm.specs.Leaves.{GivesNumber, MountsInAJob};
ghost use Rattle.flt_nvm.specs.Reads.{ReadsNumber};

use crate::got::Got;
use flt_flash::{BlockFault, Blocks, Found};

/// The tries of a job.
const TRIES: u8 = 3;

#[tactic(auto, unfolding(crate::specs::Tries::Tries))]
fn try_mount<B: Blocks>(blocks: &mut B, most: u8) -> Result<(), BlockFault>
    requires { 1 ≤ most }
    ensures { Tries most Mounts (B.state blocks.old) (B.state blocks.new) result }
{
    match blocks.mount() {
        Err(BlockFault::Flash) if most > 1 => try_mount(blocks, most - 1),
        answer => answer,
    }
}

/// Mounts the driver.
#[tactic(auto, unfolding(crate::specs::Tries::Tries))]
pub fn mount<B: Blocks>(blocks: &mut B) -> Result<(), BlockFault>
    ensures { MountsInAJob (B.state blocks.old) (B.state blocks.new) result }
{
    try_mount(blocks, TRIES)
}

#[tactic(auto, unfolding(crate::specs::Tries::Tries))]
fn try_write<B: Blocks>(
    blocks: &mut B,
    block: u16,
    bytes: &[u8],
    most: u8,
) -> Result<(), BlockFault>
    requires number { Contains (B.state blocks.old).numbers block }
    requires least { 1 ≤ length bytes.now }
    requires most { length bytes.now ≤ 128 }
    requires tries { 1 ≤ most }
    ensures { Tries most (Changing block (holding bytes.now) (length bytes.now)) (B.state blocks.old) (B.state blocks.new) result }
{
    match blocks.write(block, bytes) {
        Err(BlockFault::Flash) if most > 1 => try_write(blocks, block, bytes, most - 1),
        answer => answer,
    }
}

/// Gives a block of the driver 1 to 128 bytes.
#[tactic(auto, unfolding(crate::specs::Tries::Tries))]
pub fn write<B: Blocks>(blocks: &mut B, block: u16, bytes: &[u8]) -> Result<(), BlockFault>
    requires number { Contains (B.state blocks.old).numbers block }
    requires least { 1 ≤ length bytes.now }
    requires most { length bytes.now ≤ 128 }
    ensures { GivesNumber block (holding bytes.now) (length bytes.now) (B.state blocks.old) (B.state blocks.new) result }
{
    try_write(blocks, block, bytes, TRIES)
}

#[tactic(auto, unfolding(crate::specs::Tries::Tries))]
fn try_invalidate<B: Blocks>(blocks: &mut B, block: u16, most: u8) -> Result<(), BlockFault>
    requires number { Contains (B.state blocks.old).numbers block }
    requires tries { 1 ≤ most }
    ensures { Tries most (Changing block invalid 0) (B.state blocks.old) (B.state blocks.new) result }
{
    match blocks.invalidate(block) {
        Err(BlockFault::Flash) if most > 1 => try_invalidate(blocks, block, most - 1),
        answer => answer,
    }
}

/// Makes a block of the driver invalid.
#[tactic(auto, unfolding(crate::specs::Tries::Tries))]
pub fn invalidate<B: Blocks>(blocks: &mut B, block: u16) -> Result<(), BlockFault>
    requires { Contains (B.state blocks.old).numbers block }
    ensures { GivesNumber block invalid 0 (B.state blocks.old) (B.state blocks.new) result }
{
    try_invalidate(blocks, block, TRIES)
}

#[tactic(auto, unfolding(crate::specs::Tries::Tries))]
fn try_read<B: Blocks>(
    blocks: &mut B,
    block: u16,
    out: &mut [u8; 128],
    most: u8,
) -> Result<Found, BlockFault>
    requires number { Contains (B.state blocks.old).numbers block }
    requires tries { 1 ≤ most }
    ensures tries { Tries most (Looks block) (B.state blocks.old) (B.state blocks.new) result }
    ensures found { IfOk result (λ found. ReadsContent ((B.state blocks.old).value block) found out.old out.new) }
    ensures nothing { OnErr result (out.new ≡ out.old) }
{
    match blocks.read(block, out) {
        Err(BlockFault::Flash) if most > 1 => try_read(blocks, block, out, most - 1),
        answer => answer,
    }
}

/// Reads a block of the driver, as this copy, to the start of `out`. What lies past its bytes, and all of `out` after an error, stays.
#[tactic(auto, unfolding(crate::specs::Tries::Tries))]
pub fn read<B: Blocks>(
    blocks: &mut B,
    block: u16,
    copy: u8,
    out: &mut [u8; 128],
) -> Result<Got, BlockFault>
    requires { Contains (B.state blocks.old).numbers block }
    ensures { ReadsNumber copy block (B.state blocks.old) (B.state blocks.new) out.old out.new result }
{
    Ok(match try_read(blocks, block, out, TRIES)? {
        Found::Bytes(length) => Got::Bytes { length, copy },
        Found::Missing => Got::Missing,
        Found::Invalid => Got::Invalid,
    })
}
