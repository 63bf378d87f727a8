//! A fixed job over any driver of the blocks 8 and 9, and what the blocks hold where it stops before its end.
ghost use Rattle.std.specs.Prelude.{◌≡◌, Contains};

use super::restart;
use flt_flash::{Arm, BlockFault, Blocks, Found};
use std::process::Abort;
use std::test::Fail;

/// What a block holds: as many bytes as the job gives it, all of them this one, or something else.
#[derive(Clone, Copy, Debug, PartialEq, Eq)]
pub enum Held {
    Missing,
    Invalid,
    Bytes(u8),
    Other,
}

/// The job: which block is changed, 9 rather than 8, and to what. Over two sectors it switches twice.
const JOB: [(bool, Held); 7] = [
    (false, Held::Bytes(1)),
    (true, Held::Bytes(2)),
    (false, Held::Bytes(3)),
    (true, Held::Invalid),
    (false, Held::Bytes(4)),
    (true, Held::Bytes(5)),
    (false, Held::Bytes(6)),
];

/// Gives block 8 one byte, or block 9 forty of them, or makes it invalid.
fn put<B: Blocks>(driver: &mut B, second: bool, asked: Held) -> Result<(), BlockFault>
    requires first { Contains (B.state driver.old).numbers 8 }
    requires second { Contains (B.state driver.old).numbers 9 }
    ensures { (B.state driver.new).numbers ≡ (B.state driver.old).numbers }
{
    match (second, asked) {
        (false, Held::Bytes(byte)) => driver.write(8, &[byte]),
        (true, Held::Bytes(byte)) => driver.write(9, &[byte; 40]),
        (false, _) => driver.invalidate(8),
        (true, _) => driver.invalidate(9),
    }
}

/// What a block holds with bytes that are all the same.
fn held_with(bytes: &[u8]) -> Held {
    let Some(first) = bytes.first() else {
        return Held::Other;
    };
    for byte in bytes {
        if byte != first {
            return Held::Other;
        }
    }
    Held::Bytes(*first)
}

/// What a block holds with this many bytes from the start of these.
pub fn held_of(block: u16, length: usize, bytes: &[u8; 128]) -> Held {
    match (block, length) {
        (8, 1) => held_with(&bytes[..1]),
        (9, 40) => held_with(&bytes[..40]),
        _ => Held::Other,
    }
}

fn held_by(block: u16, found: Found, bytes: &[u8; 128]) -> Held {
    match found {
        Found::Missing => Held::Missing,
        Found::Invalid => Held::Invalid,
        Found::Bytes(length) => held_of(block, length, bytes),
    }
}

/// What the driver reads of a block.
fn read_one<B: Blocks>(driver: &mut B, block: u16) -> Result<Held, BlockFault>
    requires { Contains (B.state driver.old).numbers block }
    ensures { (B.state driver.new).numbers ≡ (B.state driver.old).numbers }
{
    let mut out = [0; 128];
    let found = driver.read(block, &mut out)?;
    Ok(held_by(block, found, &out))
}

/// What it reads of both blocks.
pub fn read_both<B: Blocks>(driver: &mut B) -> Result<(Held, Held), BlockFault>
    requires first { Contains (B.state driver.old).numbers 8 }
    requires second { Contains (B.state driver.old).numbers 9 }
    ensures { (B.state driver.new).numbers ≡ (B.state driver.old).numbers }
{
    let first = read_one(driver, 8)?;
    Ok((first, read_one(driver, 9)?))
}

/// A block of the job: what it holds, and what the change that failed asked for, or again what it holds.
#[derive(Clone, Copy)]
struct Changed {
    held: Held,
    asked: Held,
}

impl Changed {
    /// A block that holds this, and of which no change failed.
    fn to(held: Held) -> Changed {
        Changed { held, asked: held }
    }

    /// Whether it may be found so.
    fn allows(self, found: Held) -> bool {
        found == self.held || found == self.asked
    }
}

/// How far the job came: both blocks, and whether all changes were made.
#[derive(Drop)]
pub struct Progress {
    first: Changed,
    second: Changed,
    pub is_whole: bool,
}

impl Progress {
    /// Takes a change that was made.
    fn take(&mut self, second: bool, asked: Held) {
        if second {
            self.second = Changed::to(asked);
        } else {
            self.first = Changed::to(asked);
        }
    }

    /// Takes the change that failed.
    fn fail(&mut self, second: bool, asked: Held) {
        self.is_whole = false;
        if second {
            self.second.asked = asked;
        } else {
            self.first.asked = asked;
        }
    }

    /// Whether the blocks may be found so.
    pub fn allows(&self, found: (Held, Held)) -> bool {
        let (first, second) = found;
        self.first.allows(first) && self.second.allows(second)
    }
}

/// Makes the changes of the job until one fails.
pub fn run_job<B: Blocks>(driver: &mut B) -> Progress
    requires first { Contains (B.state driver.old).numbers 8 }
    requires second { Contains (B.state driver.old).numbers 9 }
    ensures { (B.state driver.new).numbers ≡ (B.state driver.old).numbers }
{
    let mut progress = Progress {
        first: Changed::to(Held::Missing),
        second: Changed::to(Held::Missing),
        is_whole: true,
    };
    for change in &JOB {
        let (second, asked) = *change;
        if put(driver, second, asked).is_err() {
            progress.fail(second, asked);
            return progress;
        }
        progress.take(second, asked);
    }
    progress
}

/// What the driver reads of both blocks, at the second try where the first one fails.
fn read_again<B: Blocks>(driver: &mut B) -> Result<(Held, Held), BlockFault>
    requires first { Contains (B.state driver.old).numbers 8 }
    requires second { Contains (B.state driver.old).numbers 9 }
{
    match read_both(driver) {
        Ok(both) => Ok(both),
        Err(_) => read_both(driver),
    }
}

/// Stops the test unless this is so of a job with this arm.
pub fn holds_of(rt: &impl Abort, is_so: bool, arm: Arm) {
    assert!(rt; is_so, "{arm:?}");
}

/// Makes the job over a driver with this arm, and reads the blocks with the power on again, a second time where the arm made that fail:
/// each holds what it held or what was asked. It answers whether all of the job was made, and what the blocks hold.
pub fn run_armed<B: Blocks>(
    rt: &impl Abort,
    driver: &mut B,
    arm: Arm,
) -> Result<(bool, (Held, Held)), Fail>
    requires first { Contains (B.state driver.old).numbers 8 }
    requires second { Contains (B.state driver.old).numbers 9 }
{
    let progress = run_job(driver);
    restart(driver);
    let found = read_again(driver)?;
    holds_of(rt, progress.allows(found), arm);
    Ok((progress.is_whole, found))
}
