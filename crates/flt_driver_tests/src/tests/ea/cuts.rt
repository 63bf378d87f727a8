//! A fixed job, each of whose writes is cut or fails by each pattern: each block holds then what it held or what was asked.
ghost use Rattle.flt_flash.specs.State.{CanArm};

use super::*;
use crate::tests::job::{holds_of, run_armed};

/// The units of the device.
const UNITS: u16 = 20;

/// How many writes the job makes: those of seven records.
const OPERATIONS: u32 = 22;

/// Runs the job over a blank device with this arm, and reads the blocks with the power on again, a second time where the arm
/// made that fail. It answers whether all of the job was made.
fn run_case(rt: &impl Abort, alloc: Global, arm: Arm) -> Result<bool, Fail>
    requires { CanArm arm }
{
    let mut device = EepromMem::blank(alloc, UNITS, 1)?;
    device.arm(arm);
    let mut ea = two_blocks(alloc, device)?;
    let (is_whole, _) = run_armed(rt, &mut ea, arm)?;
    Ok(is_whole)
}

/// Runs the job with this arm at a write of this number. It has all of it where the write is after its last one.
fn is_whole_after(rt: &impl Abort, alloc: Global, arm: Arm, after: u32) -> Result<(), Fail>
    requires { CanArm arm }
{
    let is_whole = run_case(rt, alloc, arm)?;
    holds_of(rt, is_whole == (after > OPERATIONS), arm);
    Ok(())
}

/// The patterns of a cut and of a fault.
static PATTERNS: [Pattern; 4] = [Pattern::Nothing, Pattern::All, Pattern::Tail, Pattern::Odd];

#[test]
fn each_write_is_cut_and_fails(rt: HostRuntime) -> Result<(), Fail> {
    for pattern in &PATTERNS {
        let pattern = *pattern;
        for after in 1..30 {
            is_whole_after(&rt, rt.alloc(), Arm::Cut { after, pattern }, after)?;
            is_whole_after(&rt, rt.alloc(), Arm::Fault { after, pattern }, after)?;
        }
    }
    Ok(())
}

#[test]
fn each_unit_is_muted(rt: HostRuntime) -> Result<(), Fail> {
    for page in 0..UNITS {
        let times = 1;
        run_case(
            &rt,
            rt.alloc(),
            Arm::Mute {
                sector: 0,
                page,
                times,
            },
        )?;
    }
    Ok(())
}
