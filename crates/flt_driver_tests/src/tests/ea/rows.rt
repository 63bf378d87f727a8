//! Worked rows of the driver.
ghost use Rattle.std.specs.Prelude.{◌≡◌, ◌<◌, ◌≤◌, IfOk, vec_len};
ghost use Rattle.flt_ea.specs.Gate.{IsGate};

use super::*;

/// The power fails at the first write of a block's third record.
const CUT: Arm = Arm::Cut {
    after: 1,
    pattern: Pattern::Tail,
};

/// The unit of the second gate of block 8.
const SECOND_GATE: Arm = Arm::Mute {
    sector: 0,
    page: 5,
    times: 1,
};

/// Takes the steps of a row on a blank device, which comes back.
fn play_on_blank(
    rt: &impl Abort,
    alloc: Global,
    row: &str,
    steps: &[Step],
) -> Result<EepromMem, Fail> {
    play_on(rt, alloc, EepromMem::blank(alloc, 20, 2)?, row, steps)
}

/// The mount reads both gates of each block.
#[test]
fn a_block_is_written_and_made_invalid(rt: HostRuntime) -> Result<(), Fail> {
    let device = play_on_blank(&rt, rt.alloc(), "written", WRITTEN)?;
    holds(&rt, device.operations() == 20, "the operations");
    Ok(())
}

static TORN: [Step; 6] = [
    Step::Write(8, 1, 1, Ok(())),
    Step::Write(8, 1, 2, Ok(())),
    Step::Arm(CUT),
    Step::Write(8, 1, 3, Err(BlockFault::Flash)),
    Step::Restart,
    Step::Read(8, Ok(Found::Bytes(1)), 2),
];

#[test]
fn a_torn_gate_leaves_the_record_before(rt: HostRuntime) -> Result<(), Fail> {
    play_on_blank(&rt, rt.alloc(), "torn", &TORN)?;
    Ok(())
}

static MUTED: [Step; 3] = [
    Step::Arm(SECOND_GATE),
    Step::Mount(Err(BlockFault::Flash)),
    Step::Mount(Ok(())),
];

#[test]
fn a_muted_unit_fails_a_mount(rt: HostRuntime) -> Result<(), Fail> {
    play_on_blank(&rt, rt.alloc(), "muted", &MUTED)?;
    Ok(())
}

/// Twenty blank units but for the first one and the sixth.
fn image_with(alloc: Global, first: [u8; 32], sixth: [u8; 32]) -> Result<Vec<[u8; 32]>, AllocError>
    ensures { IfOk result (λ image. vec_len image ≡ 20) }
{
    let mut image = vec![in alloc; BLANK_PAGE; 20]?;
    image[0] = first;
    image[5] = sixth;
    Ok(image)
}

/// The unit of a gate of one byte.
fn gate(block: u16, sequence: u32) -> [u8; 32]
    requires { 1 ≤ sequence }
{
    seal(&put_gate(&Gate {
        block,
        length: 1,
        valid: true,
        sequence,
    }))
}

/// The unit of a code word that says all of a gate of block 8 but its number, which is 0.
fn numberless() -> [u8; 32] {
    seal(&[0x45, 1, 0, 8, 0, 1, 0, 0, 0, 0, 0, 0, 0, 0, 0, 0])
}

/// Takes steps over these units.
fn play_with(
    rt: &impl Abort,
    alloc: Global,
    first: [u8; 32],
    sixth: [u8; 32],
    row: &str,
    steps: &[Step],
) -> Result<(), Fail> {
    let device = EepromMem::of(alloc, image_with(alloc, first, sixth)?, 2)?;
    play_on(rt, alloc, device, row, steps)?;
    Ok(())
}

/// A mount of a damaged unit of block 8.
const FIRST_DAMAGED: &[Step] = &[Step::Mount(Err(BlockFault::Damaged { sector: 0, page: 0 }))];

const SECOND_DAMAGED: &[Step] = &[Step::Mount(Err(BlockFault::Damaged { sector: 1, page: 0 }))];

/// What is in a unit.
#[derive(Clone, Copy)]
enum Unit {
    Blank,
    Zeros,
    // The gate of one byte of block 8 or 9, under its number.
    Gate8,
    Gate9,
    // A gate whose number is 0, and a code word of no gate.
    Numberless,
    NoGate,
}

fn unit_of(unit: Unit) -> [u8; 32] {
    match unit {
        Unit::Blank => BLANK_PAGE,
        Unit::Zeros => [0; 32],
        Unit::Gate8 => gate(8, 3),
        Unit::Gate9 => gate(9, 4),
        Unit::Numberless => numberless(),
        Unit::NoGate => seal(&[0; 16]),
    }
}

/// The first unit and the sixth, which no driver writes so, and the mount that meets them.
static DAMAGED: [(Unit, Unit, &str, &[Step]); 6] = [
    (Unit::Zeros, Unit::Blank, "zeros", FIRST_DAMAGED),
    (Unit::Gate8, Unit::Gate8, "one number", SECOND_DAMAGED),
    (Unit::Gate8, Unit::Gate9, "another block", SECOND_DAMAGED),
    (Unit::Numberless, Unit::Blank, "0", FIRST_DAMAGED),
    (Unit::Gate8, Unit::Numberless, "0", SECOND_DAMAGED),
    (Unit::Gate8, Unit::NoGate, "none", SECOND_DAMAGED),
];

#[test]
fn units_that_no_driver_writes_are_damage(rt: HostRuntime) -> Result<(), Fail> {
    for (first, sixth, row, steps) in &DAMAGED {
        play_with(
            &rt,
            rt.alloc(),
            unit_of(*first),
            unit_of(*sixth),
            row,
            steps,
        )?;
    }
    Ok(())
}

/// Block 8 can't be written any more, and block 9 can.
static STUCK: [Step; 7] = [
    Step::Read(8, Ok(Found::Bytes(1)), 0xff),
    Step::Spent(true),
    Step::Write(8, 1, 1, Err(BlockFault::SequenceSpent)),
    Step::Invalidate(8, Err(BlockFault::SequenceSpent)),
    Step::Write(9, 1, 1, Ok(())),
    Step::Read(9, Ok(Found::Bytes(1)), 1),
    Step::Spent(true),
];

#[test]
fn a_block_at_the_last_number_is_stuck(rt: HostRuntime) -> Result<(), Fail> {
    let alloc = rt.alloc();
    play_with(&rt, alloc, gate(8, 3), gate(8, u32::MAX), "stuck", &STUCK)
}
