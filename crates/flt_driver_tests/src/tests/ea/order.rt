//! The order of the writes of a record, by the units that are there after a cut before each of them, and the units that a mute is of.
use super::*;

/// How many units a device has whose units do not fit into sector 0.
const MANY: u16 = 1090;

/// The unit of a gate of block 8 of this kind, for this many bytes.
fn gate(kind: u8, length: u8, sequence: u8) -> [u8; 32] {
    seal(&[
        0x45, kind, 0, 8, 0, length, 0, 0, 0, sequence, 0, 0, 0, 0, 0, 0,
    ])
}

/// The last unit of forty bytes that are all this one.
fn rest(byte: u8) -> [u8; 32] {
    let mut unit = BLANK_PAGE;
    for at in 0..8 {
        unit[at] = byte;
    }
    unit
}

/// The three units of a place with this gate, and with bytes of which the first 32 and the others are these.
fn place(gate: [u8; 32], first: u8, others: u8) -> [[u8; 32]; 3] {
    [gate, [first; 32], rest(others)]
}

/// A unit of a device whose block 8 has these units at its places.
fn unit_of(unit: u16, first: &[[u8; 32]; 3], second: &[[u8; 32]; 3]) -> [u8; 32] {
    match unit {
        0..=2 => first[unit as usize],
        5..=7 => second[unit as usize - 5],
        _ => BLANK_PAGE,
    }
}

/// Whether a device has these units.
fn has_units(device: &EepromMem, first: &[[u8; 32]; 3], second: &[[u8; 32]; 3]) -> bool {
    for unit in 0..device.units() {
        if *device.unit(unit) != unit_of(unit, first, second) {
            return false;
        }
    }
    device.units() == 20
}

/// What block 8 is given after two records of forty bytes, with a cut before the write of this number, and the device after it.
fn third(rt: &impl Abort, alloc: Global, after: u32, step: Step) -> Result<EepromMem, Fail> {
    let steps = [
        Step::Write(8, 40, 1, Ok(())),
        Step::Write(8, 40, 2, Ok(())),
        Step::Arm(Arm::Cut {
            after,
            pattern: Pattern::Nothing,
        }),
        step,
    ];
    play_on(rt, alloc, EepromMem::blank(alloc, 20, 0)?, "third", &steps)
}

/// The gate is made blank, then the bytes are written in their order, and then the gate.
#[test]
fn a_record_is_written_from_its_blank_gate_on(rt: HostRuntime) -> Result<(), Fail> {
    let second = place(gate(1, 40, 2), 2, 2);
    let failed = Err(BlockFault::Flash);
    let cases = [
        (1, failed, place(gate(1, 40, 1), 1, 1)),
        (2, failed, place(BLANK_PAGE, 1, 1)),
        (3, failed, place(BLANK_PAGE, 3, 1)),
        (4, failed, place(BLANK_PAGE, 3, 3)),
        (5, Ok(()), place(gate(1, 40, 3), 3, 3)),
    ];
    for (after, answer, first) in &cases {
        let device = third(&rt, rt.alloc(), *after, Step::Write(8, 40, 3, *answer))?;
        holds_at(
            &rt,
            has_units(&device, first, &second),
            "write",
            *after as usize,
        );
    }
    Ok(())
}

/// A block that is made invalid is given a gate alone.
#[test]
fn an_invalid_block_is_given_a_gate(rt: HostRuntime) -> Result<(), Fail> {
    let second = place(gate(1, 40, 2), 2, 2);
    let failed = Err(BlockFault::Flash);
    let cases = [
        (1, failed, place(gate(1, 40, 1), 1, 1)),
        (2, failed, place(BLANK_PAGE, 1, 1)),
        (3, Ok(()), place(gate(2, 0, 3), 1, 1)),
    ];
    for (after, answer, first) in &cases {
        let device = third(&rt, rt.alloc(), *after, Step::Invalidate(8, *answer))?;
        holds_at(
            &rt,
            has_units(&device, first, &second),
            "write",
            *after as usize,
        );
    }
    Ok(())
}

/// Whether a read of a unit fails.
fn fails(device: &mut EepromMem, unit: u16) -> bool {
    unit < device.units() && device.read_unit(unit, &mut [0; 32]).is_err()
}

/// A mute of page 3 of sector 1 is one of unit 1027, and of no other.
#[test]
fn a_mute_of_a_later_sector_is_of_one_unit(rt: HostRuntime) -> Result<(), Fail> {
    let mut device = EepromMem::blank(rt.alloc(), MANY, 0)?;
    device.arm(Arm::Mute {
        sector: 1,
        page: 3,
        times: 1,
    });
    for unit in 0..MANY {
        let is_as_muted = fails(&mut device, unit) == (unit == 1027);
        holds_at(&rt, is_as_muted, "unit", unit as usize);
    }
    let is_over = !fails(&mut device, 1027) && device.armed() == 0;
    holds(&rt, is_over, "the mute is over");
    Ok(())
}
