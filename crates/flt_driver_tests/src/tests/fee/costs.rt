//! What calls cost of operations and of erases, counted on the flash.
use super::*;

/// Calls, the operations after each, and the erases of sector 1. A mount reads four gates; on a blank flash it erases a sector and programs
/// two. A record costs its pages, a read the pages of its bytes. A later mount reads two pages a record and those from the end on, the
/// first of them twice (4 + 6 + 1 + 53). A switch erases once, programs two gates and copies each page of bytes by a read and a program
/// (3 + 4 + 6, and then the new record).
static CALLS: [Step; 11] = [
    Step::Mount(Ok(())),
    Step::Write(8, 1, 1, Ok(())),
    Step::Write(9, 64, 2, Ok(())),
    Step::Read(8, Ok(Found::Bytes(1)), 1),
    Step::Read(9, Ok(Found::Bytes(64)), 2),
    Step::Invalidate(8, Ok(())),
    Step::Read(8, Ok(Found::Invalid), UNREAD),
    Step::Mount(Ok(())),
    Step::Fill(17),
    Step::Write(8, 1, 1, Ok(())),
    Step::Read(8, Ok(Found::Bytes(1)), 1),
];

static COSTS: [(u64, u64); 11] = [
    (7, 0),
    (10, 0),
    (14, 0),
    (15, 0),
    (17, 0),
    (19, 0),
    (19, 0),
    (83, 0),
    (134, 0),
    (150, 1),
    (151, 1),
];

#[test]
fn calls_cost_what_the_records_need(rt: HostRuntime) -> Result<(), Fail> {
    for (last, (operations, erases)) in COSTS.iter().enumerate() {
        let flash = play_on_blank(&rt, rt.alloc(), "costs", &CALLS[..last + 1])?;
        let costs_so = flash.operations() == *operations && is_worn(&flash, 1, *erases);
        holds_at(&rt, costs_so, "call", last);
    }
    Ok(())
}
