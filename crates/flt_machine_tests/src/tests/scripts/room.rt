use super::holds;
use flt_life_model::CallRoom;
use flt_step::{Part, Step};
use std::test::Fail;

#[test]
fn calls_are_counted(rt: HostRuntime) -> Result<(), Fail> {
    let mut lane = Vec::new(rt.alloc());
    lane.push(Step::Save)?;
    lane.push(Step::Drain)?;
    lane.push(Step::Ask { block: 0 })?;
    let of_lane = CallRoom {
        machine: 2,
        queue: 65,
    };
    holds(&rt, CallRoom::for_lane(&lane) == of_lane, "a lane");
    let mut lanes = Vec::new(rt.alloc());
    lanes.push(lane)?;
    let parts = [
        Part::One(Step::Save),
        Part::Lanes(lanes),
        Part::One(Step::Cycle { cycle: 3 }),
        Part::One(Step::Ask { block: 0 }),
    ];
    let of_parts = CallRoom {
        machine: 5,
        queue: 66,
    };
    holds(&rt, CallRoom::for_parts(&parts) == of_parts, "all parts");
    Ok(())
}
