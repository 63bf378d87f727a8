use super::holds;
use arrayvec::ArrayVec;
use flt_dcm::ReplyKind;
use flt_life_model::*;
use flt_step::{Part, Step};
use std::test::Fail;

#[test]
fn answers_are_kept(rt: HostRuntime) -> Result<(), Fail> {
    let mut replies = LaneReplies::with_room(rt.alloc(), 4, 5)?;
    let response = StepAnswer::Dem(Answer {
        place: 0,
        reply: ReplyKind::Response(()),
    });
    replies.keep(response, &[0x51, 0x01]);
    let silent = StepAnswer::Dem(Answer {
        place: 1,
        reply: ReplyKind::Silent,
    });
    replies.keep(silent, &[]);
    replies.keep(StepAnswer::Dark, &[0x7F]);
    let mut bytes = ArrayVec::new();
    bytes.push(0xB9);
    replies.keep(StepAnswer::Bytes(bytes), &[0x7F]);
    holds(&rt, replies.answers.len() == 4, "how many answers");
    let are_kept = replies.responses.as_slice() == [0x51, 0x01, 0xB9].as_slice();
    holds(&rt, are_kept, "the bytes of the responses");
    let block = KeptResponse { from: 2, length: 1 };
    let is_last = block.among(&[0x51, 0x01, 0xB9]) == [0xB9].as_slice();
    holds(&rt, is_last, "the bytes of the last response");
    Ok(())
}

#[test]
fn room_is_taken_for_all_lanes(rt: HostRuntime) -> Result<(), Fail> {
    let parts = [Part::One(Step::Save), Part::Lanes(Vec::new(rt.alloc()))];
    let room = LifeRoom::for_parts(rt.alloc(), &parts)?;
    let LifeRoom {
        own,
        lanes,
        told,
        replies,
    } = room;
    holds(&rt, lanes.len() == 0, "no lane");
    let journal = Vec::new(rt.alloc());
    let queue = Vec::new(rt.alloc());
    let life = life_of(Boot::Dark, journal, queue, own, told, replies);
    holds(&rt, life.replies.len() == 1, "the replies of one part");
    Ok(())
}

/// Whether a step makes this many calls of the machine and of the queue, and has this many bytes of a response.
fn counts(step: Step, calls: usize, jobs: usize, bytes: usize) -> bool {
    call_count(&step) == calls && queue_count(&step) == jobs && response_size(&step) == bytes
}

#[test]
fn steps_are_counted(rt: HostRuntime) {
    holds(&rt, counts(Step::Save, 2, 0, 0), "save");
    holds(&rt, counts(Step::Show { event: 0 }, 1, 0, 0), "show");
    holds(&rt, counts(Step::Cycle { cycle: 3 }, 1, 0, 0), "cycle");
    holds(&rt, counts(Step::Drain, 0, 64, 0), "drain");
    holds(&rt, counts(Step::Ask { block: 0 }, 0, 1, 0), "ask");
    holds(&rt, counts(Step::Get { block: 0 }, 0, 0, 32), "get");
}
