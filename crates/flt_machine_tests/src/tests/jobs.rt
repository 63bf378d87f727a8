//! The queue by hand.
ghost use Rattle.std.specs.Prelude.{◌≡◌, ◌<◌, length};

use super::{holds, holds_at};
use arrayvec::ArrayVec;
use flt_queue::{Job, JobQueue, LastResult, QueueOp, QueueReply};
use std::process::Abort;
use std::test::*;

fn job(block: u8, byte: u8) -> Job
    ensures block { result.block ≡ block }
    ensures bytes { length result.bytes.items ≡ 1 }
{
    let mut bytes = ArrayVec::new();
    bytes.push(byte);
    Job { block, bytes }
}

fn post(queue: &mut JobQueue, urgent: bool, block: u8) -> QueueReply
    requires { block < queue.old.blocks }
    ensures { queue.new.blocks ≡ queue.old.blocks }
{
    queue.apply(&QueueOp::Post {
        urgent,
        job: job(block, 1),
    })
}

fn done(queue: &mut JobQueue, block: u8) -> QueueReply
    requires { block < queue.old.blocks }
    ensures { queue.new.blocks ≡ queue.old.blocks }
{
    queue.apply(&QueueOp::Done {
        block,
        written: true,
    })
}

fn ask(queue: &mut JobQueue, block: u8) -> QueueReply
    requires { block < queue.old.blocks }
    ensures { queue.new.blocks ≡ queue.old.blocks }
{
    queue.apply(&QueueOp::Ask { block })
}

fn take(queue: &mut JobQueue) -> QueueReply
    ensures { queue.new.blocks ≡ queue.old.blocks }
{
    queue.apply(&QueueOp::Take)
}

/// Whether the result of a block is this.
fn is_last(queue: &mut JobQueue, block: u8, wanted: LastResult) -> bool
    requires { block < queue.old.blocks }
    ensures { queue.new.blocks ≡ queue.old.blocks }
{
    ask(queue, block) == QueueReply::Last(wanted)
}

/// Whether the job of this block is taken next.
fn is_next(queue: &mut JobQueue, block: u8) -> bool
    ensures { queue.new.blocks ≡ queue.old.blocks }
{
    take(queue) == QueueReply::Job(job(block, 1))
}

/// Posts a job of each of the first 32 blocks.
fn post_all(rt: &impl Abort, queue: &mut JobQueue)
    requires { queue.old.blocks ≡ 40 }
    ensures { queue.new.blocks ≡ 40 }
{
    for block in 0..32u8 {
        let is_accepted = post(queue, false, block) == QueueReply::Accepted;
        holds_at(rt, is_accepted, "a post for block", block as usize);
    }
}

/// Takes each of these jobs once, in order, and does it.
fn do_all(rt: &impl Abort, queue: &mut JobQueue)
    requires { queue.old.blocks ≡ 40 }
    ensures { queue.new.blocks ≡ 40 }
{
    for block in 0..32u8 {
        let is_done = is_next(queue, block) && done(queue, block) == QueueReply::Noted;
        holds_at(rt, is_done, "the job of block", block as usize);
    }
}

/// Whether the queue takes no job of another block, nor of one whose job waits and was not taken.
fn is_full(queue: &mut JobQueue) -> bool
    requires { queue.old.blocks ≡ 40 }
    ensures { queue.new.blocks ≡ 40 }
{
    post(queue, false, 32) == QueueReply::QueueFull
        && post(queue, false, 0) == QueueReply::BlockPending
        && is_last(queue, 0, LastResult::Pending)
        && done(queue, 0) == QueueReply::NotTaken
}

/// Whether no job is left, the one of block 0 was written, and block 32 never had one.
fn is_empty(queue: &mut JobQueue) -> bool
    requires { queue.old.blocks ≡ 40 }
    ensures { queue.new.blocks ≡ 40 }
{
    take(queue) == QueueReply::NoJob
        && is_last(queue, 0, LastResult::Written)
        && is_last(queue, 32, LastResult::Never)
}

/// 32 jobs wait, and not one more; each is taken once, in order, and done.
#[test]
fn forty_blocks(rt: HostRuntime) -> Result<(), Fail> {
    let mut queue = JobQueue::new(rt.alloc(), 40)?;
    post_all(&rt, &mut queue);
    holds(&rt, is_full(&mut queue), "the full queue");
    do_all(&rt, &mut queue);
    holds(&rt, is_empty(&mut queue), "the empty queue");
    Ok(())
}

/// An urgent job is taken before a standard one that was posted earlier.
#[test]
fn urgent_first(rt: HostRuntime) -> Result<(), Fail> {
    let mut queue = JobQueue::new(rt.alloc(), 40)?;
    let is_accepted = post(&mut queue, false, 0) == QueueReply::Accepted;
    holds(&rt, is_accepted, "a standard job");
    let is_accepted = post(&mut queue, true, 1) == QueueReply::Accepted;
    holds(&rt, is_accepted, "an urgent job");
    let are_next = is_next(&mut queue, 1) && is_next(&mut queue, 0);
    holds(&rt, are_next, "the urgent job and then the standard one");
    Ok(())
}
