//! What the steps of a script do.
ghost use Rattle.std.specs.Prelude.{◌≡◌};
ghost use Rattle.flt_life_model.specs.Actions.{action_of, call_count, queue_count, response_size};

use flt_flash::Arm;
use flt_model::{Op, RESPONSE};
use flt_queue::{Job, QueueOp, WAITING};
use flt_step::Step;
use flt_store_model::APPLICATION_LENGTH;

/// What a step of a life does.
#[derive(Drop)]
pub enum Action {
    /// A call of the status machine other than a snapshot or the note of a save.
    Call(Op),
    /// A call of the queue of write jobs: a post or a question.
    Queue(QueueOp),
    /// The durable state is saved.
    Save,
    /// The waiting jobs are taken and written, at most 32.
    Drain,
    /// The application block of this number is read.
    Get(u8),
    /// An arm is made on the bench.
    Arm(Arm),
}

/// What a step does.
#[inline(always)]
pub fn action_of(step: &Step) -> Action
    ensures { result ≡ action_of step.now }
{
    match step {
        Step::Report { event, report } => Action::Call(Op::Report {
            event: *event,
            report: *report,
        }),
        Step::Show { event } => Action::Call(Op::Show { event: *event }),
        Step::Cycle { cycle } => Action::Call(Op::Cycle { cycle: *cycle }),
        Step::Tick { ticks } => Action::Call(Op::Tick { ticks: *ticks }),
        Step::Signal { index, value } => Action::Call(Op::Signal {
            index: *index,
            value: *value,
        }),
        Step::Enable {
            condition,
            fulfilled,
        } => Action::Call(Op::Enable {
            condition: *condition,
            fulfilled: *fulfilled,
        }),
        Step::Request { tester, bytes } => Action::Call(Op::Request {
            tester: *tester,
            bytes: bytes.clone().unwrap(),
        }),
        Step::Save => Action::Save,
        Step::Post {
            urgent,
            block,
            bytes,
        } => Action::Queue(QueueOp::Post {
            urgent: *urgent,
            job: Job {
                block: *block,
                bytes: bytes.clone().unwrap(),
            },
        }),
        Step::Drain => Action::Drain,
        Step::Get { block } => Action::Get(*block),
        Step::Ask { block } => Action::Queue(QueueOp::Ask { block: *block }),
        Step::Arming(arm) => Action::Arm(*arm),
    }
}

/// The number of calls of the status machine that a step makes at most: a save takes a snapshot, and is acknowledged.
pub fn call_count(step: &Step) -> usize
    ensures { result ≡ call_count (action_of step.now) }
{
    match step {
        Step::Post { .. } | Step::Drain | Step::Get { .. } | Step::Ask { .. } | Step::Arming(_) =>
            0,
        Step::Save => 2,
        _ => 1,
    }
}

/// The number of calls of the queue that a step makes at most: a drain takes 32 jobs and notes what became of each.
pub fn queue_count(step: &Step) -> usize
    ensures { result ≡ queue_count (action_of step.now) }
{
    match step {
        Step::Post { .. } | Step::Ask { .. } => 1,
        Step::Drain => 2 * WAITING,
        _ => 0,
    }
}

/// The number of bytes of the longest answer to a step: a request has a response, and a read of a block the bytes that it holds.
pub fn response_size(step: &Step) -> usize
    ensures { result ≡ response_size (action_of step.now) }
{
    match step {
        Step::Request { .. } => RESPONSE,
        Step::Get { .. } => APPLICATION_LENGTH,
        _ => 0,
    }
}
