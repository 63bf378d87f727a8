//! A drain of a queue without a lock: jobs are taken from the queue, written, and noted as done.
ghost use Rattle.std.specs.Prelude.{◌≡◌, ◌∷◌};
ghost use Rattle.flt_flash.specs.Calls.{Follows};
ghost use Rattle.flt_queue.specs.Queue.{History, IsJob};
ghost use Rattle.flt_queue.specs.declared.job.QueueOp.TheVariants as queue_ops;
ghost use Rattle.flt_queue.specs.Stands as queued;
ghost use Rattle.flt_store_model.specs.Holding.{Generation};
ghost use Rattle.flt_store.specs.Store.{IsAlive, IsRunning, driver_of};
ghost use Rattle.flt_life_model.specs.Draining.{WritesJob};
ghost use Rattle.flt_lives.specs.Draining.{HasDrained, IsJobTaken};

use flt_config::ValidConfig;
use flt_flash::Blocks;
use flt_queue::{Job, JobQueue, QueueKind, QueueOp, WAITING};
use flt_store::Store;

/// Writes a job, and notes what became of it: whether it was written.
fn write_job<D: Blocks + Drop>(
    queue: &mut JobQueue,
    store: &mut Store<D>,
    config: &ValidConfig,
    job: &Job,
) -> bool
    requires blocks { queue.old.blocks ≡ config.now.blocks }
    requires alive { IsAlive config.now store.old }
    requires job { IsJob config.now.blocks job.now }
    ensures blocks { queue.new.blocks ≡ queue.old.blocks }
    ensures wrote { WritesJob config.now job.now result store.old store.new }
    ensures noted { (jobs : History) → queued.QueueStands config.now.blocks jobs queue.old
        → queued.QueueStands config.now.blocks (queue_ops.Done job.now.block result ∷ jobs) queue.new }
{
    let written = store.put_block(job.block, &job.bytes).is_ok();
    queue.apply(&QueueOp::Done {
        block: job.block,
        written,
    });
    written
}

/// Takes the next job, writes it, and notes what became of it: whether it was written, or nothing where no job waits. The job is
/// written in place of what `job` holds.
fn take_job<D: Blocks + Drop>(
    queue: &mut JobQueue,
    store: &mut Store<D>,
    config: &ValidConfig,
    job: &mut Job,
) -> Option<bool>
    requires blocks { queue.old.blocks ≡ config.now.blocks }
    requires alive { IsAlive config.now store.old }
    ensures blocks { queue.new.blocks ≡ queue.old.blocks }
    ensures running { (held spare : Generation) → IsRunning config.now held spare store.old → IsRunning config.now held spare store.new }
    ensures calls { Follows (driver_of store.old) (driver_of store.new) }
    ensures taken { (jobs : History) → queued.QueueStands config.now.blocks jobs queue.old
        → IsJobTaken config.now jobs result queue.new store.old store.new }
{
    match queue.apply_into(&QueueOp::Take, job) {
        QueueKind::Job(()) => Some(write_job(queue, store, config, job)),
        _ => None,
    }
}

/// Takes jobs until none waits, at most 32, and writes them, where nobody else calls the queue. It answers how many were written, and how
/// many could not be.
pub fn drain<D: Blocks + Drop>(
    queue: &mut JobQueue,
    store: &mut Store<D>,
    config: &ValidConfig,
) -> (u16, u16)
    requires blocks { queue.old.blocks ≡ config.now.blocks }
    requires alive { IsAlive config.now store.old }
    ensures blocks { queue.new.blocks ≡ queue.old.blocks }
    ensures running { (held spare : Generation) → IsRunning config.now held spare store.old → IsRunning config.now held spare store.new }
    ensures calls { Follows (driver_of store.old) (driver_of store.new) }
    ensures drained { (jobs : History) → queued.QueueStands config.now.blocks jobs queue.old
        → HasDrained config.now jobs result.0 result.1 queue.new store.old store.new }
{
    let mut job = Job::room();
    let mut written: u16 = 0;
    let mut failed: u16 = 0;
    for _job in 0..WAITING {
        let Some(was_written) = take_job(queue, store, config, &mut job) else {
            return (written, failed);
        };
        written += u16::from(was_written);
        failed += u16::from(!was_written);
    }
    (written, failed)
}
