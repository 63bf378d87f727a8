//! What a driver keeps of the calls that were made of it.
ghost use Rattle.std.specs.Prelude.{◌≡◌, None};
ghost use Rattle.flt_flash.specs.State.{counted_up};
ghost use Rattle.flt_flash.specs.Calls.{failed_after};

use crate::BlockFault;

/// A count of the calls, and the block of the last one that the flash failed.
#[derive(Clone, Copy)]
pub struct Tally {
    pub calls: u64,
    pub last_failed: Option<u16>,
}

impl Tally {
    /// No call was made.
    pub fn none() -> Tally
        ensures { result ≡ record { calls = 0; last_failed = None } }
    {
        Tally {
            calls: 0,
            last_failed: None,
        }
    }

    /// Counts a call.
    pub fn count(&mut self)
        ensures { self.new ≡ record self.old { calls = counted_up self.old.calls } }
    {
        self.calls = self.calls.saturating_add(1);
    }

    /// Notes the block of a call that was answered so, where the flash failed it.
    pub fn note<T>(&mut self, block: u16, answer: &Result<T, BlockFault>)
        ensures { self.new ≡ record self.old { last_failed = failed_after block self.old.last_failed answer.now } }
    {
        if let Err(BlockFault::Flash) = answer {
            self.last_failed = Some(block);
        }
    }
}
