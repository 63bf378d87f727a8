//! Why a write of the store does not succeed.
ghost use Rattle.flt_store.specs.Fault.{IsSaveFault, IsPutFault};

use flt_flash::BlockFault;
use thiserror::Error;

/// Why a save did not succeed. The image names the generation before or the new one.
#[derive(Clone, Copy, Debug, PartialEq, Eq, Error)]
pub enum SaveFault {
    /// The device failed in three tries.
    #[error("the device failed in three tries")]
    Flash,
    /// The last number of a generation, 2^32 - 1, is in use.
    #[error("the last number of a generation is in use")]
    Spent,
    /// A record does not fit, and no sequence number of the device is left.
    #[error("a record has no sequence number left")]
    SequenceSpent,
}

/// Why an application block was not put. It holds what it held or what was asked.
#[derive(Clone, Copy, Debug, PartialEq, Eq, Error)]
pub enum PutFault {
    /// The device failed in three tries.
    #[error("the device failed in three tries")]
    Flash,
    /// The record does not fit, and no sequence number of the device is left.
    #[error("the record has no sequence number left")]
    SequenceSpent,
}

impl From<BlockFault> for SaveFault {
    ghost from_gives = { IsSaveFault };

    fn from(fault: BlockFault) -> Self {
        match fault {
            BlockFault::SequenceSpent => SaveFault::SequenceSpent,
            _ => SaveFault::Flash,
        }
    }
}

impl From<BlockFault> for PutFault {
    ghost from_gives = { IsPutFault };

    fn from(fault: BlockFault) -> Self {
        match fault {
            BlockFault::SequenceSpent => PutFault::SequenceSpent,
            _ => PutFault::Flash,
        }
    }
}
