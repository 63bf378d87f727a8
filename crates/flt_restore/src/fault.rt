//! Why a start-up does not succeed.

ghost use Rattle.std.specs.Prelude.{◌≡◌};
ghost use Rattle.flt_restore.specs.Told.{start_fault_of};

use flt_flash::BlockFault;
use flt_store_model::{Mark, Place};
use thiserror::Error;

/// Why a start-up did not succeed.
#[derive(Clone, Copy, Debug, PartialEq, Eq, Error)]
pub enum StartFault {
    /// The device failed in three tries.
    #[error("the device failed in three tries")]
    Flash,
    /// The image holds no generation: at this place is what nothing of this product writes, or what does not fit.
    #[error("the image is damaged")]
    Damaged(Place),
    /// The image belongs to another configuration, whose mark was found.
    #[error("the image belongs to another configuration")]
    OtherConfig { found: Mark, wanted: Mark },
    /// The last sequence number of the device is in use.
    #[error("the last sequence number of the device is in use")]
    SequenceSpent,
}

impl From<BlockFault> for StartFault {
    ghost from_gives = { λ fault told. told ≡ start_fault_of fault };

    fn from(fault: BlockFault) -> Self {
        match fault {
            BlockFault::Damaged { sector, page } => StartFault::Damaged(Place::Page {
                sector,
                page,
            }),
            BlockFault::SequenceSpent => StartFault::SequenceSpent,
            BlockFault::Flash | BlockFault::Full { .. } => StartFault::Flash,
        }
    }
}
