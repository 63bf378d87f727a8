//! Faults of pages.
ghost use Rattle.std.specs.Prelude.{◌≡◌};
ghost use Rattle.flt_pages.specs.declared.fault.PageFault.TheVariants.{Flash};

use flt_flash::{BlockFault, FlashFailed};
use thiserror::Error;

/// Why pages can't be judged. The image of the flash does not change.
#[derive(Clone, Copy, Debug, PartialEq, Eq, Error)]
pub enum PageFault {
    /// A read failed: the flash's count of faults rose.
    #[error("an operation of the device failed")]
    Flash,
    /// The page holds what no program or erase, torn or not, leaves there.
    #[error("sector {sector} is damaged at page {page}")]
    Damaged { sector: u8, page: u16 },
}

impl From<FlashFailed> for PageFault {
    ghost from_gives = { λ _ e. e ≡ Flash };

    fn from(_: FlashFailed) -> Self {
        PageFault::Flash
    }
}

impl From<PageFault> for BlockFault {
    ghost use Rattle.flt_pages.specs.Told.{block_fault};

    ghost from_gives = { λ fault made. made ≡ block_fault fault };

    fn from(fault: PageFault) -> Self {
        match fault {
            PageFault::Flash => BlockFault::Flash,
            PageFault::Damaged { sector, page } => BlockFault::Damaged { sector, page },
        }
    }
}
