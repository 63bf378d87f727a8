//! The places of faults.

/// Where an image is damaged.
#[derive(Clone, Copy, Debug, PartialEq, Eq)]
pub enum Place {
    /// At a page of a sector: no driver of blocks wrote what is there.
    Page { sector: u8, page: u16 },
    /// At the block of this identifier, or 0 if the records take more pages than the configuration leaves.
    Block { id: u16 },
}
