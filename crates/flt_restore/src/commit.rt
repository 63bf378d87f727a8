//! What a start-up finds.

use flt_image::BlockBytes;
use flt_store_model::Commit;

/// A commit as it was read.
#[derive(Drop)]
pub struct CommitCopy {
    pub commit: Commit,
    /// The copy that was read, 1 or 2.
    pub copy: u8,
    /// The bytes that it has, in a version of the commit's form that is read.
    pub bytes: BlockBytes,
}

/// What a start-up finds in an image that holds a generation of the configuration.
#[derive(Drop)]
pub struct Restored {
    /// The commit by which the image was judged; `None` for the first generation.
    pub commit: Option<CommitCopy>,
    /// Whether the mark has to be written: it is missing, or in version 1.
    pub is_mark_due: bool,
}
