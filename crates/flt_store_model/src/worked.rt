//! Worked examples, which the checker computes.
ghost use Rattle.flt_store_model.specs.Examples.{CopiesOfCommit, FaultsInOrder, OldImages, EachField, ManyEvents, ChangedPages};
ghost use Rattle.flt_store_model.specs.WholeExamples.{TwoSaves, PagesBeforeBlocks, OldSave};

/// Which generations the copies of a commit name, before, during and after a save, and if a copy has no bytes.
pub fn copies_of_commit()
    ensures { CopiesOfCommit }
{}

/// If each block is wrong, the first is reported, and the next one once that is corrected.
pub fn faults_in_order()
    ensures { FaultsInOrder }
{}

/// Which generations the copies of a commit name if one or both of them are of version 1, and which bytes are of no version; and
/// where each field of a generation is in the bytes, in both versions.
pub fn old_images()
    ensures copies { OldImages }
    ensures fields { EachField }
{}

/// What a configuration of more than 64 events reads of the two versions.
pub fn many_events()
    ensures { ManyEvents }
{}

/// The number of pages of the blocks whose bytes changed.
pub fn changed_pages()
    ensures { ChangedPages }
{}

/// What an image holds before the first save, after each step of two saves, and after a switch of the sectors.
pub fn saves()
    ensures { TwoSaves }
{}

/// A fault of the pages is reported before one of the blocks.
pub fn pages_before_blocks()
    ensures { PagesBeforeBlocks }
{}

/// What an image of version 1 holds, and what it holds after each step of a start-up and of the save after it.
pub fn old_save()
    ensures { OldSave }
{}
