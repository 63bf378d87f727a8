//! What follows from the definitions of a stored generation.
ghost use Rattle.flt_store_model.specs.Laws.{MarksAreRead, CommitsAreRead, FirstVersionIsOfFewEvents, PartsAreTaken, BlocksDetermineState, HeldStands, SpareStands, HeldTellsFirstFault, SpareTellsFirstFault, HeldWithoutFault, SpareWithoutFault, EitherCopyCounts, OnlyBytesCount, SoundIsOneOrNext, BorneHasRoom, BlankIsSound};

/// Exactly the bytes of a mark are read as a mark, and as that one.
pub fn marks_are_read()
    ensures { MarksAreRead }
{}

/// Exactly the bytes of a commit of a configuration are read as a commit, and as that one. No commit of version 1 belongs to a
/// configuration of more than 64 events.
pub fn commits_are_read()
    ensures read { CommitsAreRead }
    ensures few { FirstVersionIsOfFewEvents }
{}

/// A part is accepted if and only if its bytes are those of a state that fits in that part, with the rest, and differs in it alone.
pub fn parts_are_taken()
    ensures { PartsAreTaken }
{}

/// Two states that fit and have the same bytes in each used block are equal.
pub fn blocks_determine_state()
    ensures { BlocksDetermineState }
{}

/// An image is read to hold exactly the generation whose mark, commit and blocks are in it, each with its bytes; so it holds
/// at most one. The same is said of what it holds if the first copy of the commit can't be read.
pub fn held_is_what_stands()
    ensures held { HeldStands }
    ensures spare { SpareStands }
{}

/// The fault that is reported is the first of all that the image has, in the order of judging: damaged at the block of the mark,
/// another configuration by the mark, damaged at the commit, at each used block, at each application block, and by the excess. A
/// generation is held exactly if it has no fault. The same is said of what it holds if the first copy of the commit can't be read.
pub fn first_fault_is_told()
    ensures by_first { HeldTellsFirstFault }
    ensures by_second { SpareTellsFirstFault }
    ensures fine_by_first { HeldWithoutFault }
    ensures fine_by_second { SpareWithoutFault }
{}

/// The first copy of the commit counts if it has bytes, else the second if that has bytes, else the first; the second alone
/// counts as missing if it has no bytes.
pub fn copies_count()
    ensures either { EitherCopyCounts }
    ensures alone { OnlyBytesCount }
{}

/// The two generations of a sound image are the same, or the held one follows the spare one.
pub fn sound_is_one_or_next()
    ensures { SoundIsOneOrNext }
{}

/// If the excess of an image is small enough, its records leave room for one more, as long as any that the configuration writes.
pub fn borne_excess_leaves_room()
    ensures { BorneHasRoom }
{}

/// An image in which nothing was ever written is sound, and holds the first generation.
pub fn blank_image_is_sound()
    ensures { BlankIsSound }
{}
