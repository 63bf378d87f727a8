//! What the definitions of a whole image come to.
ghost use Rattle.flt_store_model.specs.WholeLaws.{HeldTellsFirst, SpareTellsFirst, HeldStandsInImage, SpareStandsInImage, SoundImageHoldsBoth, UnwrittenHoldsFirst, BlankHoldsFirst};

/// The fault that is reported of an image is the first of all that it has: that of its pages, then those of its blocks in the order of
/// judging. The same is said of what it holds where the first copy of its commit can't be read.
pub fn first_fault_is_told()
    ensures held { HeldTellsFirst }
    ensures spare { SpareTellsFirst }
{}

/// An image holds a generation exactly where none of its pages is at fault and the generation is in its blocks.
pub fn held_stands_in_image()
    ensures held { HeldStandsInImage }
    ensures spare { SpareStandsInImage }
{}

/// An image is sound exactly where it holds two generations that are one, or of which the spare one is followed by the other.
pub fn sound_image_holds_both()
    ensures { SoundImageHoldsBoth }
{}

/// An image without a valid sector and without a fault is sound and holds the first generation; so does a blank one.
pub fn unwritten_image_is_sound()
    ensures unwritten { UnwrittenHoldsFirst }
    ensures blank { BlankHoldsFirst }
{}
