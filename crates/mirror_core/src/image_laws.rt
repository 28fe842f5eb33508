//! What is left of a mirror of two devices: each law is the contract of a function that does nothing.
//!
//! What its calls leave of each disk at each moment is in their clauses `first_moments` and `second_moments`. So these
//! say what the images of both disks have then.
ghost use Rattle.mirror_core.specs.ImageLaws.{FirstImageLaw, FlushImageLaw, LevelImageLaw, MomentsImageLaw, PairImageLaw};
ghost use Rattle.mirror_core.specs.ImageLaws.{SecondImageLaw, SomeImageLaw};

/// Each image of a leg keeps, on its own, every write that the mirror has flushed.
pub fn images_keep_what_is_flushed()
    ensures first { FirstImageLaw }
    ensures second { SecondImageLaw }
{}

/// By level's rule each pair of images has of each block its last flushed content or one written later, also where each
/// is of another moment of one call.
pub fn pairs_of_images_are_kept()
    ensures kept { PairImageLaw }
    ensures something { SomeImageLaw }
    ensures moments { MomentsImageLaw }
{}

/// Once a flush or a level is done, the blocks that were written, and those that were levelled, are alike in all images of
/// both legs.
pub fn images_are_twins()
    ensures flush { FlushImageLaw }
    ensures level { LevelImageLaw }
{}
