//! What holds of every geometry: each law is the contract of a function that does nothing.

ghost use Rattle.image_model.specs.GeometryLaws.{ApartLaw, BestProvidedLaw, FittingLaw, GivenLaw, NoneProvidedLaw};

/// The geometry of the fields is given exactly where it has room on the disk.
pub fn geometry_is_given()
    ensures { GivenLaw }
{}

/// The superblock, the journal's sections, the tags and the data of all blocks lie apart and on the disk.
pub fn parts_lie_apart()
    ensures { ApartLaw }
{}

/// The fitting log2_region is the least one whose bitmap fits the journal's sectors.
pub fn fitting_log2_region_is_least()
    ensures { FittingLaw }
{}

/// The sectors of a new image are the most that the disk can provide, and none are told where it can
/// provide none.
pub fn best_provided_is_greatest()
    ensures best { BestProvidedLaw }
    ensures none { NoneProvidedLaw }
{}
