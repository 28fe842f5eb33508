//! What holds of every superblock: each law is the contract of a function that does nothing.

ghost use Rattle.image_model.specs.SuperblockLaws.{ReadsBackLaw, ToldLaw, WrittenLaw};

/// What is written for accepted fields has 64 bytes, and reads as these fields.
pub fn superblock_reads_back()
    ensures reads_back { ReadsBackLaw }
    ensures written { WrittenLaw }
{}

/// The fields are told exactly where the magic stands and none of them is refused.
pub fn superblock_is_told()
    ensures { ToldLaw }
{}
