//! What the words of the contracts say, for the layers of every mode: each law is the contract of a function that does
//! nothing.

ghost use Rattle.recalculation.specs.All.{RecoveredCellsLaw, RecoveredChangesLaw};
ghost use Rattle.recalculation.specs.AllWithBitmap.{BitmapCellsLaw, BitmapRecalculatedLaw, OpenedWithBitmapLaw};
ghost use Rattle.recalculation.specs.Laws.{BitmapBlocksLaw, OpenedBitsLaw, OpenedPositionLaw, PositionBlocksLaw};
ghost use Rattle.recalculation.specs.Laws.{SameBlocksLaw, SameMomentsLaw};

/// At opening those regions and blocks await that the image tells, with a bitmap and without one.
pub fn regions_await()
    ensures bits { OpenedBitsLaw }
    ensures position { OpenedPositionLaw }
{}

/// A recalculation is the same by any test that tells the region's blocks alike: with a bitmap each block of a region
/// that awaits does, and without one each that is to be recalculated.
pub fn region_is_recalculated()
    ensures blocks { SameBlocksLaw }
    ensures moments { SameMomentsLaw }
    ensures bitmap { BitmapBlocksLaw }
    ensures position { PositionBlocksLaw }
{}

/// All regions are recalculated of an image that was recovered: at each moment each image has its cells, and then a
/// change of mode begins, where the journal was emptied.
pub fn recovered_regions_are_recalculated()
    ensures cells { RecoveredCellsLaw }
    ensures changes { RecoveredChangesLaw }
{}

/// Of an image with a bitmap those regions await at opening whose bit is set. While all of them are recalculated each
/// image has its cells at each moment, and no other bit, and then a change of mode begins.
pub fn bitmap_regions_are_recalculated()
    ensures awaiting { OpenedWithBitmapLaw }
    ensures cells { BitmapCellsLaw }
    ensures recalculated { BitmapRecalculatedLaw }
{}
