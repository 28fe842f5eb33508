//! Definitions and laws: what all modes of a device share, from the disk that it opens to what a cut may leave of it.
//!
//! `specs/Format.antt` is the file to read first: the disk, its tags and the cells of its images. Which sectors a
//! recovery, a call and a run write stands in `specs/RecoveryWrites.antt`, `specs/Places.antt` and
//! `specs/RunWrites.antt`, and which tags are kept, or awaited, in `specs/KeptTags.antt` and `specs/Awaiting.antt`.
#![tactic(auto)]

ghost use Rattle.place_model.specs.FirstSync.{FirstSyncLaw, OpeningLeftLaw, PlacedOpeningLeftLaw, PlacedSyncLaw};
ghost use Rattle.place_model.specs.Format.{ReadFormatLaw};
ghost use Rattle.place_model.specs.Kind.{BitmapKindLaw, DirectKindLaw, JournalKindLaw, PlacedKindLaw};
ghost use Rattle.place_model.specs.Left.{BitmapPendingLaw, DirectPendingLaw, JournalPendingLaw, PlacedPendingLaw};
ghost use Rattle.place_model.specs.Placed.{PlacedCellsLaw, PlacedLeftLaw, PlacedOpensLaw, SameJournalLaw, SameLeftLaw, SameOpeningLaw};

/// What may be left before a write may be left while it is under way.
pub fn pending_write_leaves_all()
    ensures direct { DirectPendingLaw }
    ensures placed { PlacedPendingLaw }
    ensures journal { JournalPendingLaw }
    ensures bitmap { BitmapPendingLaw }
{}

/// The first sync of an opening leaves one of the images that the disk had at entry, with the cells that reads give.
/// A cut before it leaves an image at entry, and any later one those cells.
pub fn first_sync_settles()
    ensures sync { FirstSyncLaw }
    ensures left { OpeningLeftLaw }
    ensures placed { PlacedSyncLaw }
    ensures placed_left { PlacedOpeningLeftLaw }
{}

/// What a cut leaves by the format that was opened may be left of the device, by the superblock of what is left.
pub fn cut_is_left_of_the_device()
    ensures journal { JournalKindLaw }
    ensures bitmap { BitmapKindLaw }
    ensures direct { DirectKindLaw }
    ensures placed { PlacedKindLaw }
{}

/// Where a journal has nothing to replay, the placed cells of an image are its cells.
/// An image that can be read can be opened then, in the same state.
/// What may be left with its placed cells may be left in direct mode.
pub fn placed_cells_are_cells()
    ensures cells { PlacedCellsLaw }
    ensures opens { PlacedOpensLaw }
    ensures left { PlacedLeftLaw }
    ensures same { SameJournalLaw }
    ensures opening { SameOpeningLaw }
    ensures same_left { SameLeftLaw }
{}

/// An image is read in the format that its first sector tells.
pub fn format_is_told()
    ensures { ReadFormatLaw }
{}
