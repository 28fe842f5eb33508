//! Definitions and laws: what a disk in journal mode stands for, at every cut and after each step.
//!
//! `specs/JournaledDisk.antt` is the file to read first: `StandsFor` says which candidates of a sector are right, and
//! `IsCutOf` what an image then gives. A commit, a placed entry, a settle and an erasure each keep it.
#![tactic(auto)]

ghost use Rattle.journal_model.specs.Batch.{BatchLaw};
ghost use Rattle.journal_model.specs.Cuts.{AllNewLaw, CommitCutLaw, NoneNewLaw};
ghost use Rattle.journal_model.specs.Erasing.{ErasureBegins, ErasureCut, ErasureEnds, ErasureGoesOn, ErasureTurns};
ghost use Rattle.journal_model.specs.HistoryOf.{HistoryBegins, HistoryCommitted, HistoryFlushed, HistoryPlaced, HistoryPut, LeftLaw};
ghost use Rattle.journal_model.specs.KeepsLaws.{KeepsBack, KeepsCommitted, KeepsPlaced, KeepsSettled, KeepsTagSectors, PlacedReadLaw};
ghost use Rattle.journal_model.specs.Opening.{BaseCellsLaw, FirstSyncLaw, OpenedCellsLaw, OpenedLaw, RebasedLaw, RecoveredLaw, RestNewestLaw, StateLaw};
ghost use Rattle.journal_model.specs.Ring.{FreeSectionLaw, RingLaw};
ghost use Rattle.journal_model.specs.StepLaws.{CommittedLaw, CommittingLaw, KeptEntriesLaw, KeptLaw, PlacingLaw, RoomLaw, SettledLaw, StandingLaw, TagsWrittenLaw, WritingBackLaw};

/// At any cut of a commit the walk is a suffix of the ring, and then the first sections of the batch.
pub fn commit_is_cut()
    ensures cut { CommitCutLaw }
    ensures none_new { NoneNewLaw }
    ensures all_new { AllNewLaw }
{}

/// Each image of a disk, and of one in a commit, can be opened and has the cells after all committed
/// entries and the first of those that were being committed.
pub fn cuts_leave_a_prefix()
    ensures standing { StandingLaw }
    ensures committing { CommittingLaw }
{}

/// A commit that is done, placing, writing back and settling keep what a disk stands for.
pub fn steps_are_kept()
    ensures committed { CommittedLaw }
    ensures placing { PlacingLaw }
    ensures tags_written { TagsWrittenLaw }
    ensures writing_back { WritingBackLaw }
    ensures settled { SettledLaw }
{}

/// An erasure whose parts are each synced leaves the same cells at every cut, and the journal at rest.
pub fn erasure_keeps_cells()
    ensures begins { ErasureBegins }
    ensures goes_on { ErasureGoesOn }
    ensures turns { ErasureTurns }
    ensures ends { ErasureEnds }
    ensures cut { ErasureCut }
{}

/// What a cut leaves may be left of the device, by its history.
pub fn cut_is_a_history()
    ensures left { LeftLaw }
    ensures begins { HistoryBegins }
    ensures put { HistoryPut }
    ensures committed { HistoryCommitted }
    ensures flushed { HistoryFlushed }
    ensures placed { HistoryPlaced }
{}

/// A disk that is opened stands for its replayed entries, over what is placed; once they are settled it stands for the
/// cells after them; and the state that a scan tells says which numbers are on its journal.
pub fn opening_is_told()
    ensures opened { OpenedLaw }
    ensures opened_cells { OpenedCellsLaw }
    ensures base_cells { BaseCellsLaw }
    ensures first_sync { FirstSyncLaw }
    ensures rebased { RebasedLaw }
    ensures recovered { RecoveredLaw }
    ensures state { StateLaw }
    ensures newest { RestNewestLaw }
{}

/// A batch that does not reach the sections that are kept takes the place of settled entries alone, and is kept then.
pub fn free_sections_have_room()
    ensures room { RoomLaw }
    ensures kept { KeptLaw }
    ensures entries { KeptEntriesLaw }
{}

/// The numbers and the entries of a batch are those of its sections.
pub fn batch_is_sections()
    ensures { BatchLaw }
{}

/// The opened sections of a ring are a batch of its disk, and after a commit it is the ring of the disk then. It
/// has room where a section is free.
pub fn ring_goes_on()
    ensures committed { RingLaw }
    ensures room { FreeSectionLaw }
{}

/// After each step reads give of the data and the tags what the disk then stands for.
pub fn steps_read_right()
    ensures committed { KeepsCommitted }
    ensures tag_sectors { KeepsTagSectors }
    ensures placed { KeepsPlaced }
    ensures back { KeepsBack }
    ensures settled { KeepsSettled }
    ensures read { PlacedReadLaw }
{}
