//! Laws: a device in journal mode, by its history and its counts, over what its disk stands for; and what joins the
//! modes.
//!
//! `specs/Device.antt` is the file to read first: `IsJournalDevice` ties the two, and each law says what a step keeps
//! of it.
#![tactic(auto)]

ghost use Rattle.journal_laws.specs.CountLaws.{CommitLaw, CommitsLaw, FlushLaw, FlushWriteLaw, HasRoomLaw, IdleCommitLaw, IdlePlaceLaw, IdleSettleLaw, PlaceLaw, PutLaw, SealedLaw, SettleLaw, TwoCommitsLaw};
ghost use Rattle.journal_laws.specs.Emptied.{EmptiedLaw, ErasedLaw};
ghost use Rattle.journal_laws.specs.EventLaws.{CloseLaw, FailedLeftLaw, FailedServeLaw, IdleLaw, NoRoomLaw, QuietEventsLaw, QuietLaw, ServeFlushLaw, ServeFlushedLaw, ServeReadLaw, ServeWriteLaw, StepCommitLaw, StepPlaceLaw, StepSettleLaw};
ghost use Rattle.journal_laws.specs.OpeningLaws.{NextLaw, OpeningLaw, RecoveredLaw};
ghost use Rattle.journal_laws.specs.OverlayLaws.{OverlayBegins, OverlayCommitted, OverlayPut, OverlayReadLaw, OverlaySettled, PlaceNumberLaw};
ghost use Rattle.journal_laws.specs.PromiseLaws.{CommittingLeftLaw, IsJournaledLaw, JournaledReadLaw, NewestPlaceLaw, PlacedReadLaw, PlacingLeftLaw, SettlingLeftLaw, StandingLeftLaw};
ghost use Rattle.journal_laws.specs.RegionLaws.{AwaitingLaw, CleanLaw, RecalculateLaw, RegionsBegin, RegionsFlushed, RegionsRecalculated, RegionsWritten};

/// The bytes of a sealed section that hold entries are that section of a batch.
pub fn sealed_is_section()
    ensures { SealedLaw }
{}

/// A write of a block is put where the ring has room: into the open section, or into the next one.
pub fn write_is_put()
    ensures room { HasRoomLaw }
    ensures put { PutLaw }
{}

/// A commit writes the opened sections, up to the journal's end, and is idle where there is none.
pub fn batch_is_committed()
    ensures idle { IdleCommitLaw }
    ensures committed { CommitLaw }
    ensures twice { TwoCommitsLaw }
{}

/// Once no section is opened all is flushed, and the counts are those of a flush.
pub fn commits_flush()
    ensures flushed { FlushLaw }
    ensures written { FlushWriteLaw }
    ensures counts { CommitsLaw }
{}

/// A place writes the next entry, and is idle where all are placed.
pub fn entry_is_placed()
    ensures placed { PlaceLaw }
    ensures idle { IdlePlaceLaw }
{}

/// A settle frees the sections whose entries are all placed.
pub fn sections_are_freed()
    ensures settled { SettleLaw }
    ensures idle { IdleSettleLaw }
{}

/// A device opens on a disk at rest whose entries are settled and change no cell.
pub fn device_opens()
    ensures opened { OpeningLaw }
    ensures recovered { RecoveredLaw }
    ensures next { NextLaw }
{}

/// Each image, also inside a commit, can be opened and has cells that may be left of the device.
pub fn cut_is_left()
    ensures standing { StandingLeftLaw }
    ensures committing { CommittingLeftLaw }
    ensures placing { PlacingLeftLaw }
    ensures settling { SettlingLeftLaw }
{}

/// A block holds its newest entry that is in no free section, and else what is placed.
pub fn read_is_newest()
    ensures place { NewestPlaceLaw }
    ensures is_journaled { IsJournaledLaw }
    ensures journaled { JournaledReadLaw }
    ensures placed { PlacedReadLaw }
{}

/// A serve of a write puts its next block where the ring has room, and commits all where that is to be flushed.
pub fn write_is_served()
    ensures no_room { NoRoomLaw }
    ensures put { ServeWriteLaw }
    ensures flushed { ServeFlushedLaw }
{}

/// A serve of a flush commits all, and one of a read changes nothing.
pub fn others_are_served()
    ensures flush { ServeFlushLaw }
    ensures read { ServeReadLaw }
{}

/// The journal's actors commit, place and settle, and are idle as the ring and the disk say.
pub fn actors_step()
    ensures commit { StepCommitLaw }
    ensures place { StepPlaceLaw }
    ensures settle { StepSettleLaw }
    ensures idle { IdleLaw }
{}

/// All other events change nothing of the journal, and a close has all flushed.
pub fn others_are_quiet()
    ensures quiet { QuietLaw }
    ensures events { QuietEventsLaw }
    ensures close { CloseLaw }
{}

/// A serve in which a disk fails leaves its write under way, and what was left before it may be left then.
pub fn failures_leave_a_write()
    ensures serve { FailedServeLaw }
    ensures left { FailedLeftLaw }
{}

/// The overlay tells the newest entry of each block that is in no free section, through every step.
pub fn overlay_is_kept()
    ensures begins { OverlayBegins }
    ensures put { OverlayPut }
    ensures committed { OverlayCommitted }
    ensures settled { OverlaySettled }
    ensures read { OverlayReadLaw }
    ensures number { PlaceNumberLaw }
{}

/// A disk whose journal has no entry left is one in direct mode, with the same cells.
pub fn journal_is_emptied()
    ensures emptied { EmptiedLaw }
    ensures erased { ErasedLaw }
{}

/// The counts of the regions are those of the disk, at opening and through every step.
pub fn regions_are_counted()
    ensures begin { RegionsBegin }
    ensures written { RegionsWritten }
    ensures flushed { RegionsFlushed }
    ensures recalculated { RegionsRecalculated }
    ensures recalculate { RecalculateLaw }
    ensures clean { CleanLaw }
    ensures awaiting { AwaitingLaw }
{}
