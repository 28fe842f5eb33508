//! Laws: a device in direct mode, by its requests, over what its disk stands for.
//!
//! `specs/Device.antt` is the file to read first: `IsDirectDevice` ties the two, and each law says what a step
//! keeps of it.
#![tactic(auto)]

ghost use Rattle.direct_laws.specs.CallLaws.{BackDoneLaw, BackLaw, BlockReadLaw, DataDoneLaw, DataLaw, PutDoneLaw, PutLaw, StillLaw, SyncDoneLaw, SyncLaw, ThroughLaw};
ghost use Rattle.direct_laws.specs.Device.{BeginningLaw, MovedDeviceLaw, OpeningLaw, PlacedOpeningLaw};
ghost use Rattle.direct_laws.specs.EventLaws.{CloseLaw, EventLaw, FailedWriteLaw, HeldLaw, IdleLaw, QuietEventsLaw, QuietLaw, RecalcIdleLaw, RecalcLaw, ServeFlushLaw, ServeReadLaw, ServeWriteLaw, ServedLaw, UnservedLaw};
ghost use Rattle.direct_laws.specs.MomentLaws.{FailedNowLaw, KeptThroughLaw, LeftNowLaw, OpeningDoneLaw, OpeningSyncLaw, WrittenThroughLaw};
ghost use Rattle.direct_laws.specs.PlacedLaws.{BackPlacedLaw, FailedPlacedLaw, FlushedPlacedLaw, KindPlacedLaw, MovingPlacedLaw, RecalculatingPlacedLaw, ReopensPlacedLaw, StandingPlacedLaw, WithinPlacedLaw, WritingPlacedLaw};
ghost use Rattle.direct_laws.specs.PromiseLaws.{BackLeftLaw, FailedLeftLaw, FlushedLeftLaw, KindLeftLaw, MovingLeftLaw, PlacedIsLeftLaw, RecalculatingLeftLaw, ReopensLaw, StandingLeftLaw, WithinLaw, WritingLeftLaw};
ghost use Rattle.direct_laws.specs.ReadLaws.{KeepsBack, KeepsBegun, KeepsFlushed, KeepsMoved, KeepsOpened, KeepsPlaced, KeepsRecalculated, KeepsSame, KeepsSynced, KeepsWrite, ReadLaw};
ghost use Rattle.direct_laws.specs.ServeLaws.{AllFlushedLaw, BlockWrittenLaw, FailedBlockLaw, FailedFlushLaw, FailedReadLaw, PutFailedLaw, ServedBlockLaw, ServedCloseLaw, ServedFlushLaw, ServedKeptLaw, SyncFailedLaw, TagsKeptLaw};

/// A device opens on a disk without a write, so on an image without a bitmap; its position of recalculation may move.
pub fn device_opens()
    ensures begins { BeginningLaw }
    ensures placed { PlacedOpeningLaw }
    ensures opened { OpeningLaw }
    ensures moved { MovedDeviceLaw }
{}

/// After each event the disk is the one after its changes: the same one, where there are none.
pub fn events_are_kept()
    ensures changes { EventLaw }
    ensures none { QuietLaw }
    ensures quiet { QuietEventsLaw }
{}

/// A serve reads or writes one block, or flushes, and does nothing of a request that is held, or done.
pub fn requests_are_served()
    ensures unserved { UnservedLaw }
    ensures held { HeldLaw }
    ensures served { ServedLaw }
    ensures read { ServeReadLaw }
    ensures write { ServeWriteLaw }
    ensures flush { ServeFlushLaw }
    ensures close { CloseLaw }
{}

/// No actor has anything to do but the one that recalculates, and that one only where a region awaits.
pub fn actors_step()
    ensures others { IdleLaw }
    ensures none { RecalcIdleLaw }
    ensures recalc { RecalcLaw }
{}

/// A serve in which a disk fails leaves its write under way, and what was left before it may be left then.
pub fn failures_leave_a_write()
    ensures write { FailedWriteLaw }
    ensures placed { FailedPlacedLaw }
    ensures left { FailedLeftLaw }
{}

/// What reads give of a block, data and tag, is its cell by the history, so its reply.
pub fn reads_give_the_reply()
    ensures reply { ReadLaw }
    ensures block { BlockReadLaw }
{}

/// Reads give what the disk says after an opening, and after each step that writes or syncs.
pub fn cells_are_kept()
    ensures begins { KeepsBegun }
    ensures placed { KeepsPlaced }
    ensures opened { KeepsOpened }
    ensures write { KeepsWrite }
    ensures synced { KeepsSynced }
    ensures back { KeepsBack }
    ensures flushed { KeepsFlushed }
    ensures same { KeepsSame }
    ensures recalculated { KeepsRecalculated }
    ensures moved { KeepsMoved }
{}

/// Each image, also within a call, can be read and has placed cells that may be left of the device,
/// whatever the journal says.
pub fn placed_cut_is_left()
    ensures standing { StandingPlacedLaw }
    ensures reopens { ReopensPlacedLaw }
    ensures all { FlushedPlacedLaw }
    ensures kind { KindPlacedLaw }
    ensures within { WithinPlacedLaw }
    ensures writing { WritingPlacedLaw }
    ensures back { BackPlacedLaw }
    ensures recalculating { RecalculatingPlacedLaw }
    ensures moving { MovingPlacedLaw }
{}

/// Where the journal has nothing to replay each image, also within a call, can be opened and has cells that may be
/// left of the device.
pub fn cut_is_left()
    ensures placed { PlacedIsLeftLaw }
    ensures standing { StandingLeftLaw }
    ensures reopens { ReopensLaw }
    ensures all { FlushedLeftLaw }
    ensures kind { KindLeftLaw }
    ensures within { WithinLaw }
    ensures writing { WritingLeftLaw }
    ensures back { BackLeftLaw }
    ensures recalculating { RecalculatingLeftLaw }
    ensures moving { MovingLeftLaw }
{}

/// At each moment of a call below, the disk stands for what was there, or for that with the block that is written.
pub fn calls_stand()
    ensures still { StillLaw }
    ensures through { ThroughLaw }
    ensures data_ { DataLaw }
    ensures data_done { DataDoneLaw }
    ensures put { PutLaw }
    ensures put_done { PutDoneLaw }
    ensures back { BackLaw }
    ensures back_done { BackDoneLaw }
    ensures sync { SyncLaw }
    ensures sync_done { SyncDoneLaw }
{}

/// A block is written by its bytes and then its tag; all is flushed by tags that are written back and a sync.
pub fn work_is_done()
    ensures written { BlockWrittenLaw }
    ensures put_failed { PutFailedLaw }
    ensures kept { TagsKeptLaw }
    ensures flushed { AllFlushedLaw }
    ensures sync_failed { SyncFailedLaw }
{}

/// At each moment of an opening and of each later call, each image can be opened and may be left of the device.
pub fn moments_are_left()
    ensures opening { OpeningSyncLaw }
    ensures opened { OpeningDoneLaw }
    ensures now { LeftNowLaw }
    ensures kept { KeptThroughLaw }
    ensures written { WrittenThroughLaw }
    ensures failed { FailedNowLaw }
{}

/// A serve, a close, and a call in which the disk fails keep the device, with its disk.
pub fn calls_keep_the_device()
    ensures block { ServedBlockLaw }
    ensures failed_block { FailedBlockLaw }
    ensures flush { ServedFlushLaw }
    ensures close { ServedCloseLaw }
    ensures kept { ServedKeptLaw }
    ensures failed_read { FailedReadLaw }
    ensures failed_flush { FailedFlushLaw }
{}
