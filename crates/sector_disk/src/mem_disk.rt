//! A disk in memory, which keeps a record of its sector writes and syncs.
//!
//! The bytes that reads give stand beside the record, so a read is a look-up and a copy. All memory is taken
//! when the disk is made.
ghost use Rattle.std.specs.Prelude.{◌≡◌, ◌⊎◌, ◌+◌, ◌-◌, ◌*◌, ◌/◌, ◌^◌, ◌<◌, ◌≤◌, ◌↔◌, ℕ, List, [], length, replicate, IfOk, IsOk, OnOk, OnErr, IsErr, IsTrue, min, vec_capacity, Some, None};
ghost use Rattle.disk_model.specs.Causes.{HasCause};
ghost use Rattle.disk_model.specs.Disk.{Content, IsRun, Reads, AddsSome, with_run, newest_only};
ghost use Rattle.disk_model.specs.Moments.{EachSince, HasNow, IsChangedBy};
ghost use Rattle.sector_disk.specs.Faults.{FailsNext, with_call, with_fault};
ghost use Rattle.sector_disk.specs.Record.{AreWholeEvents, IsLatest};

use crate::candidates::{copy_choice, has_each};
use crate::latest::{read_latest, write_latest};
use crate::record::{Event, append_writes};
use crate::stop::{count_writes_left, is_at_stop, stop_after_writes};
use crate::{Counted, Disk, Failed, FaultPlan, MOST_FAILING, Memory, Named};
use disk_model::SECTOR_SIZE;
use std::alloc::Global;

/// A disk in memory, of sectors that are zeros at first.
///
/// Its sectors are written in ascending order, and its record tells each moment: one more with each sector
/// write and each sync. Calls of `read_run`, `write_run` and `sync` can be set to fail.
#[derive(Drop)]
pub struct MemDisk {
    sectors: u64,
    base: Vec<u8>,
    latest: Vec<u8>,
    events: Vec<Event>,
    room: usize,
    stop: Option<u64>,
    plan: FaultPlan,
    // How often it was read.
    reads: u64,
    ghost base_size: { length base.items ≡ 512 * sectors },
    ghost latest_size: { length latest.items ≡ 512 * sectors },
    ghost has_room: { room ≤ vec_capacity events },
    ghost whole_events: { AreWholeEvents events.items },
    ghost is_latest: { IsLatest sectors latest.items base.items events.items },
}

impl MemDisk {
    ghost use Rattle.sector_disk.specs.MemDisk.{record_of, fresh_disk, HasChoice, IsChosen};

    /// Makes a disk of so many sectors of zeros, with room to record `writes` sector writes and syncs together.
    ///
    /// # Errors
    ///
    /// - `Memory`: there is none for these.
    pub fn new(alloc: Global, sectors: u64, writes: u64) -> Result<MemDisk, Memory>
        ensures { IfOk result (λ disk.
            record_of disk ≡ fresh_disk sectors (replicate (512 * sectors) 0) writes) }
    {
        let Some(size) = sectors.checked_mul(SECTOR_SIZE as u64) else {
            return Err(Memory);
        };
        let base = vec![in alloc; 0; size as usize]?;
        let latest = vec![in alloc; 0; size as usize]?;
        let room = writes as usize;
        let events = Vec::with_capacity(alloc, room)?;
        Ok(MemDisk {
            sectors,
            base,
            latest,
            events,
            room,
            stop: None,
            plan: FaultPlan::new(),
            reads: 0,
        })
    }

    /// Whether each sector has a candidate at the chosen index: the condition of `image`.
    pub fn has(&self, choice: &[u32]) -> bool
        ensures { IsTrue result ↔ HasChoice (record_of self.now) choice.now }
    {
        choice.len() as u64 == self.sectors && has_each(&self.base, &self.events, choice)
    }

    /// Makes the disk of one image: of each sector the candidate at the chosen index, the oldest first. It has
    /// the same room, and no call of it is to fail.
    ///
    /// # Errors
    ///
    /// - `Memory`: there is none for it.
    pub fn image(&self, alloc: Global, choice: &[u32]) -> Result<MemDisk, Memory>
        requires { HasChoice (record_of self.now) choice.now }

        ensures { IfOk result (λ disk. IsChosen (record_of self.now) choice.now (record_of disk)) }
    {
        let mut base = vec![in alloc; 0; self.base.len()]?;
        copy_choice(&self.base, &self.events, choice, &mut base);
        let latest = base.clone()?;
        let events = Vec::with_capacity(alloc, self.room)?;
        Ok(MemDisk {
            sectors: self.sectors,
            base,
            latest,
            events,
            room: self.room,
            stop: None,
            plan: FaultPlan::new(),
            reads: 0,
        })
    }

    /// Sets which calls of `read_run`, `write_run` and `sync` are to fail, in place of those that were set
    /// before. Calls are numbered from 1, since the disk was made, failed ones included.
    pub fn fail_at(&mut self, calls: &[u64])
        requires { length calls.now ≤ MOST_FAILING }

        ensures planned { record_of self.new ≡ record (record_of self.old) {
          plan = record (record_of self.old).plan { failing = record { items = calls.now } };
        } }
        ensures unread { self.new.reads ≡ self.old.reads }
    {
        self.plan.fail_at(calls);
    }

    /// Sets a stop after so many further sector writes. From the stop on every call fails, with 0 at once.
    pub fn stop_after(&mut self, writes: u64)
        ensures set { record_of self.new ≡ record (record_of self.old) { stop = Some writes } }
        ensures unread { self.new.reads ≡ self.old.reads }
    {
        self.stop = Some(writes);
    }
}

impl Counted for MemDisk {
    ghost use Rattle.sector_disk.specs.MemDisk.{record_of};

    ghost faults = { λ d. (record_of d).plan.faults };
}

impl Named for MemDisk {
    ghost use Rattle.disk_model.specs.Identity.{AnyName};
    ghost use Rattle.sector_disk.specs.MemDisk.{record_of, DiffersInFaults};

    ghost binding = { λ d. AnyName };

    ghost tells_same = { λ name a b. DiffersInFaults (record_of a) (record_of b) };

    fn bind(&mut self, _name: &str) -> Result<(), Failed>
        ensures ok { IsOk result }

        ensures cause { HasCause (record_of self.old).plan.faults (record_of self.new).plan.faults result }

        ensures same { DiffersInFaults (record_of self.old) (record_of self.new) }
        ensures kept { record_of self.new ≡ record_of self.old }
    {
        Ok(())
    }
}

impl Disk for MemDisk {
    ghost use Rattle.sector_disk.specs.MemDisk.{record_of, moments_told, named_by, IsRefused};
    ghost use Rattle.sector_disk.specs.Faults.{one_more};
    ghost use Rattle.sector_disk.specs.MemDisk.{sectors_left, after_call, with_writes, with_sync};
    ghost use Rattle.sector_disk.specs.ReadsAnImage.{candidates_are_whole, last_image_is_image};
    ghost use Rattle.disk_model.specs.Identity.{AnyName, NamedDisk};
    ghost use Rattle.std.proofs.Common.{ap, refl};

    ghost identity = { λ d. record { name = AnyName; sectors = (record_of d).sectors } };

    ghost moments = { λ d. moments_told (record_of d) };

    ghost reads = { λ d. d.reads };

    ghost named = { λ d name. named_by (record_of d) };

    ghost reads_an_image = { λ d c told. last_image_is_image d.base.items d.events.items c told };

    ghost whole_sectors = { λ d c sector x told low has.
        candidates_are_whole d.sectors d.base.items d.events.items c
        sector x d.base_size d.whole_events told low has };

    ghost identity_name = { λ d. refl };

    ghost named_if_bound = { λ d name bound. refl };

    ghost same_named = { λ name a b c same told. ap named_by same };

    fn sectors(&self) -> u64 {
        self.sectors
    }

    fn read_run(&mut self, at: u64, buffer: &mut [u8]) -> Result<(), Failed>
        requires { IsRun at (length buffer.old) (record_of self.old).sectors }

        ensures read { OnOk result (HasNow (Reads at buffer.new) (moments_told (record_of self.old))) }

        ensures fails { IsErr result ↔ IsRefused (record_of self.old) }
        ensures cause { HasCause (record_of self.old).plan.faults (record_of self.new).plan.faults result }

        ensures identity { (record_of self.new).sectors ≡ (record_of self.old).sectors }
        ensures kept { moments_told (record_of self.new) ≡ moments_told (record_of self.old) }
        ensures counted { self.new.reads ≡ one_more self.old.reads }
        ensures recorded { record_of self.new ≡ after_call result (record_of self.old) }
    {
        self.reads = self.reads.saturating_add(1);
        begin(&mut self.plan, self.stop)?;
        read_latest(&self.latest, at, buffer);
        Ok(())
    }

    fn write_run(&mut self, at: u64, bytes: &[u8]) -> Result<(), Failed>
        requires { IsRun at (length bytes.now) (record_of self.old).sectors }

        ensures written { OnOk result (IsChangedBy (with_run at bytes.now)
            (moments_told (record_of self.old)) (moments_told (record_of self.new))) }

        ensures fails { IsErr result ↔ (IsRefused (record_of self.old)
            ⊎ (sectors_left (record_of self.old) < length bytes.now / 512)) }
        ensures cause { HasCause (record_of self.old).plan.faults (record_of self.new).plan.faults result }
        ensures refused { IsRefused (record_of self.old)
            → record_of self.new ≡ after_call result (record_of self.old) }
        ensures appended { ¬ IsRefused (record_of self.old)
            → record_of self.new
            ≡ with_writes (min (length bytes.now / 512) (sectors_left (record_of self.old)))
            at bytes.now (after_call result (record_of self.old)) }

        ensures identity { (record_of self.new).sectors ≡ (record_of self.old).sectors }
        ensures unread { self.new.reads ≡ self.old.reads }

        ensures moments { EachSince (AddsSome at bytes.now)
            (moments_told (record_of self.old)) (moments_told (record_of self.new)) }
    {
        begin(&mut self.plan, self.stop)?;
        let left = count_writes_left(self.room.saturating_sub(self.events.len()), self.stop);
        let count = left.min((bytes.len() / SECTOR_SIZE) as u64);
        append_writes(&mut self.events, at, bytes, count as usize);
        self.stop = stop_after_writes(self.stop, count);
        let size = SECTOR_SIZE * count as usize;
        write_latest(&mut self.latest, at, &bytes[..size]);
        if size < bytes.len() {
            return Err(self.plan.fault());
        }
        Ok(())
    }

    fn sync(&mut self) -> Result<(), Failed>
        ensures synced { OnOk result (IsChangedBy newest_only
            (moments_told (record_of self.old)) (moments_told (record_of self.new))) }
        ensures ok { OnOk result (record_of self.new ≡ with_sync (after_call result (record_of self.old))) }

        ensures fails { IsErr result ↔ (IsRefused (record_of self.old)
            ⊎ ((record_of self.old).room ≤ length (record_of self.old).events)) }
        ensures cause { HasCause (record_of self.old).plan.faults (record_of self.new).plan.faults result }
        ensures err { OnErr result (moments_told (record_of self.new) ≡ moments_told (record_of self.old)) }
        ensures failed { OnErr result (record_of self.new ≡ after_call result (record_of self.old)) }

        ensures identity { (record_of self.new).sectors ≡ (record_of self.old).sectors }
        ensures unread { self.new.reads ≡ self.old.reads }

        ensures moments { EachSince (λ start c. c ≡ newest_only start)
            (moments_told (record_of self.old)) (moments_told (record_of self.new)) }
    {
        begin(&mut self.plan, self.stop)?;
        if self.events.len() >= self.room {
            return Err(self.plan.fault());
        }
        self.events.push_reserved(Event::Sync);
        Ok(())
    }
}

/// Counts a call, which fails where it was chosen to, and from the stop on.
fn begin(plan: &mut FaultPlan, stop: Option<u64>) -> Result<(), Failed>
    ensures ok { OnOk result (plan.new ≡ with_call plan.old) }

    ensures fails { IsErr result ↔ (FailsNext plan.old ⊎ stop ≡ Some 0) }
    ensures cause { HasCause plan.old.faults plan.new.faults result }
    ensures err { OnErr result (plan.new ≡ with_fault (with_call plan.old)) }
{
    plan.begin()?;
    if is_at_stop(stop) {
        return Err(plan.fault());
    }
    Ok(())
}
