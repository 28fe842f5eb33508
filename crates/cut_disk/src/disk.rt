//! The disk, and what was asked of it. It tells nothing of its content.
ghost use Rattle.std.specs.Prelude.{⊤, []};
ghost use Rattle.std.proofs.Common.{refl};
ghost use Rattle.std.proofs.lemmas.Option.{none-some};
ghost use Rattle.disk_model.specs.Causes.{HasCause};
ghost use Rattle.disk_model.specs.Identity.{AnyName};

use crate::kept::{Kept, read_sectors};
use case_text::Fails;
use sector_disk::{Counted, Disk, Failed, FaultPlan, Named};
use std::alloc::{AllocError, Global};

/// What was asked of a disk.
#[derive(Clone, Copy)]
pub struct Seen {
    /// How many sectors were written by calls that succeeded.
    pub writes: u64,
    /// How many syncs succeeded.
    pub syncs: u64,
    /// How many calls failed.
    pub failed: u64,
    /// Whether no write was begun since the last sync.
    is_settled: bool,
}

impl Seen {
    /// Nothing was asked.
    const NOTHING: Seen = Seen {
        writes: 0,
        syncs: 0,
        failed: 0,
        is_settled: false,
    };

    /// Takes note of a write of so many sectors.
    fn note_write(&mut self, count: u64, done: bool) {
        self.is_settled = false;
        if done {
            self.writes = self.writes.saturating_add(count);
        }
        self.note(done);
    }

    /// Takes note of a sync.
    fn note_sync(&mut self, done: bool) {
        if done {
            self.syncs = self.syncs.saturating_add(1);
            self.is_settled = true;
        }
        self.note(done);
    }

    /// Takes note of a call.
    fn note(&mut self, done: bool) {
        if !done {
            self.failed = self.failed.saturating_add(1);
        }
    }
}

/// A disk in memory. Its sectors are written in ascending order.
#[derive(Drop)]
pub struct CutDisk {
    sectors: u64,
    kept: Kept,
    plan: FaultPlan,
    // How often it was read.
    reads: u64,
    /// How many more sectors are written until it stops, if it is to stop.
    stop: Option<u64>,
    /// The sector whose reads all fail, if there is one.
    unreadable: Option<u64>,
    /// Whether a sync that would change nothing is no call that can fail. It is counted all the same.
    skips_syncs: bool,
    pub seen: Seen,
}

impl CutDisk {
    /// A disk with a copy of these bytes, of whole sectors. No call of it is to fail.
    pub fn new(alloc: Global, bytes: &[u8]) -> Result<CutDisk, AllocError> {
        Ok(CutDisk {
            sectors: bytes.len() as u64 / 512,
            kept: Kept::new(alloc, bytes)?,
            plan: FaultPlan::new(),
            reads: 0,
            stop: None,
            unreadable: None,
            skips_syncs: false,
            seen: Seen::NOTHING,
        })
    }

    /// From now on the disk fails so, and what is asked of it is counted anew. The number of a call that fails counts
    /// those before too.
    pub fn watch(&mut self, fails: Fails) {
        self.skips_syncs = fails.disk.is_none() && fails.stop.is_none();
        self.stop = fails.stop;
        self.unreadable = fails.unreadable;
        if let Some(call) = fails.disk {
            self.plan.fail_at(&[call]);
        }
        self.seen = Seen::NOTHING;
    }

    /// All bytes, as reads give them.
    pub fn bytes(&self) -> &[u8] {
        &self.kept.bytes
    }

    /// Of each sector the number of its last candidate, the first one being 0.
    pub fn last(&self) -> &[u32] {
        &self.kept.added
    }

    /// The bytes of the image with these candidates. None where there was no memory to keep one.
    pub fn image(&self, alloc: Global, chosen: &[u32]) -> Result<Option<Vec<u8>>, AllocError> {
        self.kept.image(alloc, chosen)
    }
}

/// Counts a call, which fails where it was chosen to, and from the stop on.
fn begin_call(plan: &mut FaultPlan, stop: Option<u64>) -> Result<(), Failed>
    ensures cause { HasCause plan.old.faults plan.new.faults result }
{
    plan.begin()?;
    match stop {
        Some(0) => Err(plan.fault()),
        _ => Ok(()),
    }
}

/// Counts a read of so many sectors, which fails too where one of them cannot be read.
fn begin_read(
    plan: &mut FaultPlan,
    stop: Option<u64>,
    unreadable: Option<u64>,
    at: u64,
    count: u64,
) -> Result<(), Failed>
    ensures cause { HasCause plan.old.faults plan.new.faults result }
{
    begin_call(plan, stop)?;
    match unreadable {
        Some(sector) if at <= sector && sector - at < count => Err(plan.fault()),
        _ => Ok(()),
    }
}

/// Counts a write of so many sectors, and tells how many are written: all, where it does not fail.
fn begin_write(
    plan: &mut FaultPlan,
    stop: &mut Option<u64>,
    count: u64,
    written: &mut u64,
) -> Result<(), Failed>
    ensures cause { HasCause plan.old.faults plan.new.faults result }
{
    *written = 0;
    begin_call(plan, *stop)?;
    let Some(left) = *stop else {
        *written = count;
        return Ok(());
    };
    *written = left.min(count);
    *stop = Some(left.saturating_sub(count));
    if left < count {
        return Err(plan.fault());
    }
    Ok(())
}

impl Counted for CutDisk {
    ghost faults = { λ d. d.plan.faults };
}

impl Named for CutDisk {
    ghost binding = { λ d. AnyName };

    ghost tells_same = { λ name a b. ⊤ };

    fn bind(&mut self, _name: &str) -> Result<(), Failed> {
        Ok(())
    }
}

impl Disk for CutDisk {
    ghost identity = { λ d. record { name = AnyName; sectors = d.sectors } };

    ghost moments = { λ d. [] };

    ghost reads = { λ d. d.reads };

    ghost named = { λ d name. record { sectors = d.sectors; moments = [] } };

    fn sectors(&self) -> u64 {
        self.sectors
    }

    fn read_run(&mut self, at: u64, buffer: &mut [u8]) -> Result<(), Failed> {
        self.reads = self.reads.saturating_add(1);
        let count = buffer.len() as u64 / 512;
        let answer = begin_read(&mut self.plan, self.stop, self.unreadable, at, count);
        self.seen.note(answer.is_ok());
        if answer.is_ok() {
            read_sectors(&self.kept.bytes, at, buffer);
        }
        answer
    }

    fn write_run(&mut self, at: u64, bytes: &[u8]) -> Result<(), Failed> {
        let count = bytes.len() as u64 / 512;
        let mut written = 0;
        let answer = begin_write(&mut self.plan, &mut self.stop, count, &mut written);
        self.seen.note_write(count, answer.is_ok());
        self.kept.write(at, bytes, written);
        answer
    }

    fn sync(&mut self) -> Result<(), Failed> {
        if self.skips_syncs && self.seen.is_settled {
            self.seen.note_sync(true);
            return Ok(());
        }
        let answer = begin_call(&mut self.plan, self.stop);
        self.seen.note_sync(answer.is_ok());
        if answer.is_ok() {
            self.kept.settle();
        }
        answer
    }

    ghost reads_an_image = { λ disk c told. absurd (none-some c told) };

    ghost whole_sectors = { λ disk c sector x told low has. absurd (none-some c told) };

    ghost identity_name = { λ disk. refl };

    ghost named_if_bound = { λ disk name bound. refl };

    ghost same_named = { λ name a b c same told. absurd (none-some c told) };
}
