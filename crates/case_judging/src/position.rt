//! The position of a recalculation without a bitmap: from which sector of the device on tags are to be made anew, and
//! where a cut of a run leaves it.
use crate::Wrong;
use crate::form::{FLAGS_AT, Form, SECTOR, form_of, number_in, put_at, run_at};
use crate::judging::{is_skipped, told_lines};
use crate::marks::read_by;
use std::alloc::{AllocError, Global};

/// The flag of an image whose tags are to be made anew from a sector of the device on.
///
/// Source: Linux, drivers/md/dm-integrity.c, `SB_FLAG_RECALCULATING`.
const IS_RECALCULATING: u64 = 2;

/// The byte of the version of a superblock, that of the blocks of a region, and where the position begins.
///
/// Source: Linux, drivers/md/dm-integrity.c, `struct superblock`.
const VERSION_AT: usize = 8;

const REGION_AT: usize = 29;

const POSITION_AT: usize = 32;

/// Which mode a script runs in, as far as that decides which reads recalculate.
#[derive(Clone, Copy, PartialEq)]
pub enum Reading {
    /// Each read of a block whose region awaits.
    All,
    /// Those of blocks that the journal does not hold.
    Placed,
}

/// From which sector of the device on the tags of an image are to be made anew, and by regions of so many blocks.
#[derive(Clone, Copy)]
pub struct Position {
    form: Form,
    log2_region: u64,
    /// None where no tag is to be made.
    sector: Option<u64>,
}

/// The position of an image of these bytes, if it has no bitmap.
pub fn position_of(bytes: &[u8]) -> Option<Position> {
    let form = form_of(bytes);
    if form.blocks == 0 {
        return None;
    }
    let is_set = number_in(bytes, FLAGS_AT, 4) & IS_RECALCULATING != 0;
    Some(Position {
        form,
        log2_region: number_in(bytes, REGION_AT, 1),
        sector: if is_set {
            Some(number_in(bytes, POSITION_AT, 8))
        } else {
            None
        },
    })
}

/// Whether the tags of an image of these bytes are to be made anew, and it has no bitmap.
pub fn is_recalculating(bytes: &[u8]) -> bool {
    match position_of(bytes) {
        Some(position) => position.sector.is_some(),
        None => false,
    }
}

/// The image of a form without that flag that reads as this one does: each block that awaits has the tag of its data.
/// No entry of a journal is looked at. The version is the highest, and the position 0, whatever they were.
pub fn with_tags_made(alloc: Global, form: &Form, image: &[u8]) -> Result<Vec<u8>, AllocError> {
    let mut bytes = Vec::from_slice(alloc, image)?;
    let Some(position) = position_of(image) else {
        return Ok(bytes);
    };
    let flags = number_in(image, FLAGS_AT, 4) & !IS_RECALCULATING;
    put_at(&mut bytes, FLAGS_AT, run_at(&flags.to_le_bytes(), 0, 4));
    put_at(&mut bytes, VERSION_AT, &[5]);
    put_at(&mut bytes, POSITION_AT, &[0; 8]);
    for block in 0..form.blocks {
        if position.awaits(block) {
            let digest = form.digest_of(block, form.data_of(image, block));
            form.put_tag(&mut bytes, block, form.tag_in(&digest));
        }
    }
    Ok(bytes)
}

impl Position {
    /// Whether the tag of a block is to be made.
    fn awaits(&self, block: u64) -> bool {
        let end = block.saturating_add(1).saturating_mul(self.form.spb);
        match self.sector {
            Some(sector) => sector < end,
            None => false,
        }
    }

    /// The region of a block.
    fn region_of(&self, block: u64) -> u64 {
        if self.log2_region >= 64 {
            return 0;
        }
        block >> self.log2_region
    }

    /// The first block of a region.
    fn first_of(&self, region: u64) -> u64 {
        if region == 0 || self.log2_region >= 64 {
            return 0;
        }
        region.saturating_mul(1 << self.log2_region)
    }

    /// Of each region whether it awaits.
    fn awaiting(&self, alloc: Global) -> Result<Vec<bool>, AllocError> {
        let mut regions = Vec::new(alloc);
        for block in 0..self.form.blocks {
            let region = self.region_of(block);
            if region >= regions.len() as u64 {
                regions.push(false)?;
            }
            if self.awaits(block)
                && let Some(awaits) = regions.last_mut()
            {
                *awaits = true;
            }
        }
        Ok(regions)
    }

    /// The position behind a step or a close, where these regions await: at the least of them that has a sector from
    /// the position on, but not before it; and none where there is no such region.
    fn moved(&self, awaiting: &[bool]) -> Position {
        let Some(sector) = self.sector else {
            return *self;
        };
        let mut moved = Position {
            sector: None,
            ..*self
        };
        for (region, awaits) in (0..self.form.blocks).zip(awaiting) {
            let end = self
                .first_of(region.saturating_add(1))
                .min(self.form.blocks)
                .saturating_mul(self.form.spb);
            if *awaits && sector < end {
                let first = self.first_of(region).saturating_mul(self.form.spb);
                moved.sector = Some(sector.max(first));
                break;
            }
        }
        moved
    }

    /// Whether a position is not before another one. None is behind all.
    fn is_behind(&self, other: &Position) -> bool {
        match (self.sector, other.sector) {
            (None, _) => true,
            (Some(_), None) => false,
            (Some(sector), Some(before)) => sector >= before,
        }
    }

    /// The first sector of an image with this position, where it was as in another one: it stays where position and
    /// flag do; else its version is at least that which its flags ask for, and the position of no tag is the device's
    /// end.
    ///
    /// Source: Linux, drivers/md/dm-integrity.c, `sb_set_version`.
    fn head_of(&self, alloc: Global, base: &[u8]) -> Result<Vec<u8>, AllocError> {
        let mut head = Vec::from_slice(alloc, run_at(base, 0, SECTOR))?;
        let before = number_in(base, POSITION_AT, 8);
        if self.sector == Some(before) || !is_recalculating(base) {
            return Ok(head);
        }
        let old = number_in(base, FLAGS_AT, 4);
        let (flags, sector) = match self.sector {
            Some(sector) => (old, sector),
            None => (old & !IS_RECALCULATING, number_in(base, 16, 8)),
        };
        let version = number_in(base, VERSION_AT, 1).max(version_for(flags));
        put_at(&mut head, VERSION_AT, run_at(&version.to_le_bytes(), 0, 1));
        put_at(&mut head, FLAGS_AT, run_at(&flags.to_le_bytes(), 0, 4));
        put_at(&mut head, POSITION_AT, &sector.to_le_bytes());
        Ok(head)
    }
}

/// The least version that these flags ask for.
fn version_for(flags: u64) -> u64 {
    if flags & 16 != 0 {
        5
    } else if flags & 8 != 0 {
        4
    } else if flags & IS_RECALCULATING != 0 {
        2
    } else {
        1
    }
}

/// Looks at the first sector of what is left of a script that began with an image and has printed a text. It is that of
/// the image, with a position that the steps which are told have moved, or the one that may have begun, or a close.
/// Where it is not told which regions were read, the position lies between that of no read and that of all.
pub fn judge_position(
    alloc: Global,
    base: &[u8],
    left: &[u8],
    script: &str,
    text: &str,
    reading: Reading,
) -> Result<(), Wrong> {
    let (Some(first), Some(now)) = (position_of(base), position_of(left)) else {
        return Err(Wrong::Run("what is left is no image"));
    };
    if run_at(left, 0, SECTOR) != now.head_of(alloc, base)?.as_slice() {
        return Err(Wrong::Run("the first sector has changed beyond its position"));
    }
    let most = Walk::of_script(alloc, first, script, text, true)?;
    let is_told = tells_reads(script, reading);
    let least = if is_told {
        most.reach
    } else {
        Walk::of_script(alloc, first, script, text, false)?.reach
    };
    let is_low = now.is_behind(&least.low);
    let is_high = most.reach.high.is_behind(&now);
    let is_between = now.sector == most.reach.low.sector || now.sector == most.reach.high.sector;
    if !is_low || !is_high || (is_told && !is_between) {
        return Err(Wrong::Run("the position is not where steps and reads have brought it"));
    }
    Ok(())
}

/// Whether the lines of a script, and what it has printed, tell which regions were read first.
fn tells_reads(script: &str, reading: Reading) -> bool {
    !script.split('\n').any(|line| {
        line.starts_with("start ") || (reading == Reading::Placed && line.starts_with("read "))
    })
}

/// The positions of which a cut leaves one.
#[derive(Clone, Copy)]
struct Reach {
    low: Position,
    high: Position,
}

/// How far the lines of a script have come that are told.
#[derive(Drop)]
struct Walk {
    position: Position,
    awaiting: Vec<bool>,
    reach: Reach,
}

impl Walk {
    /// The walk of a script that has printed a text, from an image with a position on. Its reads recalculate, or none
    /// does.
    fn of_script(
        alloc: Global,
        first: Position,
        script: &str,
        text: &str,
        takes_reads: bool,
    ) -> Result<Walk, AllocError> {
        let mut walk = Walk {
            position: first,
            awaiting: first.awaiting(alloc)?,
            reach: Reach {
                low: first,
                high: first,
            },
        };
        let told = told_lines(text);
        let mut lines = script.split('\n').filter(|line| !is_skipped(line));
        let mut replies = text.split('\n');
        for _ in 0..told {
            if let (Some(line), Some(reply)) = (lines.next(), replies.next()) {
                walk.run_line(line, reply, takes_reads);
            }
        }
        let position = walk.position;
        walk.reach = Reach {
            low: position,
            high: position,
        };
        match lines.next() {
            // A read of the line that may have begun takes its regions too, but moves nothing.
            Some("step recalc") => walk.take_least(),
            Some(_) => return Ok(walk),
            None => {}
        }
        walk.reach.high = position.moved(&walk.awaiting);
        if text.ends_with("closed\n") {
            walk.reach.low = walk.reach.high;
        }
        Ok(walk)
    }

    /// Runs a line that has printed this.
    fn run_line(&mut self, line: &str, reply: &str, takes_reads: bool) {
        if line == "step recalc" && reply == "did" {
            self.take_least();
            self.position = self.position.moved(&self.awaiting);
        } else if takes_reads && let Some((first, count)) = read_by(line, reply) {
            let end = first.saturating_add(count).min(self.position.form.blocks);
            for block in first..end {
                let region = self.position.region_of(block);
                if let Some(awaits) = self.awaiting.get_mut(region as usize) {
                    *awaits = false;
                }
            }
        }
    }

    /// Takes out the least region that awaits.
    fn take_least(&mut self) {
        if let Some(least) = self.awaiting.iter_mut().find(|awaits| **awaits) {
            *least = false;
        }
    }
}
