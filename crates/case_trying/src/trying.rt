//! Tries a case with each failure of a kind, until a run meets none.
use crate::bitmaps::{Bitmapped, bitmapped_by, judge_bitmap_left};
use crate::changing::{Changed, changed_by, judge_changed};
use crate::reads::Reads;
use crate::recovering::{Lines, Recovered, judge_recovered, recovered_by};
use crate::resizing::{Resized, judge_resized, resized_by};
use anyhow::{Result, bail};
use case_disks::choice_from;
use case_judging::{
    Images, Known, Met, Told, bitmap_of, form_of, judge_left, judge_made, judge_text,
};
use case_running::{Command, Ended, is_keyed, is_recovering, outcome_of, run};
use case_text::{CHOICES, Case, Fails, Kind, name_of, with_failure};
use cut_disk::CutDisk;
use std::alloc::Global;

/// The most runs of a kind that are tried.
pub(crate) const MOST: u64 = 4096;

/// How much was tried.
#[derive(Drop)]
pub struct Counts {
    /// How many runs of cases were made.
    pub runs: u64,
    /// How many images were opened again.
    pub images: u64,
    /// How many runs or cases were wrong.
    pub wrong: u64,
    /// How many cases showed what they were to show.
    pub expected: u64,
}

/// What a case is tried on: the disk that each run begins with.
#[derive(Drop)]
pub struct Trial {
    base: Known,
    /// The images of its script on it.
    images: Images,
    reads: Reads,
    is_keyed: bool,
    /// Whether they are in recovery mode.
    is_recovering: bool,
    /// The bytes of the image that the case makes, if it makes one.
    made: Option<Vec<u8>>,
    /// What its runs are judged by, if they resize an image.
    resized: Option<Resized>,
    /// What its runs recover, if the journal plays a part.
    recovered: Option<Recovered>,
    /// What its runs are judged by, if they are in bitmap mode.
    bitmapped: Option<Bitmapped>,
    /// What its runs are judged by, if their opening makes a bitmap of a journal, or a journal of a bitmap.
    changed: Option<Changed>,
}

impl Trial {
    /// Looks at the disk that runs of a case begin with. Its script is text.
    pub fn new<C: Command>(
        alloc: Global,
        command: &C,
        case: &Case,
        base: Vec<u8>,
        undisturbed: &Ended,
    ) -> Result<Trial> {
        let Ok(script) = str::from_utf8(&case.script) else {
            bail!("a script that is tried is text");
        };
        let text = undisturbed.text.as_str();
        let resized = resized_by(alloc, command, case, &base, undisturbed)?;
        let is_recovering = is_recovering(case);
        let changed = changed_by(alloc, command, case, &base, Lines { script, text })?;
        let recovered = if is_recovering || resized.is_some() || changed.is_some() {
            None
        } else {
            recovered_by(alloc, command, case, &base, script, text)?
        };
        let bitmapped = bitmapped_by(alloc, case, &base, script)?;
        // What is recovered, has a bitmap or gets one is judged by images of its own.
        let has_own = recovered.is_some() || bitmapped.is_some() || changed.is_some();
        let form = form_of(&base);
        let images = Images::of_script(alloc, form, &base, if has_own { "" } else { script })?;
        let base = Known::new(alloc, form, base)?;
        Ok(Trial {
            images,
            reads: Reads::in_mode(alloc, &base.form, "D")?,
            base,
            is_keyed: is_keyed(case),
            is_recovering,
            made: made_by(alloc, case, undisturbed)?,
            resized,
            recovered,
            bitmapped,
            changed,
        })
    }

    /// Whether what is left is judged. The tags of a keyed image without a bitmap are judged by the texts of its cases
    /// alone, unless it is made anew, resized or kept.
    fn judges_images(&self) -> bool {
        let is_whole = self.is_recovering || self.made.is_some() || self.resized.is_some();
        !self.is_keyed || is_whole || self.bitmapped.is_some() || self.changed.is_some()
    }
}

/// The bytes of the image that a case makes, if it makes one.
fn made_by(alloc: Global, case: &Case, undisturbed: &Ended) -> Result<Option<Vec<u8>>> {
    match case.words.get(1) {
        Some(word) if word.as_str() == "format" => {
            Ok(Some(Vec::from_slice(alloc, undisturbed.disk.bytes())?))
        }
        _ => Ok(None),
    }
}

/// Tries each failure of a kind, and tells how many runs failed and how many images were looked at,
/// or what is wrong.
pub fn try_each<C: Command>(
    alloc: Global,
    command: &C,
    counts: &mut Counts,
    trial: &Trial,
    case: &Case,
    undisturbed: &Ended,
    kind: Kind,
) -> Result<String> {
    let first = first_of(kind);
    let images = counts.images;
    let mut told = String::new(alloc);
    for number in first..MOST {
        let fails = with_failure(case.fails, kind, number);
        let ended = run_again(alloc, command, counts, trial, case, fails)?;
        let met = met_by(kind, number, &ended);
        if let Err(fault) = judge(alloc, command, counts, trial, undisturbed, &ended, met) {
            counts.wrong = counts.wrong.saturating_add(1);
            let fault = format!(in alloc; "{fault}")?;
            told.push_str(wrong_told(alloc, kind, number, fault.as_str(), &ended)?.as_str())?;
        }
        if let Met::Nothing = met {
            let failed = number.saturating_sub(first);
            let images = counts.images.saturating_sub(images);
            return tried_told(alloc, kind, failed, images, told.as_str());
        }
    }
    bail!("each run met a failure")
}

/// The number of the first failure of a kind.
pub(crate) fn first_of(kind: Kind) -> u64 {
    match kind {
        Kind::Stop | Kind::Room => 0,
        _ => 1,
    }
}

/// What is told of a run that is wrong.
pub(crate) fn wrong_told(
    alloc: Global,
    kind: Kind,
    number: u64,
    fault: &str,
    ended: &Ended,
) -> Result<String> {
    let name = name_of(kind);
    let outcome = outcome_of(alloc, ended)?;
    Ok(format!(in alloc; "\nWRONG {name} {number}: {fault}: {outcome}")?)
}

/// What is told of the failures of a kind.
pub(crate) fn tried_told(
    alloc: Global,
    kind: Kind,
    failed: u64,
    images: u64,
    wrong: &str,
) -> Result<String> {
    let name = name_of(kind);
    Ok(format!(in alloc; "\neach {name}: {failed} failed, {images} images{wrong}")?)
}

/// Makes a run of the case where this fails.
fn run_again<C: Command>(
    alloc: Global,
    command: &C,
    counts: &mut Counts,
    trial: &Trial,
    case: &Case,
    fails: Fails,
) -> Result<Ended> {
    counts.runs = counts.runs.saturating_add(1);
    let disk = CutDisk::new(alloc, trial.base.bytes())?;
    run(alloc, command, case, fails, disk)
}

/// The failure of a kind, with this number, that a run met.
pub(crate) fn met_by(kind: Kind, number: u64, ended: &Ended) -> Met {
    let (one, other) = (&ended.disk.seen, &ended.second.seen);
    let (failed, met) = match kind {
        Kind::Disk | Kind::Stop => (one.failed.saturating_add(other.failed), Met::Disk),
        Kind::Source => (ended.source_failed, Met::Source),
        Kind::Sink => (ended.sink_failed, Met::Sink),
        Kind::Room => (ended.sink_failed, Met::Full { room: number }),
        Kind::Key => (ended.key_failed, Met::Key),
    };
    if failed > 0 { met } else { Met::Nothing }
}

/// Looks at a run, and at the images of what it left, each choice of candidates once.
fn judge<C: Command>(
    alloc: Global,
    command: &C,
    counts: &mut Counts,
    trial: &Trial,
    undisturbed: &Ended,
    ended: &Ended,
    met: Met,
) -> Result<()> {
    judge_text(told_by(undisturbed), told_by(ended), met)?;
    if ended.key_calls > 0 && !trial.is_keyed {
        bail!("the key was touched");
    }
    if !trial.judges_images() {
        return Ok(());
    }
    let mut tried: Vec<Vec<u32>> = Vec::new(alloc);
    for candidates in CHOICES {
        let choice = choice_from(alloc, ended.disk.last(), candidates)?;
        if !tried.contains(&choice) {
            judge_choice(alloc, command, counts, trial, ended, &choice)?;
            tried.push(choice)?;
        }
    }
    Ok(())
}

/// Looks at an image of what a run left.
fn judge_choice<C: Command>(
    alloc: Global,
    command: &C,
    counts: &mut Counts,
    trial: &Trial,
    ended: &Ended,
    choice: &[u32],
) -> Result<()> {
    let Some(left) = ended.disk.image(alloc, choice)? else {
        bail!("there was no memory for what is left");
    };
    counts.images = counts.images.saturating_add(1);
    let base = trial.base.bytes();
    if let Some(made) = &trial.made {
        return Ok(judge_made(base, made, &left, ended.disk.seen.syncs > 0)?);
    }
    if trial.is_recovering {
        if left.as_slice() != base {
            bail!("a run in recovery mode has changed the disk");
        }
        return Ok(());
    }
    if let Some(resized) = &trial.resized {
        return judge_resized(alloc, command, counts, resized, base, &left);
    }
    judge_blocks(alloc, command, counts, trial, &left, ended.text.as_str())
}

/// Looks at the blocks of an image of what a run left that has printed a text.
fn judge_blocks<C: Command>(
    alloc: Global,
    command: &C,
    counts: &mut Counts,
    trial: &Trial,
    left: &[u8],
    text: &str,
) -> Result<()> {
    let base = trial.base.bytes();
    if let Some(changed) = &trial.changed {
        return judge_changed(alloc, command, counts, changed, base, left, text);
    }
    if let Some(recovered) = &trial.recovered {
        return judge_recovered(alloc, command, counts, recovered, base, left, text);
    }
    if let Some(bitmapped) = &trial.bitmapped {
        return judge_bitmap_left(alloc, command, counts, bitmapped, base, left, text);
    }
    // A command that runs no script on an image with a bitmap only reads it.
    if bitmap_of(base).is_some() {
        if left != base {
            bail!("a command that only reads has changed the disk");
        }
        return Ok(());
    }
    judge_left(alloc, &trial.images, left, text)?;
    counts.runs = counts.runs.saturating_add(1);
    trial.reads.judge(alloc, command, &trial.base, left, left)?;
    Ok(())
}

/// What a run printed, and its status.
pub(crate) fn told_by(ended: &Ended) -> Told<'_> {
    Told {
        status: ended.status,
        text: ended.text.as_str(),
    }
}
