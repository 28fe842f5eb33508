//! Tries a mirror of two images with each failure of a kind, of either disk, and looks at what is left of both.
use crate::trying::{Counts, MOST, first_of, met_by, told_by, tried_told, wrong_told};
use anyhow::{Result, bail};
use case_judging::{
    Form, Known, Levelled, Met, Told, Writes, form_of, is_same_outside_journal, judge_read_of_all,
    judge_text, read_of_all, with_journal_placed,
};
use case_running::{Command, Ended, image_left, is_keyed, run_on_both};
use case_text::{Candidates, Case, Fails, Kind, Second, with_failure};
use cut_disk::CutDisk;
use std::alloc::Global;

/// The choices of candidates of the first and of the second disk that are tried of what a run left.
const PAIRS: [(Candidates, Candidates); 6] = [
    (Candidates::Last, Candidates::Last),
    (Candidates::First, Candidates::First),
    (Candidates::First, Candidates::Last),
    (Candidates::Last, Candidates::First),
    (Candidates::LastData, Candidates::Alternate),
    (Candidates::Middle, Candidates::FirstData),
];

/// One image of a mirror, that each run begins with.
#[derive(Drop)]
struct Leg {
    form: Form,
    base: Vec<u8>,
    /// The same with the entries of its journal in their places.
    placed: Vec<u8>,
    /// What is written to it.
    writes: Writes,
}

/// What a mirror is tried on: both images that each run begins with.
#[derive(Drop)]
pub struct Pair {
    first: Leg,
    second: Leg,
    /// What both hold behind the levelling.
    levelled: Known,
    /// A mirror that reads all blocks.
    reads: Case,
}

impl Pair {
    /// Looks at the images that runs of a mirror begin with, whose undisturbed run has ended so. Its script is text.
    ///
    /// # Errors
    ///
    /// The undisturbed run has not come to its end, or there is no memory.
    pub fn new(
        alloc: Global,
        case: &Case,
        bases: (Vec<u8>, Vec<u8>),
        undisturbed: &Ended,
    ) -> Result<Pair> {
        if undisturbed.status != 0 {
            bail!("a mirror that is tried comes to its end");
        }
        let forms = (form_by(case, &bases.0), form_by(case, &bases.1));
        let first = with_journal_placed(alloc, &forms.0, &bases.0)?;
        let second = with_journal_placed(alloc, &forms.1, &bases.1)?;
        let level = Levelled::of(alloc, forms, &first, &second)?;
        let text = undisturbed.text.as_str();
        let Ok(script) = str::from_utf8(&case.script) else {
            bail!("a script that is tried is text");
        };
        let mut reads = Case::new(alloc, read_of_all(alloc, &forms.0)?)?;
        reads.words = case.words.clone()?;
        reads.key = case.key.clone()?;
        let (form, other) = forms;
        Ok(Pair {
            first: Leg {
                form,
                base: bases.0,
                placed: first,
                writes: Writes::of_mirror(
                    alloc,
                    form,
                    &level.to_first,
                    &level.first,
                    script,
                    text,
                )?,
            },
            second: Leg {
                form: other,
                base: bases.1,
                placed: second,
                writes: Writes::of_mirror(
                    alloc,
                    other,
                    &level.to_second,
                    &level.second,
                    script,
                    text,
                )?,
            },
            levelled: Known::new(alloc, form, level.first)?,
            reads,
        })
    }
}

/// The form of an image, under the key of a case, if it has one.
fn form_by(case: &Case, image: &[u8]) -> Form {
    let form = form_of(image);
    if is_keyed(case) {
        return form.under(&case.key);
    }
    form
}

/// Tries each failure of a kind, that of a disk first of the first one and then of the second, and tells how many runs
/// failed and how many images were looked at, or what is wrong.
pub fn try_each_of_both<C: Command>(
    alloc: Global,
    command: &C,
    counts: &mut Counts,
    pair: &Pair,
    case: &Case,
    second: &Second,
    undisturbed: &Ended,
    kind: Kind,
) -> Result<String> {
    let mut told = try_one(
        alloc,
        command,
        counts,
        pair,
        case,
        second,
        undisturbed,
        kind,
        false,
    )?;
    if let Kind::Disk | Kind::Stop = kind {
        let other = try_one(
            alloc,
            command,
            counts,
            pair,
            case,
            second,
            undisturbed,
            kind,
            true,
        )?;
        let other = other.as_str().replace(alloc, "\neach ", "\nsecond each ")?;
        told.push_str(other.as_str())?;
    }
    Ok(told)
}

/// Tries each failure of a kind of one of the disks.
fn try_one<C: Command>(
    alloc: Global,
    command: &C,
    counts: &mut Counts,
    pair: &Pair,
    case: &Case,
    second: &Second,
    undisturbed: &Ended,
    kind: Kind,
    is_second: bool,
) -> Result<String> {
    let first = first_of(kind);
    let images = counts.images;
    let mut told = String::new(alloc);
    for number in first..MOST {
        let fails = if is_second {
            (case.fails, with_failure(second.fails, kind, number))
        } else {
            (with_failure(case.fails, kind, number), second.fails)
        };
        counts.runs = counts.runs.saturating_add(1);
        let disks = (
            CutDisk::new(alloc, &pair.first.base)?,
            CutDisk::new(alloc, &pair.second.base)?,
        );
        let ended = run_on_both(alloc, command, case, fails, disks)?;
        let met = met_by(kind, number, &ended);
        if let Err(fault) = judge_both(alloc, command, counts, pair, undisturbed, &ended, met) {
            counts.wrong = counts.wrong.saturating_add(1);
            let fault = format!(in alloc; "{fault}")?;
            told.push_str(wrong_told(alloc, kind, number, fault.as_str(), &ended)?.as_str())?;
        }
        if let Met::Nothing = met {
            let failed = number.saturating_sub(first);
            let images = counts.images.saturating_sub(images);
            return tried_told(alloc, kind, failed, images, told.as_str());
        }
    }
    bail!("each run met a failure")
}

/// Looks at a run, and at pairs of images of what it left.
fn judge_both<C: Command>(
    alloc: Global,
    command: &C,
    counts: &mut Counts,
    pair: &Pair,
    undisturbed: &Ended,
    ended: &Ended,
    met: Met,
) -> Result<()> {
    judge_text(told_by(undisturbed), told_by(ended), met)?;
    let mut tried: Vec<(Vec<u8>, Vec<u8>)> = Vec::new(alloc);
    for (one, other) in PAIRS {
        let first = image_left(alloc, &ended.disk, one)?;
        let second = image_left(alloc, &ended.second, other)?;
        let is_tried = tried
            .iter()
            .any(|images| images.0 == first && images.1 == second);
        if !is_tried {
            judge_images(
                alloc,
                command,
                counts,
                pair,
                (&first, &second),
                ended.text.as_str(),
            )?;
            tried.push((first, second))?;
        }
    }
    Ok(())
}

/// Looks at images of what a run left that has printed a text. The blocks of each alone, with the entries of its
/// journal in their places, are those after a prefix of what was written to it. A mirror of both opens, levels them by
/// the rule, reads the blocks that this gives, and leaves them on both.
fn judge_images<C: Command>(
    alloc: Global,
    command: &C,
    counts: &mut Counts,
    pair: &Pair,
    left: (&[u8], &[u8]),
    text: &str,
) -> Result<()> {
    counts.images = counts.images.saturating_add(2);
    let (one, other) = (&pair.first, &pair.second);
    let first = with_journal_placed(alloc, &one.form, left.0)?;
    let second = with_journal_placed(alloc, &other.form, left.1)?;
    one.writes.judge(alloc, &one.placed, &first, text)?;
    other.writes.judge(alloc, &other.placed, &second, text)?;
    let level = Levelled::of(alloc, (one.form, other.form), &first, &second)?;
    if !pair.levelled.is_whole(&level.first) {
        bail!("a block matches on neither image");
    }
    counts.runs = counts.runs.saturating_add(1);
    let disks = (CutDisk::new(alloc, left.0)?, CutDisk::new(alloc, left.1)?);
    let ended = run_on_both(
        alloc,
        command,
        &pair.reads,
        (Fails::NONE, Fails::NONE),
        disks,
    )?;
    let count = level.count();
    let line = format!(in alloc; "level {count}\n")?;
    let Some(text) = ended.text.as_str().strip_prefix(line.as_str()) else {
        bail!("a mirror of what is left has written another number of blocks than {count}");
    };
    let status = ended.status;
    judge_read_of_all(alloc, &pair.levelled, &level.first, Told { status, text })?;
    let is_same = is_same_outside_journal(&one.form, ended.disk.bytes(), &level.first)
        && is_same_outside_journal(&other.form, ended.second.bytes(), &level.second);
    if !is_same {
        bail!("a mirror of what is left does not level both images");
    }
    Ok(())
}
