//! Looks at what the resize of an image has left: by its bytes, by what a check tells of it, and by what a second
//! resize makes of it.
use crate::trying::Counts;
use anyhow::{Result, bail};
use case_judging::{Growth, Provides};
use case_running::{Command, Ended, run};
use case_text::{Case, Fails};
use cut_disk::CutDisk;
use std::alloc::Global;

/// What runs of a case are judged by that resizes an image.
#[derive(Drop)]
pub enum Resized {
    /// The image is refused: the disk stays as it is.
    Refused,
    /// It is resized.
    Done(Resizing),
}

/// What runs of a case are judged by whose image is resized.
#[derive(Drop)]
pub struct Resizing {
    growth: Growth,
    /// A check of an image, and a resize, by the words of the case.
    check: Case,
    resize: Case,
    /// What a check tells of the image at first, and of the resized one.
    checked_before: String,
    checked_after: String,
}

/// What runs of a case are judged by whose words resize an image, where the undisturbed run has ended so.
pub fn resized_by<C: Command>(
    alloc: Global,
    command: &C,
    case: &Case,
    base: &[u8],
    undisturbed: &Ended,
) -> Result<Option<Resized>> {
    match case.words.get(1) {
        Some(word) if word.as_str() == "resize" => {}
        _ => return Ok(None),
    }
    if undisturbed.status != 0 {
        return Ok(Some(Resized::Refused));
    }
    let resized = undisturbed.disk.bytes();
    let check = case_by(alloc, case, "check")?;
    let before = run_on(alloc, command, &check, base)?;
    let after = run_on(alloc, command, &check, resized)?;
    Ok(Some(Resized::Done(Resizing {
        growth: Growth::new(alloc, base, resized)?,
        check,
        resize: case_by(alloc, case, "resize")?,
        checked_before: before.text,
        checked_after: after.text,
    })))
}

/// A case by the words of another, but for the name of the command, and with its key.
pub(crate) fn case_by(alloc: Global, other: &Case, name: &str) -> Result<Case> {
    let mut case = Case::new(alloc, Vec::new(alloc))?;
    case.words.clear();
    for (k, word) in other.words.iter().enumerate() {
        let word = if k == 1 { name } else { word.as_str() };
        case.words.push(word.to_string(alloc)?)?;
    }
    case.key = Vec::from_slice(alloc, &other.key)?;
    Ok(case)
}

/// Runs a case on an image, where nothing fails.
pub(crate) fn run_on<C: Command>(
    alloc: Global,
    command: &C,
    case: &Case,
    image: &[u8],
) -> Result<Ended> {
    let disk = CutDisk::new(alloc, image)?;
    run(alloc, command, case, Fails::NONE, disk)
}

/// Looks at an image of what a run left. A check tells of it what it tells of the image at first or of the resized one,
/// and a second resize makes the latter of it.
pub fn judge_resized<C: Command>(
    alloc: Global,
    command: &C,
    counts: &mut Counts,
    resized: &Resized,
    base: &[u8],
    left: &[u8],
) -> Result<()> {
    let Resized::Done(resizing) = resized else {
        if left != base {
            bail!("an image that is refused has changed");
        }
        return Ok(());
    };
    let told = match resizing.growth.judge(alloc, left)? {
        Provides::Before => &resizing.checked_before,
        Provides::After => &resizing.checked_after,
    };
    counts.runs = counts.runs.saturating_add(2);
    let checked = run_on(alloc, command, &resizing.check, left)?;
    if checked.text.as_str() != told.as_str() {
        bail!("a check of what is left tells something else");
    }
    let again = run_on(alloc, command, &resizing.resize, left)?;
    if again.status != 0 {
        bail!("what is left is not resized again");
    }
    Ok(resizing.growth.judge_again(alloc, again.disk.bytes())?)
}
