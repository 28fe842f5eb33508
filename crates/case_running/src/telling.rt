//! What a run and a case show, as text.
use crate::running::{Command, Ended, run};
use anyhow::{Result, bail};
use case_disks::choice_from;
use case_judging::{behind_journal, count_used, form_of, numbers_of};
use case_text::{Candidates, Case, Fails, Piece, Show};
use cut_disk::CutDisk;
use sha2::{Digest, Sha256};
use std::alloc::{AllocError, Global};

/// A text that comes so many times in a row, and the label of the first.
#[derive(Drop)]
pub struct Repeated {
    pub label: String,
    pub text: String,
    pub count: u64,
}

/// Adds a text to those before.
pub fn add(
    alloc: Global,
    texts: &mut Vec<Repeated>,
    label: &str,
    text: &str,
) -> Result<(), AllocError> {
    if let Some(last) = texts.last_mut() {
        if last.text.as_str() == text {
            last.count = last.count.saturating_add(1);
            return Ok(());
        }
    }
    texts.push(Repeated {
        label: label.to_string(alloc)?,
        text: text.to_string(alloc)?,
        count: 1,
    })?;
    Ok(())
}

/// The status, and behind it the lines of the text, parted by ` / `. Of lines that repeat, one
/// stands with their number; a last line that no newline ends has two dots behind it.
pub fn outcome_of(alloc: Global, ended: &Ended) -> Result<String, AllocError> {
    let status = ended.status;
    let text = ended.text.as_str();
    if text.is_empty() {
        return format!(in alloc; "{status}");
    }
    let whole = match text.strip_suffix('\n') {
        Some(whole) => whole,
        None => text,
    };
    let mut lines = Vec::new(alloc);
    for line in whole.split('\n') {
        add(alloc, &mut lines, "", line)?;
    }
    let mut out = format!(in alloc; "{status}")?;
    for (k, line) in lines.iter().enumerate() {
        out.push_str(if k == 0 { " " } else { " / " })?;
        put_times(alloc, &mut out, line.count)?;
        out.push_str(line.text.as_str())?;
    }
    if whole.len() == text.len() {
        out.push_str(" ..")?;
    }
    Ok(out)
}

/// Puts how often a line comes, if it comes more than once.
fn put_times(alloc: Global, out: &mut String, count: u64) -> Result<(), AllocError> {
    if count == 1 {
        return Ok(());
    }
    let times = format!(in alloc; "{count} * ")?;
    out.push_str(times.as_str())
}

/// Puts what rows, or bits, have shown, each on lines of its own. Those that showed the same in a
/// row are told once.
pub fn put_rows(
    alloc: Global,
    out: &mut String,
    rows: &[Repeated],
    name: &str,
    indent: &str,
) -> Result<(), AllocError> {
    let inner = format!(in alloc; "\n{indent}  ")?;
    for row in rows {
        let shown = row.text.as_str().replace(alloc, "\n", inner.as_str())?;
        let line = row_told(alloc, row, name, shown.as_str())?;
        out.push_str("\n")?;
        out.push_str(indent)?;
        out.push_str(line.as_str())?;
    }
    Ok(())
}

/// What a row has shown, behind its label or the number of those alike.
fn row_told(alloc: Global, row: &Repeated, name: &str, shown: &str) -> Result<String, AllocError> {
    let (label, count) = (row.label.as_str(), row.count);
    if count > 1 {
        format!(in alloc; "{count} {name}: {shown}")
    } else if label.is_empty() {
        shown.to_string(alloc)
    } else {
        format!(in alloc; "{label}: {shown}")
    }
}

/// Whether the words of a case name a key.
pub fn is_keyed(case: &Case) -> bool {
    case.words.iter().any(|word| word.as_str() == "hmac-sha256")
}

/// Whether the words of a case are those of a run in journal mode.
pub fn is_journaled(case: &Case) -> bool {
    is_run(case) && case.words.iter().any(|word| word.as_str() == "J")
}

/// Whether the words of a case are those of a run in direct mode.
pub fn is_direct(case: &Case) -> bool {
    is_run(case) && case.words.iter().any(|word| word.as_str() == "D")
}

/// Whether the words of a case are those of a run in bitmap mode.
pub fn is_bitmapped(case: &Case) -> bool {
    is_run(case) && case.words.iter().any(|word| word.as_str() == "B")
}

/// Whether the words of a case are those of a run in recovery mode.
pub fn is_recovering(case: &Case) -> bool {
    is_run(case) && case.words.iter().any(|word| word.as_str() == "R")
}

/// Whether the words of a case are those of a run.
fn is_run(case: &Case) -> bool {
    matches!(case.words.get(1), Some(word) if word.as_str() == "run")
}

/// How a run has ended, and below it what the case shows. A script of the case is run by the command too.
pub fn told_of<C: Command>(
    alloc: Global,
    command: &C,
    case: &Case,
    ended: &Ended,
) -> Result<String> {
    let hides_text = case.shows.iter().any(|show| matches!(show, Show::Text));
    let mut told = if hides_text {
        let status = ended.status;
        format!(in alloc; "{status}")?
    } else {
        outcome_of(alloc, ended)?
    };
    if ended.key_calls > 0 && !is_keyed(case) {
        told.push_str("\nthe key was touched")?;
    }
    for show in &case.shows {
        told.push_str("\n")?;
        let line = shown(alloc, command, show, ended, &ended.disk)?;
        told.push_str(line.as_str())?;
    }
    if let Some(second) = &case.second {
        for show in &second.shows {
            told.push_str("\nsecond ")?;
            let line = shown(alloc, command, show, ended, &ended.second)?;
            told.push_str(line.as_str())?;
        }
    }
    Ok(told)
}

/// What is shown of a run and of what it left on one of its disks.
fn shown<C: Command>(
    alloc: Global,
    command: &C,
    show: &Show,
    ended: &Ended,
    disk: &CutDisk,
) -> Result<String> {
    match show {
        Show::Digest => digest_told(alloc, "digest", disk.bytes()),
        Show::Text => digest_told(alloc, "digest of the text", ended.text.as_str().as_bytes()),
        Show::Outside => outside_told(alloc, disk.bytes()),
        Show::Numbers => numbers_told(alloc, disk.bytes()),
        Show::Bytes(piece) => piece_told(alloc, disk.bytes(), *piece),
        Show::Writes => {
            let (writes, syncs) = (disk.seen.writes, disk.seen.syncs);
            Ok(format!(in alloc; "{writes} sectors written, {syncs} syncs")?)
        }
        Show::Reopened { candidates, script } => {
            let case = Case::new(alloc, script.clone()?)?;
            let image = image_left(alloc, disk, *candidates)?;
            let disk = CutDisk::new(alloc, &image)?;
            let again = run(alloc, command, &case, Fails::NONE, disk)?;
            reopened(alloc, *candidates, &again)
        }
    }
}

/// The SHA-256 of bytes, behind what these are.
fn digest_told(alloc: Global, name: &str, bytes: &[u8]) -> Result<String> {
    let digest = hex::encode(alloc, Sha256::digest(bytes))?;
    Ok(format!(in alloc; "{name} {digest}")?)
}

/// The SHA-256 of the sectors of an image that stand before its journal and behind it.
fn outside_told(alloc: Global, image: &[u8]) -> Result<String> {
    let mut bytes = Vec::from_slice(alloc, image.get(..4096).unwrap_or(&[]))?;
    bytes.extend_from_slice(behind_journal(&form_of(image), image))?;
    digest_told(alloc, "digest outside", &bytes)
}

/// The commit numbers of the journal's sectors, each with how many have it in a row, and how many entries are used.
fn numbers_told(alloc: Global, image: &[u8]) -> Result<String> {
    let form = form_of(image);
    let mut runs = Vec::new(alloc);
    for number in &numbers_of(alloc, &form, image)? {
        let number = format!(in alloc; "{number}")?;
        add(alloc, &mut runs, "", number.as_str())?;
    }
    let mut told = "numbers".to_string(alloc)?;
    for run in &runs {
        let (number, count) = (run.text.as_str(), run.count);
        told.push_str(format!(in alloc; " {number}*{count}")?.as_str())?;
    }
    let used = count_used(&form, image);
    told.push_str(format!(in alloc; ", {used} entries used")?.as_str())?;
    Ok(told)
}

/// Some bytes of a disk, or none where it does not have so many.
fn piece_told(alloc: Global, bytes: &[u8], piece: Piece) -> Result<String> {
    let (at, first) = (piece.at, piece.first);
    let from = at.saturating_mul(512).saturating_add(first) as usize;
    let end = from.saturating_add(piece.count as usize);
    let run = match bytes.get(from..end) {
        Some(run) => run,
        None => &[],
    };
    let run = hex::encode(alloc, run)?;
    Ok(format!(in alloc; "sector {at} from byte {first}: {run}")?)
}

/// The bytes of an image of what is left on a disk.
///
/// # Errors
///
/// There is no memory for it, or there was none for what it is made of.
pub fn image_left(alloc: Global, disk: &CutDisk, candidates: Candidates) -> Result<Vec<u8>> {
    let choice = choice_from(alloc, disk.last(), candidates)?;
    match disk.image(alloc, &choice)? {
        Some(bytes) => Ok(bytes),
        None => bail!("there was no memory for what is left"),
    }
}

/// How a script has ended on an image of what is left.
fn reopened(alloc: Global, candidates: Candidates, again: &Ended) -> Result<String> {
    let name = match candidates {
        Candidates::First => "first",
        _ => "last",
    };
    let outcome = outcome_of(alloc, again)?;
    Ok(format!(in alloc; "{name}: {outcome}")?)
}
