//! What must hold of a run that met a failure, computed from its script and from the disk that it began with.
ghost use Rattle.std.specs.Prelude.{◌≡◌};

use crate::Wrong;
use crate::form::Form;
use std::alloc::{AllocError, Global};

/// The failure that a run met.
#[derive(Clone, Copy)]
pub enum Met {
    Nothing,
    Disk,
    Source,
    Sink,
    /// The sink has no room beyond so many bytes.
    Full { room: u64 },
    Key,
}

/// A status and a text.
#[derive(Clone, Copy)]
pub struct Told<'t> {
    pub status: u8,
    pub text: &'t str,
}

/// Looks at the status and the text of a run that met a failure, beside those of the undisturbed
/// run: the status is that of the failure, and the text whole lines that the undisturbed one begins
/// with, and then the line of the failure.
///
/// Where the sink failed the text stops anywhere before its end. If only the last line is not
/// whole, and tells another cause, the status is that of this cause.
pub fn judge_text(undisturbed: Told<'_>, told: Told<'_>, met: Met) -> Result<(), Wrong> {
    if let Met::Full { room } = met
        && told.text.len() as u64 != room
    {
        return Err(Wrong::Run("the sink is not full"));
    }
    if told.status != status_by(undisturbed, told, met) {
        return Err(Wrong::Run("the status is not that of the failure"));
    }
    let line = last_line(met);
    let Some(before) = told.text.strip_suffix(line) else {
        return Err(Wrong::Run("the text does not end with the line of the failure"));
    };
    let is_whole = line.is_empty() || before.is_empty() || before.ends_with('\n');
    if !is_whole || !undisturbed.text.starts_with(before) {
        return Err(Wrong::Run("the text is no part of the undisturbed one"));
    }
    let is_all = before.len() == undisturbed.text.len();
    match met {
        Met::Nothing if !is_all => Err(Wrong::Run(
            "nothing failed, and the text is not the undisturbed one",
        )),
        Met::Nothing => Ok(()),
        _ if is_all => Err(Wrong::Run("the text is the undisturbed one")),
        _ => Ok(()),
    }
}

/// The status of a run that met a failure.
fn status_by(undisturbed: Told<'_>, told: Told<'_>, met: Met) -> u8
    ensures nothing { met ≡ Met.Nothing → result ≡ undisturbed.entry.status }
    ensures disk { met ≡ Met.Disk → result ≡ 4 }
    ensures source { met ≡ Met.Source → result ≡ 5 }
    ensures key { met ≡ Met.Key → result ≡ 5 }
{
    match met {
        Met::Nothing => undisturbed.status,
        Met::Disk => 4,
        Met::Source | Met::Key => 5,
        Met::Sink | Met::Full { .. } => {
            let is_last = told_lines(told.text) == told_lines(undisturbed.text);
            if undisturbed.status >= 2 && is_last {
                undisturbed.status
            } else {
                6
            }
        }
    }
}

/// The last line of a run that met a failure, where the failure has one.
fn last_line(met: Met) -> &'static str {
    match met {
        Met::Disk => "fault disk\n",
        Met::Source => "fault script\n",
        Met::Key => "fault key\n",
        Met::Nothing | Met::Sink | Met::Full { .. } => "",
    }
}

/// Looks at what is left of the making of an image: the bytes that it began with, which only a making leaves whose
/// first sync has not succeeded; bytes without a magic; or those of the whole new image.
pub fn judge_made(base: &[u8], made: &[u8], left: &[u8], has_synced: bool) -> Result<(), Wrong> {
    if left == made || !left.starts_with(b"integrt\0") {
        return Ok(());
    }
    if left != base {
        return Err(Wrong::Run("a part of a new image is left"));
    }
    if has_synced {
        return Err(Wrong::Run("the image of before is left behind the first sync"));
    }
    Ok(())
}

/// How many lines of the script a text tells whole. The last line of a run tells none.
pub(crate) fn told_lines(text: &str) -> usize {
    let mut told = 0usize;
    for line in text.split_inclusive('\n') {
        let is_block = line.starts_with("fault block ");
        let is_last = line == "closed\n" || (line.starts_with("fault ") && !is_block);
        if line.ends_with('\n') && !is_last {
            told = told.saturating_add(1);
        }
    }
    told
}

/// Whether a line of a script has no reply: it has no word, or begins with #.
pub(crate) fn is_skipped(line: &str) -> bool {
    line.starts_with('#') || line.bytes().all(|byte| byte == b' ')
}

/// The first block that a line writes, and the bytes from there on.
pub(crate) fn written_by(
    alloc: Global,
    form: &Form,
    line: &str,
) -> Result<Option<(u64, Vec<u8>)>, AllocError> {
    let mut words = line.split(' ');
    let name = words.next();
    let (Some(first), Some(third)) = (words.next(), words.next()) else {
        return Ok(None);
    };
    let Ok(first) = first.parse::<u64>() else {
        return Ok(None);
    };
    let bytes = match name {
        Some("write") => bytes_of_runs(alloc, form, third)?,
        Some("fill") => match (third.parse::<u64>(), words.next()) {
            (Ok(count), Some(byte)) => {
                let count = count.saturating_mul(form.size() as u64);
                bytes_of_run(alloc, form, byte, count)?
            }
            _ => return Ok(None),
        },
        _ => return Ok(None),
    };
    Ok(Some((first, bytes)))
}

/// The bytes of runs that are joined by commas, each a byte and how often it comes.
fn bytes_of_runs(alloc: Global, form: &Form, runs: &str) -> Result<Vec<u8>, AllocError> {
    let mut bytes = Vec::new(alloc);
    for run in runs.split(',') {
        if let Some((byte, count)) = run.split_once('*')
            && let Ok(count) = count.parse::<u64>()
        {
            bytes.extend_from_slice(&bytes_of_run(alloc, form, byte, count)?)?;
        }
    }
    Ok(bytes)
}

/// A byte that comes so often. The image has room for no more than its own bytes.
fn bytes_of_run(alloc: Global, form: &Form, byte: &str, count: u64) -> Result<Vec<u8>, AllocError> {
    let most = form.blocks.saturating_mul(form.size() as u64);
    match u8::from_str_radix(byte, 16) {
        Ok(byte) => vec![in alloc; byte; count.min(most) as usize],
        Err(_) => Ok(Vec::new(alloc)),
    }
}
