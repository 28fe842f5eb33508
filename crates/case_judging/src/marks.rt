//! Which bits of a bitmap may be set while a script runs, and which are set behind its end.
use crate::Wrong;
use crate::bitmap::Bitmap;
use crate::judging::{is_skipped, told_lines, written_by};
use std::alloc::{AllocError, Global};

/// Looks at the bits of what is left of a script that began with an image, and has printed a text. One that is set was
/// set then, or a line that may have begun writes a block of its region. Behind the end of a script the bits are set of
/// the regions that await their tags still.
pub fn judge_bits(
    alloc: Global,
    bitmap: &Bitmap,
    base: &[u8],
    left: &[u8],
    script: &str,
    text: &str,
) -> Result<(), Wrong> {
    let bits = bitmap.bits_of(alloc, left)?;
    if text.ends_with("closed\n") {
        return judge_closed(alloc, bitmap, base, &bits, script, text);
    }
    let most = most_set(alloc, bitmap, base, script, text)?;
    judge_most(&bits, &most, "a bit is set of a region that nobody wrote")
}

/// Looks at bits, none of which is to be set but these.
fn judge_most(bits: &[bool], most: &[bool], what: &'static str) -> Result<(), Wrong> {
    if bits.iter().zip(most).any(|(bit, may)| *bit && !*may) {
        return Err(Wrong::Run(what));
    }
    Ok(())
}

/// Looks at the bits behind the end of a script. Where it has started requests it is not told which regions they have
/// read, and so which ones await.
fn judge_closed(
    alloc: Global,
    bitmap: &Bitmap,
    base: &[u8],
    bits: &[bool],
    script: &str,
    text: &str,
) -> Result<(), Wrong> {
    let before = bitmap.bits_of(alloc, base)?;
    judge_most(bits, &before, "a bit is set behind the end that was clear")?;
    if script.split('\n').any(|line| line.starts_with("start ")) {
        return Ok(());
    }
    let awaiting = awaiting_behind(bitmap, before, script, text);
    if bits != awaiting.as_slice() {
        return Err(Wrong::Run("the bits behind the end are not those of what awaits"));
    }
    Ok(())
}

/// The bits that may be set where a script has printed this text.
fn most_set(
    alloc: Global,
    bitmap: &Bitmap,
    base: &[u8],
    script: &str,
    text: &str,
) -> Result<Vec<bool>, AllocError> {
    let mut bits = bitmap.bits_of(alloc, base)?;
    let told = told_lines(text);
    let lines = script.split('\n').filter(|line| !is_skipped(line));
    for (k, line) in lines.enumerate() {
        if k > told {
            break;
        }
        let line = line.strip_prefix("start ").unwrap_or(line);
        if let Some((first, bytes)) = written_by(alloc, &bitmap.form, line)? {
            let count = bytes.len().checked_div(bitmap.form.size()).unwrap_or(0);
            put_regions(bitmap, &mut bits, first, count as u64, true);
        }
    }
    Ok(bits)
}

/// Makes the bits of the regions of blocks set, or clear.
fn put_regions(bitmap: &Bitmap, bits: &mut [bool], first: u64, count: u64, is_set: bool) {
    let end = first.saturating_add(count).min(bitmap.form.blocks);
    for block in first..end {
        if let Some(bit) = bits.get_mut(bitmap.region_of(block) as usize) {
            *bit = is_set;
        }
    }
}

/// The regions that await their tags behind a script that starts nothing and has printed this text, of those that did
/// before: not those of blocks that it has read, and not the least ones where a step has recalculated.
fn awaiting_behind(
    bitmap: &Bitmap,
    mut awaiting: Vec<bool>,
    script: &str,
    text: &str,
) -> Vec<bool> {
    let lines = script.split('\n').filter(|line| !is_skipped(line));
    for (line, reply) in lines.zip(text.split('\n')) {
        if line == "step recalc" && reply == "did" {
            if let Some(least) = awaiting.iter_mut().find(|bit| **bit) {
                *least = false;
            }
        } else if let Some((first, count)) = read_by(line, reply) {
            put_regions(bitmap, &mut awaiting, first, count, false);
        }
    }
    awaiting
}

/// The first block that a line reads, and how many: up to one whose tag is not that of its data.
pub(crate) fn read_by(line: &str, reply: &str) -> Option<(u64, u64)> {
    let (first, count) = line.strip_prefix("read ")?.split_once(' ')?;
    let (Ok(first), Ok(count)) = (first.parse::<u64>(), count.parse::<u64>()) else {
        return None;
    };
    let Some(fault) = reply.strip_prefix("fault block ") else {
        return Some((first, count));
    };
    let (block, _) = fault.split_once(' ')?;
    match block.parse::<u64>() {
        Ok(block) => Some((first, block.saturating_sub(first).saturating_add(1))),
        Err(_) => None,
    }
}
