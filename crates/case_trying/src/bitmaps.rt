//! Looks at what a run in bitmap mode has left: by its bits, its blocks and their tags, and by what later runs on the
//! image read and leave.
use crate::reads::Reads;
use crate::trying::Counts;
use anyhow::{Result, bail};
use case_judging::{
    Bitmap, Images, Known, behind_journal, bitmap_of, is_same_outside_journal, judge_bitmapped,
    judge_bits, judge_kept,
};
use case_running::{Command, Ended, is_bitmapped, is_keyed};
use case_text::Case;
use std::alloc::Global;

/// What runs of a case in bitmap mode are judged by.
#[derive(Drop)]
pub struct Bitmapped {
    bitmap: Bitmap,
    /// The image that each run begins with, where each block whose bit is set has the tag of its data.
    base: Known,
    images: Images,
    script: String,
    /// Reads of all blocks without consent to tags that are made anew, and with it.
    reads: Reads,
    consenting: Reads,
    is_keyed: bool,
}

/// What runs of a case are judged by that is in bitmap mode, and begins with an image that has a bitmap.
pub fn bitmapped_by(
    alloc: Global,
    case: &Case,
    base: &[u8],
    script: &str,
) -> Result<Option<Bitmapped>> {
    if !is_bitmapped(case) {
        return Ok(None);
    }
    bitmapped_on(alloc, case, base, script)
}

/// What the runs of a script are judged by, under the key of a case, that begin with an image that has a bitmap.
pub(crate) fn bitmapped_on(
    alloc: Global,
    case: &Case,
    base: &[u8],
    script: &str,
) -> Result<Option<Bitmapped>> {
    let Some(mut bitmap) = bitmap_of(base) else {
        return Ok(None);
    };
    let is_keyed = is_keyed(case);
    if is_keyed {
        bitmap = bitmap.under(&case.key);
    }
    let form = bitmap.form;
    let read = bitmap.with_bits_applied(alloc, base)?;
    let words = if is_keyed { KEYED } else { "B" };
    Ok(Some(Bitmapped {
        bitmap,
        images: Images::of_script(alloc, form, &read, script)?,
        base: Known::new(alloc, form, read)?,
        script: script.to_string(alloc)?,
        reads: Reads::by_words(alloc, &form, words, "", &case.key)?,
        consenting: Reads::by_words(alloc, &form, words, CONSENT, &case.key)?,
        is_keyed,
    }))
}

impl Bitmapped {
    /// Whether another image has the blocks of the one that each run begins with, each with the tag of its data where
    /// its bit was set.
    pub(crate) fn is_same_behind(&self, other: &[u8]) -> bool {
        let form = &self.bitmap.form;
        behind_journal(form, self.base.bytes()) == behind_journal(form, other)
    }
}

/// Looks at an image that is left of an opening which makes a journal of its bitmap, and that has this still. A run in
/// bitmap mode reads its blocks, under a key with consent to the bits that are set.
pub fn judge_bitmap_kept<C: Command>(
    alloc: Global,
    command: &C,
    counts: &mut Counts,
    bitmapped: &Bitmapped,
    base: &[u8],
    left: &[u8],
) -> Result<()> {
    let Bitmapped { bitmap, images, .. } = bitmapped;
    judge_kept(alloc, bitmap, images, base, left)?;
    if bitmapped.is_keyed && bitmap.has_set(left) {
        judge_refused(alloc, command, counts, bitmapped, left)?;
    }
    read_again(
        alloc,
        command,
        counts,
        bitmapped,
        &bitmapped.consenting,
        left,
    )?;
    Ok(())
}

/// Looks at an image that is left and has no bitmap yet, where the undisturbed opening makes this one of the image that
/// runs begin with. A run in bitmap mode makes the same of it, outside of the journal, and reads its blocks.
pub fn judge_unmade<C: Command>(
    alloc: Global,
    command: &C,
    counts: &mut Counts,
    bitmapped: &Bitmapped,
    made: &[u8],
    left: &[u8],
) -> Result<()> {
    counts.runs = counts.runs.saturating_add(1);
    let Bitmapped { bitmap, base, .. } = bitmapped;
    let blocks = base.bytes();
    let ended = bitmapped
        .consenting
        .judge(alloc, command, base, left, blocks)?;
    let after = ended.disk.bytes();
    if !has_clear_bitmap(after) {
        bail!("a run in bitmap mode does not make a bitmap of which no bit is set");
    }
    if !is_same_outside_journal(&bitmap.form, after, made) {
        bail!("a run in bitmap mode makes another image of what is left");
    }
    Ok(())
}

/// Whether an image has a bitmap, and no bit of it is set.
pub fn has_clear_bitmap(image: &[u8]) -> bool {
    match bitmap_of(image) {
        Some(bitmap) => !bitmap.has_set(image),
        None => false,
    }
}

/// The words of a run in bitmap mode under a key, from its mode on.
const KEYED: &str = "B --integrity hmac-sha256 --integrity-key-file key";

/// The word that consents.
const CONSENT: &str = " --integrity-legacy-recalculate";

/// Looks at an image of what a run left that has printed a text. Then runs are opened on it that read all blocks, one
/// after the other: the first one makes the tags of the regions anew whose bits are set, and clears these, and the
/// second one changes nothing. Under a key the first one is refused without consent.
pub fn judge_bitmap_left<C: Command>(
    alloc: Global,
    command: &C,
    counts: &mut Counts,
    bitmapped: &Bitmapped,
    base: &[u8],
    left: &[u8],
    text: &str,
) -> Result<()> {
    if text.starts_with("fault image ") && left != base {
        bail!("an image that is refused has changed");
    }
    let Bitmapped { bitmap, images, .. } = bitmapped;
    judge_bits(alloc, bitmap, base, left, bitmapped.script.as_str(), text)?;
    judge_bitmapped(alloc, bitmap, images, base, left, text)?;
    let wants_consent = bitmapped.is_keyed && bitmap.has_set(left);
    if wants_consent {
        judge_refused(alloc, command, counts, bitmapped, left)?;
    }
    let reads = if wants_consent || counts.images % 4 == 0 {
        &bitmapped.consenting
    } else {
        &bitmapped.reads
    };
    let after = read_again(alloc, command, counts, bitmapped, reads, left)?;
    let after = after.disk.bytes();
    let again = read_again(alloc, command, counts, bitmapped, &bitmapped.reads, after)?;
    if again.disk.bytes() != after {
        bail!("a run that only reads has changed an image without a set bit");
    }
    Ok(())
}

/// Looks at a run without consent on what is left, which a bit that is set wants under a key: it is refused, and
/// changes nothing.
fn judge_refused<C: Command>(
    alloc: Global,
    command: &C,
    counts: &mut Counts,
    bitmapped: &Bitmapped,
    left: &[u8],
) -> Result<()> {
    counts.runs = counts.runs.saturating_add(1);
    let ended = bitmapped.reads.run_alone(alloc, command, left)?;
    let flags = bitmapped.bitmap.flags;
    let wanted = format!(in alloc; "fault image consent 0x{flags:x}\n")?;
    if ended.status != 3 || ended.text.as_str() != wanted.as_str() {
        bail!("what is left is not refused for want of consent");
    }
    if ended.disk.bytes() != left {
        bail!("an image that is refused for want of consent has changed");
    }
    Ok(())
}

/// Reads all blocks of an image, and gives the run that does. Behind it no bit is set, and all else is as it was read.
fn read_again<C: Command>(
    alloc: Global,
    command: &C,
    counts: &mut Counts,
    bitmapped: &Bitmapped,
    reads: &Reads,
    image: &[u8],
) -> Result<Ended> {
    counts.runs = counts.runs.saturating_add(1);
    let bitmap = &bitmapped.bitmap;
    let blocks = bitmap.with_bits_applied(alloc, image)?;
    let again = reads.judge(alloc, command, &bitmapped.base, image, &blocks)?;
    let after = again.disk.bytes();
    if bitmap.has_set(after) {
        bail!("a bit is set behind a run that has read all blocks");
    }
    if bitmap.with_bits_applied(alloc, after)?.as_slice() != blocks.as_slice() {
        bail!("a run that only reads has changed more than bits and tags");
    }
    bitmap.judge_unused(image, after)?;
    Ok(again)
}
