//! Looks at what a run has left whose mode is not that of the image that it began with: that image with its blocks, or
//! the one that its opening makes of it, with a bitmap in place of a journal or the other way round.
use crate::bitmaps::{
    Bitmapped, bitmapped_by, bitmapped_on, has_clear_bitmap, judge_bitmap_kept, judge_bitmap_left,
    judge_unmade,
};
use crate::recovering::{
    Later, Lines, Recovered, judge_recovered, judge_without_journal, recovered_on,
};
use crate::resizing::{case_by, run_on};
use crate::trying::Counts;
use anyhow::{Result, bail};
use case_judging::{bitmap_of, form_of, has_empty_journal, numbers_of};
use case_running::{Command, is_bitmapped, is_direct, is_journaled, is_keyed};
use case_text::Case;
use std::alloc::Global;

/// What runs of a case are judged by whose opening changes the image.
#[derive(Drop)]
pub enum Changed {
    /// The image is refused: the disk stays as it is.
    Refused,
    /// Its journal becomes a bitmap.
    ToBitmap(Changing),
    /// Its bitmap becomes a journal.
    ToJournal(Changing),
}

/// What is left of runs of a case whose opening changes the image.
#[derive(Drop)]
pub struct Changing {
    /// What is left with a journal: the blocks of the image that each run begins with, or those of the script.
    journaled: Recovered,
    /// What is left with a bitmap: likewise.
    bitmapped: Bitmapped,
    /// The image that the undisturbed opening makes.
    made: Vec<u8>,
}

/// The words of later runs in journal and in direct mode, behind the mode.
const CONSENTING: &str = " --integrity-legacy-recalculate";

const KEYED: &str =
    " --integrity hmac-sha256 --integrity-key-file key --integrity-legacy-recalculate";

/// What no line is.
const NO_LINE: Lines<'static> = Lines {
    script: "",
    text: "",
};

/// What runs of a case are judged by whose mode is not that of the image that they begin with.
///
/// # Errors
///
/// The undisturbed opening has not made a bitmap without a set bit, or an empty journal of commit number 0, or has not
/// kept the blocks with their tags.
pub fn changed_by<C: Command>(
    alloc: Global,
    command: &C,
    case: &Case,
    base: &[u8],
    lines: Lines<'_>,
) -> Result<Option<Changed>> {
    let has_bitmap = bitmap_of(base).is_some();
    let is_other_mode = if has_bitmap {
        is_journaled(case) || is_direct(case)
    } else {
        is_bitmapped(case) && form_of(base).blocks > 0
    };
    if !is_other_mode {
        return Ok(None);
    }
    let opening = case_by(alloc, case, "run")?;
    let opened = run_on(alloc, command, &opening, base)?;
    if opened.status != 0 {
        return Ok(Some(Changed::Refused));
    }
    let made = Vec::from_slice(alloc, opened.disk.bytes())?;
    Ok(Some(if has_bitmap {
        Changed::ToJournal(to_journal(alloc, command, case, base, made, lines)?)
    } else {
        Changed::ToBitmap(to_bitmap(alloc, command, case, base, made, lines.script)?)
    }))
}

/// What is left of runs whose opening makes this image of one with a journal.
fn to_bitmap<C: Command>(
    alloc: Global,
    command: &C,
    case: &Case,
    base: &[u8],
    made: Vec<u8>,
    script: &str,
) -> Result<Changing> {
    let Some(bitmapped) = bitmapped_by(alloc, case, &made, script)? else {
        bail!("an opening in bitmap mode has made no bitmap");
    };
    let journaled = journaled_on(alloc, command, case, base, NO_LINE)?;
    if !has_clear_bitmap(&made) || !journaled.is_same_behind(&made) {
        bail!("an opening in bitmap mode has not kept the blocks with their tags, or a bit is set");
    }
    Ok(Changing {
        journaled,
        bitmapped,
        made,
    })
}

/// What is left of runs whose opening makes this image of one with a bitmap.
fn to_journal<C: Command>(
    alloc: Global,
    command: &C,
    case: &Case,
    base: &[u8],
    made: Vec<u8>,
    lines: Lines<'_>,
) -> Result<Changing> {
    let Some(bitmapped) = bitmapped_on(alloc, case, base, "")? else {
        bail!("an image with a bitmap has none");
    };
    if !has_new_journal(alloc, &made)? || !bitmapped.is_same_behind(&made) {
        bail!("an opening has not kept the blocks with their tags, or the journal is not empty");
    }
    let journaled = journaled_on(alloc, command, case, &made, lines)?;
    Ok(Changing {
        journaled,
        bitmapped,
        made,
    })
}

/// Whether an image has an empty journal of commit number 0.
fn has_new_journal(alloc: Global, image: &[u8]) -> Result<bool> {
    let form = form_of(image);
    let numbers = numbers_of(alloc, &form, image)?;
    Ok(numbers.first() == Some(&0) && has_empty_journal(alloc, &form, image)?)
}

/// What is left of lines that are run on an image with a journal, read under the key of a case, if it has one.
fn journaled_on<C: Command>(
    alloc: Global,
    command: &C,
    case: &Case,
    image: &[u8],
    lines: Lines<'_>,
) -> Result<Recovered> {
    let mut form = form_of(image);
    let mut words = CONSENTING;
    if is_keyed(case) {
        form = form.under(&case.key);
        words = KEYED;
    }
    let later = Later::by_words(alloc, &form, words, &case.key)?;
    recovered_on(alloc, command, case, form, image, lines, later)
}

/// Looks at an image of what a run left that has printed a text. Before the flag of the first sector changes no line
/// has begun, and it has the blocks that the run began with, in every mode. Behind that it is judged as behind a run
/// that began with the image that the opening makes.
pub fn judge_changed<C: Command>(
    alloc: Global,
    command: &C,
    counts: &mut Counts,
    changed: &Changed,
    base: &[u8],
    left: &[u8],
    text: &str,
) -> Result<()> {
    let has_bitmap = bitmap_of(left).is_some();
    let (changing, was_bitmap) = match changed {
        Changed::Refused => {
            if left != base {
                bail!("an image that is refused has changed");
            }
            return Ok(());
        }
        Changed::ToBitmap(changing) => (changing, false),
        Changed::ToJournal(changing) => (changing, true),
    };
    if has_bitmap == was_bitmap && tells_line(text) {
        bail!("a line is told before the image is that of its mode");
    }
    if has_bitmap {
        judge_bitmap(
            alloc, command, counts, changing, was_bitmap, base, left, text,
        )
    } else {
        judge_journal(
            alloc, command, counts, changing, was_bitmap, base, left, text,
        )
    }
}

/// Looks at an image that is left and has a bitmap, as the image that the run began with had, or had not.
fn judge_bitmap<C: Command>(
    alloc: Global,
    command: &C,
    counts: &mut Counts,
    changing: &Changing,
    was_bitmap: bool,
    base: &[u8],
    left: &[u8],
    text: &str,
) -> Result<()> {
    let Changing {
        journaled,
        bitmapped,
        made,
    } = changing;
    if !was_bitmap {
        return judge_bitmap_left(alloc, command, counts, bitmapped, made, left, text);
    }
    judge_bitmap_kept(alloc, command, counts, bitmapped, base, left)?;
    judge_without_journal(alloc, command, counts, journaled, left)
}

/// Looks at an image that is left and has a journal, where the image that the run began with had a bitmap, or a journal
/// too.
fn judge_journal<C: Command>(
    alloc: Global,
    command: &C,
    counts: &mut Counts,
    changing: &Changing,
    was_bitmap: bool,
    base: &[u8],
    left: &[u8],
    text: &str,
) -> Result<()> {
    let Changing {
        journaled,
        bitmapped,
        made,
    } = changing;
    if was_bitmap {
        return judge_recovered(alloc, command, counts, journaled, made, left, text);
    }
    judge_recovered(alloc, command, counts, journaled, base, left, text)?;
    judge_unmade(alloc, command, counts, bitmapped, made, left)
}

/// Whether a text has the reply of a line of a script.
fn tells_line(text: &str) -> bool {
    let is_fault = text.starts_with("fault ") && !text.starts_with("fault block ");
    !text.is_empty() && !is_fault
}
