//! Looks at what a run has left whose journal plays a part: by the blocks of each image with its journal, and by what
//! later runs on the image read and leave.
use crate::reads::Reads;
use crate::trying::Counts;
use anyhow::{Result, bail};
use case_judging::{
    Form, Images, Known, Reading, Writes, behind_journal, form_of, has_empty_journal,
    is_recalculating, is_same_outside_journal, judge_left, judge_position, with_journal_placed,
    with_tags_made,
};
use case_running::{Command, Ended, is_journaled};
use case_text::Case;
use std::alloc::Global;

/// What runs of a case are judged by whose journal plays a part.
#[derive(Drop)]
pub struct Recovered {
    /// The image that each run begins with, with its journal's entries in their places, and its tags.
    base: Known,
    judged: Judged,
    script: String,
    /// Which reads recalculate, where tags of it are to be made anew.
    position: Option<Reading>,
    later: Later,
}

/// Reads of all blocks of what is left, in journal mode and in direct mode.
#[derive(Drop)]
pub(crate) struct Later {
    journaled: Reads,
    direct: Reads,
}

impl Later {
    /// These of an image of a form by runs with a key, whose words behind the mode are others.
    pub(crate) fn by_words(alloc: Global, form: &Form, others: &str, key: &[u8]) -> Result<Later> {
        Ok(Later {
            journaled: Reads::by_words(alloc, form, "J", others, key)?,
            direct: Reads::by_words(alloc, form, "D", others, key)?,
        })
    }
}

/// A script, and what its undisturbed run has printed.
#[derive(Clone, Copy)]
pub(crate) struct Lines<'l> {
    pub(crate) script: &'l str,
    pub(crate) text: &'l str,
}

/// What is to be left of the blocks.
#[derive(Drop)]
enum Judged {
    /// The journal is refused: the disk stays as it is.
    Refused,
    /// Those after some prefix of the writes, in journal mode.
    Journaled(Writes),
    /// Those of the images, in direct mode.
    Direct(Images),
}

/// What runs of a case recover whose undisturbed run has printed a text, if the journal plays a part: the case is in
/// journal mode, or runs on an image with a journal that is not empty, or with tags that are to be made anew.
pub fn recovered_by<C: Command>(
    alloc: Global,
    command: &C,
    case: &Case,
    base: &[u8],
    script: &str,
    text: &str,
) -> Result<Option<Recovered>> {
    let form = form_of(base);
    let is_direct = !is_journaled(case);
    let is_plain = is_direct && !is_recalculating(base);
    if form.blocks == 0 || (is_plain && has_empty_journal(alloc, &form, base)?) {
        return Ok(None);
    }
    let later = Later::by_words(alloc, &form, "", &[])?;
    let lines = Lines { script, text };
    Ok(Some(recovered_on(alloc, command, case, form, base, lines, later)?))
}

/// What runs of a case recover on an image of a form, where later runs read so what is left.
pub(crate) fn recovered_on<C: Command>(
    alloc: Global,
    command: &C,
    case: &Case,
    form: Form,
    base: &[u8],
    lines: Lines<'_>,
    later: Later,
) -> Result<Recovered> {
    let opened = later.journaled.run_alone(alloc, command, base)?;
    let position = reading_on(base, !is_journaled(case));
    let base = with_all_placed(alloc, &form, base, position)?;
    let judged = if is_refused(&opened) {
        Judged::Refused
    } else {
        judged_by(alloc, case, form, &base, lines)?
    };
    Ok(Recovered {
        base: Known::new(alloc, form, base)?,
        judged,
        script: lines.script.to_string(alloc)?,
        position,
        later,
    })
}

impl Recovered {
    /// Whether another image has the blocks of the one that each run begins with, and their tags, in their places.
    pub(crate) fn is_same_behind(&self, other: &[u8]) -> bool {
        let form = &self.base.form;
        behind_journal(form, self.base.bytes()) == behind_journal(form, other)
    }
}

/// Which reads of a run recalculate, where tags of the image that it begins with are to be made anew.
fn reading_on(base: &[u8], is_direct: bool) -> Option<Reading> {
    match is_recalculating(base) {
        true if is_direct => Some(Reading::All),
        true => Some(Reading::Placed),
        false => None,
    }
}

/// An image with the entries of its journal in their places, and where tags are to be made anew with those made that
/// its position still names.
fn with_all_placed(
    alloc: Global,
    form: &Form,
    image: &[u8],
    position: Option<Reading>,
) -> Result<Vec<u8>> {
    let placed = with_journal_placed(alloc, form, image)?;
    if position.is_none() {
        return Ok(placed);
    }
    Ok(with_tags_made(alloc, form, &placed)?)
}

/// What the blocks are judged by that are left of a script.
fn judged_by(
    alloc: Global,
    case: &Case,
    form: Form,
    base: &[u8],
    lines: Lines<'_>,
) -> Result<Judged> {
    let Lines { script, text } = lines;
    if is_journaled(case) {
        let writes = Writes::of_script(alloc, form, script, text)?;
        return Ok(Judged::Journaled(writes));
    }
    Ok(Judged::Direct(Images::of_script(alloc, form, base, script)?))
}

/// Whether a run has told that its image is refused.
fn is_refused(ended: &Ended) -> bool {
    ended.status == 3 && ended.text.as_str().starts_with("fault image ")
}

/// Looks at an image of what a run left that has printed a text. Its blocks, with the entries of its journal in their
/// places, are those after a prefix of the writes, or in direct mode those of the images. A run in journal mode reads
/// the same, and leaves them in their places. So does one in direct mode, of every fourth image, and it empties the
/// journal.
pub fn judge_recovered<C: Command>(
    alloc: Global,
    command: &C,
    counts: &mut Counts,
    recovered: &Recovered,
    base: &[u8],
    left: &[u8],
    text: &str,
) -> Result<()> {
    let form = &recovered.base.form;
    let blocks = with_all_placed(alloc, form, left, recovered.position)?;
    match &recovered.judged {
        Judged::Refused => {
            return judge_refused(alloc, command, counts, recovered, base, left);
        }
        Judged::Journaled(writes) => {
            writes.judge(alloc, recovered.base.bytes(), &blocks, text)?;
        }
        Judged::Direct(images) => judge_left(alloc, images, &blocks, text)?,
    }
    if let Some(reading) = recovered.position {
        judge_position(alloc, base, left, recovered.script.as_str(), text, reading)?;
    }
    judge_later(alloc, command, counts, recovered, left, &blocks)
}

/// Looks at an image that is left and has no journal yet, where the undisturbed opening makes the one that runs begin
/// with. Later runs read its blocks, and make the same of it outside of the journal.
pub(crate) fn judge_without_journal<C: Command>(
    alloc: Global,
    command: &C,
    counts: &mut Counts,
    recovered: &Recovered,
    left: &[u8],
) -> Result<()> {
    judge_later(
        alloc,
        command,
        counts,
        recovered,
        left,
        recovered.base.bytes(),
    )
}

/// Reads all blocks of what is left in journal mode, and of every fourth image in direct mode too, which empties the
/// journal.
fn judge_later<C: Command>(
    alloc: Global,
    command: &C,
    counts: &mut Counts,
    recovered: &Recovered,
    left: &[u8],
    blocks: &[u8],
) -> Result<()> {
    let reads = &recovered.later.journaled;
    read_again(alloc, command, counts, recovered, reads, left, blocks)?;
    if counts.images % 4 != 0 {
        return Ok(());
    }
    let reads = &recovered.later.direct;
    let after = read_again(alloc, command, counts, recovered, reads, left, blocks)?;
    if !has_empty_journal(alloc, &recovered.base.form, after.disk.bytes())? {
        bail!("direct mode has not emptied the journal");
    }
    Ok(())
}

/// Looks at what is left of an image whose journal is refused: it is as it was, and is refused again.
fn judge_refused<C: Command>(
    alloc: Global,
    command: &C,
    counts: &mut Counts,
    recovered: &Recovered,
    base: &[u8],
    left: &[u8],
) -> Result<()> {
    if left != base {
        bail!("an image that is refused has changed");
    }
    counts.runs = counts.runs.saturating_add(1);
    let again = recovered.later.journaled.run_alone(alloc, command, left)?;
    if !is_refused(&again) {
        bail!("an image that was refused is opened");
    }
    Ok(())
}

/// Reads all blocks of what is left, and gives the run that does. The blocks are in their places behind it, and no tag
/// of them is to be made anew.
fn read_again<C: Command>(
    alloc: Global,
    command: &C,
    counts: &mut Counts,
    recovered: &Recovered,
    reads: &Reads,
    image: &[u8],
    blocks: &[u8],
) -> Result<Ended> {
    counts.runs = counts.runs.saturating_add(1);
    let again = reads.judge(alloc, command, &recovered.base, image, blocks)?;
    let after = again.disk.bytes();
    if is_recalculating(after) {
        bail!("tags are to be made anew behind a run that has read all blocks");
    }
    let form = &recovered.base.form;
    let is_same = match recovered.position {
        Some(_) => is_same_outside_journal(form, &with_tags_made(alloc, form, after)?, blocks),
        None => is_same_outside_journal(form, after, blocks),
    };
    if !is_same {
        bail!("a run on what is left does not bring it to its places");
    }
    Ok(again)
}
