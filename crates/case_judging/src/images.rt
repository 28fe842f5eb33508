//! The images that the lines of a script give, and what a cut of its run leaves of them.
use crate::Wrong;
use crate::form::{Form, run_at};
use crate::judging::{is_skipped, told_lines, written_by};
use std::alloc::{AllocError, Global};

/// Which images a cut leaves blocks of, while so many lines are told.
#[derive(Clone, Copy)]
struct Reach {
    /// The one that the last flush has settled, or the last write with `fua`.
    settled: usize,
    /// One behind the last that a line has begun to make.
    end: usize,
    /// Whether a line has started a write.
    has_started: bool,
}

/// The image that the runs of a script begin with, and behind it what each write gives.
#[derive(Drop)]
pub struct Images {
    form: Form,
    images: Vec<Vec<u8>>,
    /// Of each number of lines that are told: the next one may have begun.
    reaches: Vec<Reach>,
}

impl Images {
    /// The images of a script whose runs begin with these bytes, of an image of a form.
    ///
    /// A write may be begun as soon as it is started. Where a script has started one, a flush may come
    /// before it is done, and so nothing is settled.
    pub fn of_script(
        alloc: Global,
        form: Form,
        base: &[u8],
        script: &str,
    ) -> Result<Images, AllocError> {
        let mut all = Images {
            form,
            images: Vec::new(alloc),
            reaches: Vec::new(alloc),
        };
        all.images.push(Vec::from_slice(alloc, base)?)?;
        let mut reach = Reach {
            settled: 0,
            end: 1,
            has_started: false,
        };
        for line in script.split('\n') {
            if !is_skipped(line) {
                reach = all.run_line(alloc, reach, line)?;
            }
        }
        all.reaches.push(reach)?;
        Ok(all)
    }

    /// Runs a line, and tells what may be left behind it.
    fn run_line(&mut self, alloc: Global, before: Reach, line: &str) -> Result<Reach, AllocError> {
        let (line, has_started) = match line.strip_prefix("start ") {
            Some(started) => (started, true),
            None => (line, before.has_started),
        };
        add_write(alloc, &self.form, &mut self.images, line)?;
        let end = self.images.len();
        let settled = before.settled;
        self.reaches.push(Reach {
            settled,
            end,
            has_started,
        })?;
        let is_flushed = line == "flush" || line.ends_with(" fua");
        let is_settled = is_flushed && !has_started;
        Ok(Reach {
            settled: if is_settled {
                end.saturating_sub(1)
            } else {
                settled
            },
            end,
            has_started,
        })
    }

    /// The images of which a cut leaves each block's data and tag from any, where a run has printed this text: what
    /// the last flush has settled that it tells, and behind it what each later write gives, up to the one that may
    /// have begun.
    pub(crate) fn left_by(&self, text: &str) -> &[Vec<u8>] {
        let reach = match (self.reaches.get(told_lines(text)), self.reaches.last()) {
            (Some(reach), _) => *reach,
            (None, Some(reach)) => *reach,
            (None, None) => return &[],
        };
        let first = if text.ends_with("closed\n") && !reach.has_started {
            reach.end.saturating_sub(1)
        } else {
            reach.settled
        };
        match self.images.as_slice().get(first..reach.end) {
            Some(images) => images,
            None => &[],
        }
    }
}

/// Adds the last image with what a line writes, if it is a `fill` or a `write`.
fn add_write(
    alloc: Global,
    form: &Form,
    images: &mut Vec<Vec<u8>>,
    line: &str,
) -> Result<(), AllocError> {
    let Some((first, bytes)) = written_by(alloc, form, line)? else {
        return Ok(());
    };
    if let Some(last) = images.last() {
        let mut image = Vec::from_slice(alloc, last)?;
        for (k, block) in (first..form.blocks).enumerate() {
            let data = run_at(&bytes, k.saturating_mul(form.size()), form.size());
            if data.is_empty() {
                break;
            }
            let digest = form.digest_of(block, data);
            form.put_block(&mut image, block, data, form.tag_in(&digest));
        }
        images.push(image)?;
    }
    Ok(())
}

/// Looks at the bytes of what is left of a run that has printed a text: the data of each block, and its tag, are those
/// of one of the images, and all else is as in the first of them.
pub fn judge_left(alloc: Global, images: &Images, left: &[u8], text: &str) -> Result<(), Wrong> {
    let form = &images.form;
    let images = images.left_by(text);
    let Some(settled) = images.first() else {
        return Ok(());
    };
    let mut rest = Vec::from_slice(alloc, left)?;
    for block in 0..form.blocks {
        judge_block(form, images, left, block)?;
        let (data, tag) = (form.data_of(settled, block), form.tag_of(settled, block));
        form.put_block(&mut rest, block, data, tag);
    }
    if rest != *settled {
        return Err(Wrong::Run("a sector has changed where no block and no tag stands"));
    }
    Ok(())
}

/// Looks at the data of a block that is left, and at its tag.
fn judge_block(form: &Form, images: &[Vec<u8>], left: &[u8], block: u64) -> Result<(), Wrong> {
    let (data, tag) = (form.data_of(left, block), form.tag_of(left, block));
    let mut has_data = false;
    let mut has_tag = false;
    for image in images {
        has_data = has_data || form.data_of(image, block) == data;
        has_tag = has_tag || form.tag_of(image, block) == tag;
    }
    if !has_data {
        return Err(Wrong::Block {
            block,
            what: "it holds what it was not to hold",
        });
    }
    if !has_tag {
        return Err(Wrong::Block {
            block,
            what: "the tag is not that of what it was to hold",
        });
    }
    Ok(())
}
