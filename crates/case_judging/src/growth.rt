//! What must hold of what is left of the resize of an image.
use crate::Wrong;
use crate::bitmap::{Bitmap, bitmap_of};
use crate::form::{Form, form_of, run_at};
use crate::journal::{is_same_outside_journal, with_journal_placed};
use std::alloc::{AllocError, Global};

/// Where things lie on an image with a journal, or with a bitmap in its place.
#[derive(Clone, Copy)]
enum Layout {
    Journal(Form),
    Bitmap(Bitmap),
}

/// Which image is left of a resize.
#[derive(Clone, Copy)]
pub enum Provides {
    /// The one that it began with, with the entries of its journal in their places or not.
    Before,
    /// The one that it is to make.
    After,
}

/// An image that is resized, and the one that this makes of it.
#[derive(Drop)]
pub struct Growth {
    before: Layout,
    after: Layout,
    /// The image with the entries of its journal in their places.
    base: Vec<u8>,
    resized: Vec<u8>,
}

impl Layout {
    fn of(bytes: &[u8]) -> Layout {
        match bitmap_of(bytes) {
            Some(bitmap) => Layout::Bitmap(bitmap),
            None => Layout::Journal(form_of(bytes)),
        }
    }

    fn form(&self) -> &Form {
        match self {
            Layout::Journal(form) => form,
            Layout::Bitmap(bitmap) => &bitmap.form,
        }
    }

    /// The image with the entries of its journal in their places, and zeros in place of the journal.
    fn placed(&self, alloc: Global, image: &[u8]) -> Result<Vec<u8>, AllocError> {
        match self {
            Layout::Journal(form) => with_journal_placed(alloc, form, image),
            Layout::Bitmap(_) => Vec::from_slice(alloc, image),
        }
    }
}

impl Growth {
    /// The resize of an image that makes another one of it.
    pub fn new(alloc: Global, base: &[u8], resized: &[u8]) -> Result<Growth, AllocError> {
        let before = Layout::of(base);
        Ok(Growth {
            before,
            after: Layout::of(resized),
            base: before.placed(alloc, base)?,
            resized: Vec::from_slice(alloc, resized)?,
        })
    }

    /// Looks at the bytes of what is left: they are those of the resized image; or its first sector is that of before,
    /// and so is all else but the journal, and the data and the tags of new blocks and the bits of new regions.
    pub fn judge(&self, alloc: Global, left: &[u8]) -> Result<Provides, Wrong> {
        if left == self.resized.as_slice() {
            return Ok(Provides::After);
        }
        if run_at(left, 0, 512) != run_at(&self.base, 0, 512) {
            return Err(Wrong::Run("the first sector tells of blocks that are not all there"));
        }
        let mut rest = self.before.placed(alloc, left)?;
        self.take_back(&mut rest);
        self.take_back_bits(alloc, &mut rest)?;
        if rest != self.base {
            return Err(Wrong::Run("a sector has changed where no new block stands"));
        }
        Ok(Provides::Before)
    }

    /// Puts what stood before in the place of each new block, and of its tag.
    fn take_back(&self, image: &mut [u8]) {
        let form = self.after.form();
        for block in self.before.form().blocks..form.blocks {
            let data = form.data_of(&self.base, block);
            form.put_block(image, block, data, form.tag_of(&self.base, block));
        }
    }

    /// Puts the bitmap of before, where the bits of all regions of before are as they were.
    fn take_back_bits(&self, alloc: Global, image: &mut [u8]) -> Result<(), Wrong> {
        let (Layout::Bitmap(before), Layout::Bitmap(after)) = (&self.before, &self.after) else {
            return Ok(());
        };
        if before.bits_of(alloc, image)? != before.bits_of(alloc, &self.base)? {
            return Err(Wrong::Run("the bit of an old region has changed"));
        }
        after.judge_unused(&self.base, image)?;
        after.put_bits(image, &self.base);
        Ok(())
    }

    /// Looks at an image that is resized again: it is the resized one, but for a journal that is at rest, and all
    /// entries of that are in their places.
    pub fn judge_again(&self, alloc: Global, again: &[u8]) -> Result<(), Wrong> {
        let is_same = match &self.after {
            Layout::Journal(form) => {
                let placed = with_journal_placed(alloc, form, again)?;
                is_same_outside_journal(form, again, &self.resized)
                    && is_same_outside_journal(form, again, &placed)
            }
            Layout::Bitmap(_) => again == self.resized.as_slice(),
        };
        if !is_same {
            return Err(Wrong::Run("a second resize does not make the image of the first"));
        }
        Ok(())
    }
}
