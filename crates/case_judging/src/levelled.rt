//! What the levelling of two images makes of them, by its rule and the tags alone.
use crate::form::Form;
use std::alloc::{AllocError, Global};

/// Two images behind a levelling, with no journal, and the blocks that it has written to each.
#[derive(Drop)]
pub struct Levelled {
    pub first: Vec<u8>,
    pub second: Vec<u8>,
    pub to_first: Vec<u64>,
    pub to_second: Vec<u64>,
}

impl Levelled {
    /// What becomes of these images, of two forms with as many blocks, whose journals are placed: a block that has the
    /// tag of its data on one alone is written to the other, and one that has it on both is that of the first.
    pub fn of(
        alloc: Global,
        forms: (Form, Form),
        first: &[u8],
        second: &[u8],
    ) -> Result<Levelled, AllocError> {
        let mut all = Levelled {
            first: Vec::from_slice(alloc, first)?,
            second: Vec::from_slice(alloc, second)?,
            to_first: Vec::new(alloc),
            to_second: Vec::new(alloc),
        };
        for block in 0..forms.0.blocks {
            let (one, other) = (
                forms.0.data_of(first, block),
                forms.1.data_of(second, block),
            );
            let is_other_good = has_its_tag(&forms.1, second, block);
            if has_its_tag(&forms.0, first, block) {
                if !is_other_good || one != other {
                    put_whole(&forms.1, &mut all.second, block, one);
                    all.to_second.push(block)?;
                }
            } else if is_other_good {
                put_whole(&forms.0, &mut all.first, block, other);
                all.to_first.push(block)?;
            }
        }
        Ok(all)
    }

    /// How many blocks it has written.
    pub fn count(&self) -> usize {
        self.to_first.len().saturating_add(self.to_second.len())
    }
}

/// Whether a block of an image has the tag of its data.
fn has_its_tag(form: &Form, image: &[u8], block: u64) -> bool {
    let digest = form.digest_of(block, form.data_of(image, block));
    form.tag_of(image, block) == form.tag_in(&digest)
}

/// Puts the data of a block, and their tag.
fn put_whole(form: &Form, image: &mut [u8], block: u64, data: &[u8]) {
    let digest = form.digest_of(block, data);
    form.put_block(image, block, data, form.tag_in(&digest));
}
