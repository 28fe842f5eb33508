//! What a cut of a run in bitmap mode leaves: each sector of a block from any image, and whole blocks with their tags
//! where the bit of their region is clear.
use crate::Wrong;
use crate::bitmap::Bitmap;
use crate::form::{Form, SECTOR, run_at};
use crate::images::Images;
use std::alloc::Global;

/// Looks at the bytes of what is left of a run that began with an image and has printed a text. The images are those
/// of the script on the one that reads as it. Each sector of a block is that of one of them; where the bit of the
/// block's region is clear, so is the block as a whole, with its tag. All else but the bits is as it was.
pub fn judge_bitmapped(
    alloc: Global,
    bitmap: &Bitmap,
    images: &Images,
    base: &[u8],
    left: &[u8],
    text: &str,
) -> Result<(), Wrong> {
    let form = &bitmap.form;
    let images = images.left_by(text);
    let mut rest = Vec::from_slice(alloc, left)?;
    for block in 0..form.blocks {
        if bitmap.is_dirty(left, block) {
            judge_sectors(form, images, left, block)?;
        } else {
            judge_whole(form, images, left, block)?;
        }
        let (data, tag) = (form.data_of(base, block), form.tag_of(base, block));
        form.put_block(&mut rest, block, data, tag);
    }
    bitmap.put_bits(&mut rest, base);
    if rest.as_slice() != base {
        return Err(Wrong::Run("a sector has changed where no bit, no block and no tag stands"));
    }
    bitmap.judge_unused(base, left)
}

/// Looks at a block that is left whose tag may be any: each sector of it is that of one of the images.
fn judge_sectors(form: &Form, images: &[Vec<u8>], left: &[u8], block: u64) -> Result<(), Wrong> {
    for (k, sector) in form.data_of(left, block).chunks(SECTOR).enumerate() {
        let from = k.saturating_mul(SECTOR);
        let is_of = |image: &Vec<u8>| run_at(form.data_of(image, block), from, SECTOR) == sector;
        if !images.iter().any(is_of) {
            return Err(Wrong::Block {
                block,
                what: "a sector of it holds what it was not to hold",
            });
        }
    }
    Ok(())
}

/// Looks at a block that is left, and at its tag: both are those of one image.
fn judge_whole(form: &Form, images: &[Vec<u8>], left: &[u8], block: u64) -> Result<(), Wrong> {
    let (data, tag) = (form.data_of(left, block), form.tag_of(left, block));
    let is_of = |image: &Vec<u8>| form.data_of(image, block) == data
        && form.tag_of(image, block) == tag;
    if !images.iter().any(is_of) {
        return Err(Wrong::Block {
            block,
            what: "its bit is clear, and it is not what it was to be, with its tag",
        });
    }
    Ok(())
}
