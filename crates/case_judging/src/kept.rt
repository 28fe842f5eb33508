//! What a cut leaves of an opening that makes a journal of a bitmap, while the image still has the bitmap.
use crate::Wrong;
use crate::bitmap::Bitmap;
use crate::bitmapped::judge_bitmapped;
use crate::form::{SECTOR, put_at, run_at};
use crate::images::Images;
use crate::journal::put_empty;
use crate::marks::judge_bits;
use std::alloc::{AllocError, Global};

/// Looks at an image with a bitmap that is left of an opening which makes a journal of it. The images are those of no
/// line, on the one that reads as the image did at first.
///
/// No bit is set that was clear. Each block has its data, and its tag where its bit is clear. Once no bit is set, a
/// sector of the journal's place behind the bitmap may be an empty one of commit number 0. All else is as it was.
pub fn judge_kept(
    alloc: Global,
    bitmap: &Bitmap,
    images: &Images,
    base: &[u8],
    left: &[u8],
) -> Result<(), Wrong> {
    judge_bits(alloc, bitmap, base, left, "", "")?;
    let rest = with_rest_of(alloc, bitmap, base, left)?;
    if rest.as_slice() != left && bitmap.has_set(left) {
        return Err(Wrong::Run("the journal is emptied while a bit is set"));
    }
    judge_bitmapped(alloc, bitmap, images, base, &rest, "")
}

/// An image where each empty sector of commit number 0, of the journal's place behind the bitmap, is that of another.
fn with_rest_of(
    alloc: Global,
    bitmap: &Bitmap,
    base: &[u8],
    left: &[u8],
) -> Result<Vec<u8>, AllocError> {
    let form = &bitmap.form;
    let mut empty = Vec::from_slice(alloc, left)?;
    let mut rest = Vec::from_slice(alloc, left)?;
    for section in 0..form.sections {
        for sector in 0..form.width {
            let at = form.section_at(section, sector);
            put_empty(form, &mut empty, section, sector, 0);
            if at >= bitmap.end() && run_at(left, at, SECTOR) == run_at(&empty, at, SECTOR) {
                put_at(&mut rest, at, run_at(base, at, SECTOR));
            }
        }
    }
    Ok(rest)
}
