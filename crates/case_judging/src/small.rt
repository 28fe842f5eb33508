//! The small image: an empty journal, and 80 blocks of 512 zero bytes with their tags.
use crate::form::{form_of, put_at};
use crate::journal::put_fresh;
use std::alloc::{AllocError, Global};

/// How many bytes the disk of a small image has at least.
const SIZE: usize = 131_072;

/// The first 32 bytes of a small image. As many zeros follow.
///
/// Source: Linux, drivers/md/dm-integrity.c, struct superblock.
const SUPERBLOCK: [u8; 32] = [
    b'i', b'n', b't', b'e', b'g', b'r', b't', 0, 4, 3, 32, 0, 1, 0, 0, 0, 80, 0, 0, 0, 0, 0, 0, 0,
    8, 0, 0, 0, 0, 15, 0, 0,
];

/// The bytes of the small image.
pub fn small_image(alloc: Global) -> Result<Vec<u8>, AllocError> {
    let mut bytes = vec![in alloc; 0; SIZE]?;
    put_at(&mut bytes, 0, &SUPERBLOCK);
    let form = form_of(&bytes);
    put_fresh(&form, &mut bytes);
    Ok(bytes)
}
