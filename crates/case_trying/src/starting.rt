//! The disk that a case begins with.
use anyhow::{Result, bail};
use case_judging::{form_of, put_at, put_empty, put_fresh, put_sector};
use case_running::image_left;
use case_text::{Edit, Start};
use cut_disk::CutDisk;
use std::alloc::Global;

/// The bytes of a disk that a case begins with, with edits of it.
pub fn base_of(
    alloc: Global,
    small: &[u8],
    left: &Option<CutDisk>,
    start: Start,
    edits: &[Edit],
) -> Result<Vec<u8>> {
    let mut bytes = match start {
        Start::Small { sectors } => {
            let mut bytes = Vec::from_slice(alloc, small)?;
            bytes.resize((sectors as usize).saturating_mul(512), 0)?;
            bytes
        }
        Start::Zeros { sectors } => vec![in alloc; 0; (sectors as usize).saturating_mul(512)]?,
        Start::ImageOfLeft(candidates) => match left {
            Some(left) => image_left(alloc, left, candidates)?,
            None => bail!("no case has left a disk"),
        },
        Start::Left => bail!("a disk that was left has no bytes of its own"),
    };
    for edit in edits {
        edit_bytes(&mut bytes, edit)?;
    }
    Ok(bytes)
}

/// Changes bytes of a disk. A section of a journal is one of the superblock that stands there.
pub fn edit_bytes(image: &mut [u8], edit: &Edit) -> Result<()> {
    match edit {
        Edit::Put { at, byte, bytes } => {
            let from = at.saturating_mul(512).saturating_add(*byte) as usize;
            put_at(image, from, bytes);
        }
        Edit::Flip { at, byte, bit } => flip_byte(image, *at, *byte, 1 << (*bit % 8))?,
        Edit::Number { at, count, number } => {
            for k in 0..*count {
                put_number(image, at.saturating_add(k), *number)?;
            }
        }
        Edit::Journal {
            section,
            sector,
            count,
            number,
            bytes,
        } => {
            for k in 0..*count {
                put_journal(image, *section, sector.saturating_add(k), *number, bytes);
            }
        }
        Edit::Fresh => {
            let form = form_of(image);
            put_fresh(&form, image);
        }
    }
    Ok(())
}

/// Puts a sector of a section of the journal, without a used entry where there are no bytes for it.
fn put_journal(image: &mut [u8], section: u64, sector: u64, number: u64, bytes: &[u8]) {
    let form = form_of(image);
    if bytes.is_empty() {
        put_empty(&form, image, section, sector, number);
    } else {
        put_sector(&form, image, section, sector, number, bytes);
    }
}

/// Flips these bits of a byte of a sector.
fn flip_byte(bytes: &mut [u8], at: u64, byte: u64, flipped: u8) -> Result<()> {
    let from = at.saturating_mul(512).saturating_add(byte) as usize;
    let Some(place) = bytes.get_mut(from) else {
        bail!("the disk has no byte {byte} of sector {at}");
    };
    *place ^= flipped;
    Ok(())
}

/// Gives a sector of a journal this commit number in place of 0: the pattern of a number stands in each of the last
/// eight bytes, combined by exclusive or with the place of the sector.
///
/// Source: Linux, `drivers/md/dm-integrity.c`, `dm_integrity_commit_id`.
fn put_number(bytes: &mut [u8], at: u64, number: u64) -> Result<()> {
    let pattern: u8 = match number % 4 {
        0 => 0x11,
        1 => 0x22,
        2 => 0x33,
        _ => 0x44,
    };
    for byte in 504..512 {
        flip_byte(bytes, at, byte, 0x11 ^ pattern)?;
    }
    Ok(())
}
