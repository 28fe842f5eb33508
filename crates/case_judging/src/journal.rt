//! The journal of an image: its commit numbers, which of its sections count, and their entries.
use crate::form::{ENTRY_SECTORS, Form, SECTOR, number_in, put_at, run_at};
use std::alloc::{AllocError, Global};

/// What the ids of the four commit numbers begin as.
///
/// Source: Linux, drivers/md/dm-integrity.c, `dm_integrity_ctr`.
const PATTERNS: [u64; 4] = [
    0x1111_1111_1111_1111,
    0x2222_2222_2222_2222,
    0x3333_3333_3333_3333,
    0x4444_4444_4444_4444,
];

/// An entry that is not used begins so. Its last four bytes tell that.
///
/// Source: Linux, drivers/md/dm-integrity.c, `journal_entry_set_unused`.
const UNUSED: [u8; 8] = [0, 0, 0, 0, 255, 255, 255, 255];

/// What the id of a sector of a section differs by from that of the first one.
///
/// Source: Linux, drivers/md/dm-integrity.c, `dm_integrity_commit_id`.
fn place_of(section: u64, sector: u64) -> u64 {
    section.wrapping_mul(0x1_0000_0000) ^ sector
}

/// The commit number of a sector of a section, or 4 where it has none.
fn number_of(form: &Form, image: &[u8], section: u64, sector: u64) -> u8 {
    let at = form.section_at(section, sector).saturating_add(504);
    let pattern = number_in(image, at, 8) ^ place_of(section, sector);
    let mut found = 4u8;
    for (number, other) in (0..4u8).zip(&PATTERNS) {
        if pattern == *other {
            found = number;
        }
    }
    found
}

/// The commit numbers of all sectors, section after section.
pub fn numbers_of(alloc: Global, form: &Form, image: &[u8]) -> Result<Vec<u8>, AllocError> {
    let mut numbers = Vec::new(alloc);
    for section in 0..form.sections {
        for sector in 0..form.width {
            numbers.push(number_of(form, image, section, sector))?;
        }
    }
    Ok(numbers)
}

/// The number before another one.
fn before(number: u8) -> u8 {
    number.saturating_add(3) % 4
}

/// The newest of these numbers: the smallest whose next one is not there. None where each number is there, or none is.
fn newest_of(numbers: &[u8]) -> Option<u8> {
    for newest in 0..4u8 {
        if numbers.contains(&newest) && !numbers.contains(&(newest.saturating_add(1) % 4)) {
            return Some(newest);
        }
    }
    None
}

/// The sections that count, in the order in which they were written: those behind the last one that has the newest
/// number, and then those from the first one on that have it wholly. Where the numbers are other ones than the newest
/// and the one before it, none counts.
///
/// Source: Linux, drivers/md/dm-integrity.c, `replay_journal`, and docs/FORMAT.md for what is this project's own.
fn walk_of(alloc: Global, form: &Form, image: &[u8]) -> Result<Vec<u64>, AllocError> {
    let mut walk = Vec::new(alloc);
    let numbers = numbers_of(alloc, form, image)?;
    let Some(newest) = newest_of(&numbers) else {
        return Ok(walk);
    };
    let is_known = |number: &u8| *number == newest || *number == before(newest);
    if !numbers.iter().all(is_known) {
        return Ok(walk);
    }
    let end = end_of(form, &numbers, newest);
    for section in end..form.sections {
        walk.push(section)?;
    }
    for section in 0..end {
        if section_of(form, &numbers, section).contains(&before(newest)) {
            break;
        }
        walk.push(section)?;
    }
    Ok(walk)
}

/// The section behind the last one that has a sector of this number.
fn end_of(form: &Form, numbers: &[u8], number: u8) -> u64 {
    let mut end = 0;
    for section in 0..form.sections {
        if section_of(form, numbers, section).contains(&number) {
            end = section.saturating_add(1);
        }
    }
    end
}

/// The numbers of a section's sectors.
fn section_of<'n>(form: &Form, numbers: &'n [u8], section: u64) -> &'n [u8] {
    let from = section.saturating_mul(form.width) as usize;
    run_at(numbers, from, form.width as usize)
}

/// The byte where an entry of a section begins.
///
/// Source: Linux, drivers/md/dm-integrity.c, `access_journal_entry`.
fn entry_at(form: &Form, section: u64, entry: u64) -> usize {
    let in_sector = (entry / ENTRY_SECTORS).saturating_mul(form.entry_size) as usize;
    form.section_at(section, entry % ENTRY_SECTORS)
        .saturating_add(in_sector)
}

/// Whether an entry that begins with this byte is used.
fn is_used(image: &[u8], from: usize) -> bool {
    run_at(image, from.saturating_add(4), 4) != &[255; 4][..]
}

/// How many entries of a journal are used.
pub fn count_used(form: &Form, image: &[u8]) -> u64 {
    let mut count = 0u64;
    for section in 0..form.sections {
        for entry in 0..form.entries {
            if is_used(image, entry_at(form, section, entry)) {
                count = count.saturating_add(1);
            }
        }
    }
    count
}

/// Whether no entry of the journal is used, and all its sectors bear one commit number.
pub fn has_empty_journal(alloc: Global, form: &Form, image: &[u8]) -> Result<bool, AllocError> {
    let numbers = numbers_of(alloc, form, image)?;
    let first = numbers.first().copied().unwrap_or(4);
    let is_first = |number: &u8| *number == first && first < 4;
    Ok(numbers.iter().all(is_first) && count_used(form, image) == 0)
}

/// Whether two images of a form are the same outside of their journals.
pub fn is_same_outside_journal(form: &Form, one: &[u8], other: &[u8]) -> bool {
    one.len() == other.len()
        && run_at(one, 0, 4096) == run_at(other, 0, 4096)
        && behind_journal(form, one) == behind_journal(form, other)
}

/// The bytes of an image behind its journal.
pub fn behind_journal<'b>(form: &Form, image: &'b [u8]) -> &'b [u8] {
    let end = form.journal_end();
    run_at(image, end, image.len().saturating_sub(end))
}

/// An image with the entries of its journal in their places, and zeros in place of the journal.
pub fn with_journal_placed(
    alloc: Global,
    form: &Form,
    image: &[u8],
) -> Result<Vec<u8>, AllocError> {
    let mut bytes = Vec::from_slice(alloc, image)?;
    clear(&mut bytes, 4096, form.journal_end());
    for section in &walk_of(alloc, form, image)? {
        for entry in 0..form.entries {
            place_entry(form, image, *section, entry, &mut bytes);
        }
    }
    Ok(bytes)
}

/// Puts zeros in the place of bytes.
pub(crate) fn clear(bytes: &mut [u8], from: usize, end: usize) {
    if let Some(place) = bytes.get_mut(from..end) {
        place.fill(0);
    }
}

/// Puts the block of an entry in its place, if the entry is used. It has the number of the block's first sector, then
/// the last 8 bytes of each of its sectors, and its tag. The first 504 bytes of each stand in a sector of their own.
///
/// Source: Linux, drivers/md/dm-integrity.c, `access_journal_data` and `restore_last_bytes`.
fn place_entry(form: &Form, image: &[u8], section: u64, entry: u64, bytes: &mut [u8]) {
    let from = entry_at(form, section, entry);
    let block = number_in(image, from, 8).checked_div(form.spb).unwrap_or(0);
    if !is_used(image, from) || block >= form.blocks {
        return;
    }
    let first = entry.saturating_mul(form.spb).saturating_add(ENTRY_SECTORS);
    let mut place = form.data_at(block);
    let mut rest = from;
    for k in 0..form.spb {
        let data = form.section_at(section, first.saturating_add(k));
        rest = rest.saturating_add(8);
        put_at(bytes, place, run_at(image, data, 504));
        put_at(bytes, place.saturating_add(504), run_at(image, rest, 8));
        place = place.saturating_add(SECTOR);
    }
    let tag = run_at(image, rest.saturating_add(8), form.tag_size as usize);
    form.put_tag(bytes, block, tag);
}

/// Puts a sector of a section with these bytes, zeros behind them, and the id of a commit number.
pub fn put_sector(
    form: &Form,
    image: &mut [u8],
    section: u64,
    sector: u64,
    number: u64,
    bytes: &[u8],
) {
    let from = form.section_at(section, sector);
    let pattern = PATTERNS.get(number as usize).copied().unwrap_or(0);
    let id = pattern ^ place_of(section, sector);
    put_at(image, from, &[0; SECTOR]);
    put_at(image, from, bytes);
    put_at(image, from.saturating_add(504), &id.to_le_bytes());
}

/// Puts a sector of a section without a used entry, with the id of a commit number.
pub fn put_empty(form: &Form, image: &mut [u8], section: u64, sector: u64, number: u64) {
    put_sector(form, image, section, sector, number, &[]);
    if sector >= ENTRY_SECTORS {
        return;
    }
    for entry in 0..form.entries {
        if entry % ENTRY_SECTORS == sector {
            put_at(image, entry_at(form, section, entry), &UNUSED);
        }
    }
}

/// Makes an image of its superblock: no entry is used, each sector of the journal has commit number 0, and each block
/// the tag of its data.
pub fn put_fresh(form: &Form, image: &mut [u8]) {
    for section in 0..form.sections {
        for sector in 0..form.width {
            put_empty(form, image, section, sector, 0);
        }
    }
    for block in 0..form.blocks {
        let digest = form.digest_of(block, form.data_of(image, block));
        form.put_tag(image, block, form.tag_in(&digest));
    }
}
