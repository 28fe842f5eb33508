//! Reads a superblock.
ghost use Rattle.std.specs.Prelude.{◌≡◌, ◌↔◌, ◌≤◌, Err, IfErr, IfOk, IsOk};
ghost use Rattle.image_model.specs.Faults.{ok_unless};
ghost use Rattle.image_model.specs.Superblock.{IsAccepted, is_provided, fields_in, superblock_bytes, superblock_faults, superblock_of};
ghost use Rattle.superblock.specs.Pads.{with_zero_pads};

use crate::magic::MAGIC;
use byteorder::{ByteOrder, LittleEndian};
use image_model::{
    HAVE_JOURNAL_MAC, INLINE, KNOWN_FLAGS, LEAST_LOG2_INTERLEAVE, LONGEST_TAG,
    MOST_LOG2_INTERLEAVE, MOST_LOG2_SPB, MOST_SECTORS, NEWEST_VERSION, SECTOR_SIZE, Super,
    SuperFault,
};

/// The fields that the first sector of an image tells.
///
/// # Errors
///
/// The first that holds:
///
/// - `Magic`: the sector does not begin with the magic.
/// - `Version`: the version is not 1 to 5.
/// - `JournalMac`: the journal's sectors bear a code of its own.
/// - `Inline`: the tags stand in the metadata of the disk's own sectors.
/// - `Flags`: flags that are not known are set.
/// - `Interleave`: an area does not have 2^3 to 2^31 data sectors.
/// - `BlockSize`: a block has more than 2^3 sectors.
/// - `TagSize`: a tag does not have 1 to 32 bytes.
/// - `Sections`: the journal has no section.
/// - `Provided`: the provided sectors are none, no whole blocks, or more than 2^48.
///
/// Source: Linux, `drivers/md/dm-integrity.c`, `dm_integrity_ctr`.
pub fn read(bytes: &[u8; SECTOR_SIZE]) -> Result<Super, SuperFault>
    ensures told { result ≡ superblock_of bytes.now }
    ensures accepted { IfOk result (λ fields. IsAccepted fields) }

    // What is read is written again as it stood, but for the pads.
    ensures written_again { IfOk result
        (λ fields. superblock_bytes fields ≡ with_zero_pads bytes.now) }
{
    if !bytes.starts_with(&MAGIC) {
        return Err(SuperFault::Magic);
    }
    accepted(fields_in(bytes))
}

/// Whether the fields are accepted, as `write` requires.
///
/// # Errors
///
/// The first fault that `read` would tell of the fields.
pub fn judge(fields: &Super) -> Result<(), SuperFault>
    ensures accepted { IsOk result ↔ IsAccepted fields.now }
    ensures fault { let s = fields.now in
        IfErr result (λ fault. Err fault ≡ ok_unless (superblock_faults s) s) }
{
    accepted(*fields)?;
    Ok(())
}

/// The fields, whatever stands in them.
fn fields_in(bytes: &[u8; SECTOR_SIZE]) -> Super
    ensures { result ≡ fields_in bytes.now }
{
    let mut salt = [0; 16];
    salt.copy_from_slice(&bytes[48..64]);
    Super {
        version: bytes[8],
        log2_interleave: bytes[9],
        tag_size: LittleEndian::read_u16(&bytes[10..]),
        sections: LittleEndian::read_u32(&bytes[12..]),
        provided: LittleEndian::read_u64(&bytes[16..]),
        flags: LittleEndian::read_u32(&bytes[24..]),
        log2_spb: bytes[28],
        log2_region: bytes[29],
        recalc_sector: LittleEndian::read_u64(&bytes[32..]),
        salt,
    }
}

/// The fields, where none of them is refused.
fn accepted(fields: Super) -> Result<Super, SuperFault>
    ensures { result
        ≡ ok_unless (superblock_faults fields) fields }
{
    let flags = fields.flags;
    if !(1..=NEWEST_VERSION).contains(&fields.version) {
        return Err(SuperFault::Version { v: fields.version });
    }
    if flags & HAVE_JOURNAL_MAC != 0 {
        return Err(SuperFault::JournalMac { flags });
    }
    if flags & INLINE != 0 {
        return Err(SuperFault::Inline { flags });
    }
    let unknown = flags & !KNOWN_FLAGS;
    if unknown != 0 {
        return Err(SuperFault::Flags { unknown });
    }
    let log2_interleave = fields.log2_interleave;
    if !(LEAST_LOG2_INTERLEAVE..=MOST_LOG2_INTERLEAVE).contains(&log2_interleave) {
        return Err(SuperFault::Interleave { v: log2_interleave });
    }
    if fields.log2_spb > MOST_LOG2_SPB {
        return Err(SuperFault::BlockSize { v: fields.log2_spb });
    }
    if !(1..=LONGEST_TAG).contains(&fields.tag_size) {
        return Err(SuperFault::TagSize { v: fields.tag_size });
    }
    if fields.sections == 0 {
        return Err(SuperFault::Sections { v: fields.sections });
    }
    if !is_provided(fields) {
        return Err(SuperFault::Provided { v: fields.provided });
    }
    Ok(fields)
}

/// Whether the provided sectors are whole blocks, at least one, and no more than a disk may have.
fn is_provided(fields: Super) -> bool
    requires { fields.log2_spb ≤ 3 }
    ensures { result ≡ is_provided fields }
{
    (1..=MOST_SECTORS).contains(&fields.provided) && fields.provided % (1 << fields.log2_spb) == 0
}
