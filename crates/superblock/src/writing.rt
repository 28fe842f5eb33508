//! Writes a superblock.
ghost use Rattle.std.specs.Prelude.{◌≡◌, ◌++◌, Ok, drop};
ghost use Rattle.image_model.specs.Superblock.{IsAccepted, superblock_bytes, superblock_of, version_for};
ghost use Rattle.image_model.specs.SuperblockLaws.{FitsBytes};

use crate::magic::MAGIC;
use byteorder::{ByteOrder, LittleEndian};
use image_model::{DIRTY_BITMAP, FIXED_HMAC, FIXED_PADDING, RECALCULATING, SECTOR_SIZE, Super};

/// Writes the fields, with zeros in the pads. The bytes from 64 on stay.
pub fn write(fields: &Super, bytes: &mut [u8; SECTOR_SIZE])
    requires fields { IsAccepted fields.now }

    ensures written { bytes.new ≡ superblock_bytes fields.now ++ drop 64 bytes.old }
    ensures read_back { superblock_of bytes.new ≡ Ok fields.now }
{
    bytes[..64].copy_from_slice(&superblock_bytes(*fields));
}

/// The bytes of the fields, with zeros in the pads.
fn superblock_bytes(fields: Super) -> [u8; 64]
    ensures bytes { result ≡ superblock_bytes fields }
    ensures fits { FitsBytes fields }
{
    let mut bytes = [0; 64];
    bytes[..8].copy_from_slice(&MAGIC);
    bytes[8] = fields.version;
    bytes[9] = fields.log2_interleave;
    LittleEndian::write_u16(&mut bytes[10..], fields.tag_size);
    LittleEndian::write_u32(&mut bytes[12..], fields.sections);
    LittleEndian::write_u64(&mut bytes[16..], fields.provided);
    LittleEndian::write_u32(&mut bytes[24..], fields.flags);
    bytes[28] = fields.log2_spb;
    bytes[29] = fields.log2_region;
    LittleEndian::write_u64(&mut bytes[32..], fields.recalc_sector);
    bytes[48..].copy_from_slice(&fields.salt);
    bytes
}

/// The version to write where these flags are, and `read` is the version that was read: never below it.
///
/// Source: Linux, `drivers/md/dm-integrity.c`, `sb_set_version`.
pub fn version_for(flags: u32, read: u8) -> u8
    ensures { result ≡ version_for read flags }
{
    let needed = if flags & FIXED_HMAC != 0 {
        5
    } else if flags & FIXED_PADDING != 0 {
        4
    } else if flags & DIRTY_BITMAP != 0 {
        3
    } else if flags & RECALCULATING != 0 {
        2
    } else {
        1
    };
    read.max(needed)
}
