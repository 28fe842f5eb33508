//! The bit of a region, set before data or cleared, beside a store of tags.
ghost use Rattle.std.specs.Prelude.{◌≡◌, ◌<◌, ◌≤◌, true, false, OnErr, OnOk};
ghost use Rattle.disk_model.specs.Causes.{HasCause};
ghost use Rattle.disk_model.specs.Disk.{OnlyAdds};
ghost use Rattle.disk_model.specs.Moments.{EachSince};
ghost use Rattle.image_model.specs.Geometry.{bitmap_sectors, journal_sectors, regions};
ghost use Rattle.device_model.specs.Regions.{with_region};
ghost use Rattle.bitmap_laws.specs.CallLaws.{AddsBits, AreSameBits};
ghost use Rattle.dirty_bitmap.specs.Bits.{bits_of};
ghost use Rattle.tag_store.specs.Store.{IsStore};
ghost use Rattle.bitmap_mode.specs.Cleaning.{ClearsBitOf};
ghost use Rattle.bitmap_mode.specs.Writing.{IsOfBit, SetsBit};

use dirty_bitmap::Bits;
use sector_disk::{Disk, Failed};
use tag_store::Tags;

/// Sets the bit of a region, and syncs. Where it is set no call is made.
///
/// # Errors
///
/// - `Failed`: the disk failed. In memory the bit is as it was.
pub(crate) fn set_bit<D: Disk>(
    disk: &mut D,
    bits: &mut Bits,
    tags: &Tags,
    region: u64,
) -> Result<(), Failed>
    requires store { IsStore tags.now (D.identity disk.old) (D.moments disk.old) }
    requires same { tags.now.geometry ≡ bits.old.geometry }
    requires fits { bitmap_sectors bits.old.geometry ≤ journal_sectors bits.old.geometry }
    requires region { region < regions bits.old.geometry }

    ensures set { OnOk result (AreSameBits bits.old.geometry (bits_of bits.new)
        (with_region region true (bits_of bits.old))) }
    ensures made { OnOk result (SetsBit bits.old region tags.now (D.moments disk.old) (D.moments disk.new)) }

    ensures cause { HasCause (D.faults disk.old) (D.faults disk.new) result }
    ensures err { OnErr result (AreSameBits bits.old.geometry (bits_of bits.new) (bits_of bits.old)) }

    ensures geometry { bits.new.geometry ≡ bits.old.geometry }
    ensures store { IsStore tags.now (D.identity disk.new) (D.moments disk.new) }
    ensures identity { D.identity disk.new ≡ D.identity disk.old }

    ensures moments { EachSince (OnlyAdds (IsOfBit bits.old.geometry (bits_of bits.old) region))
        (D.moments disk.old) (D.moments disk.new) }
{
    // The store is named in the contract alone: no tag moves.
    let _ = tags;
    bits.make_dirty(disk, region)
}

/// Clears the bit of a region. It is not synced.
///
/// # Errors
///
/// - `Failed`: the disk failed. In memory the bit is as it was.
pub(crate) fn clear_bit<D: Disk>(
    disk: &mut D,
    bits: &mut Bits,
    tags: &Tags,
    region: u64,
) -> Result<(), Failed>
    requires store { IsStore tags.now (D.identity disk.old) (D.moments disk.old) }
    requires same { tags.now.geometry ≡ bits.old.geometry }
    requires fits { bitmap_sectors bits.old.geometry ≤ journal_sectors bits.old.geometry }
    requires region { region < regions bits.old.geometry }

    ensures cleared { OnOk result (AreSameBits bits.old.geometry (bits_of bits.new)
        (with_region region false (bits_of bits.old))) }
    ensures made { OnOk result (ClearsBitOf bits.old bits.old.geometry region tags.now
        (D.moments disk.old) (D.moments disk.new)) }

    ensures cause { HasCause (D.faults disk.old) (D.faults disk.new) result }
    ensures err { OnErr result (AreSameBits bits.old.geometry (bits_of bits.new) (bits_of bits.old)) }

    ensures geometry { bits.new.geometry ≡ bits.old.geometry }
    ensures store { IsStore tags.now (D.identity disk.new) (D.moments disk.new) }
    ensures identity { D.identity disk.new ≡ D.identity disk.old }

    ensures moments { AddsBits bits.old.geometry (with_region region false (bits_of bits.old))
        (D.moments disk.old) (D.moments disk.new) }
{
    // The store is named in the contract alone: no tag moves.
    let _ = tags;
    bits.clear(disk, region)
}
