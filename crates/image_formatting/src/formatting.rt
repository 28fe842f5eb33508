//! Making a new image: it is planned, all memory is taken, and then it is written.
ghost use Rattle.std.specs.Prelude.{◌≡◌, ◌≢◌, ◌↔◌, Err, IfErr, IfOk, OnOk};
ghost use Rattle.disk_model.specs.Causes.{HasCause};
ghost use Rattle.disk_model.specs.Identity.{IsBound};
ghost use Rattle.disk_model.specs.Moments.{HasNow};
ghost use Rattle.hmac_tag.specs.TagMaker.{key_of};
ghost use Rattle.image_refusal.specs.Calls.{HasCallCause};
ghost use Rattle.image_format.specs.Format.{IsFormat};
ghost use Rattle.image_model.specs.declared.geom_fault.GeomFault.{GeomFault};
ghost use Rattle.formatting_model.specs.Formatted.{HasMade, IsLeftInOrder, IsWritten, IsWrittenBehindSync, IsWrittenInOrder, SyncsNew};
ghost use Rattle.formatting_model.specs.NewImage.{IsNewImage, provided_of};
ghost use Rattle.formatting_model.specs.Written.{IsOfFormat, OnlyWrites, OnlyWritesNew};
ghost use Rattle.image_formatting.specs.Room.{HasRoom};

use crate::filling::fill;
use crate::first_sector::{forget, found};
use crate::planning::plan;
use crate::room::Room;
use formatting_model::NewImage;
use hmac_tag::{Hash, TagMaker};
use image_format::ImageFormat;
use image_model::{GeomFault, Wipe};
use image_refusal::CallFault;
use sector_disk::{Disk, Failed};
use std::alloc::Global;

/// Makes a new image on a disk, and answers how many sectors it provides.
///
/// # Errors
///
/// The first that holds:
///
/// - `Refused`: the disk has no room for the image, as `best_provided` tells it. Nothing was written.
/// - `Memory`: there is none for what is written at once. Nothing was written.
/// - `Disk`: the disk failed.
///
/// Source: Linux, `drivers/md/dm-integrity.c`, `dm_integrity_ctr` and `initialize_superblock`. Own:
/// the order of the writes.
pub fn format<D: Disk>(
    alloc: Global,
    disk: &mut D,
    hash: Hash,
    new: NewImage,
) -> Result<u64, CallFault<GeomFault>>
    requires bound { IsBound (D.identity disk.old).name }
    requires new { IsNewImage new }

    ensures made { IfOk result (λ provided. HasMade (key_of hash) (D.identity disk.old).sectors new provided
        (D.moments disk.old) (D.moments disk.new)) }
    ensures synced { OnOk result (SyncsNew (key_of hash) (D.identity disk.old).sectors new
        (D.moments disk.old) (D.moments disk.new)) }

    ensures geom { (fault : GeomFault) → (result ≡ Err (CallFault.Refused fault))
        ↔ (provided_of new (D.identity disk.old).sectors ≡ Err fault) }
    ensures cause { HasCallCause (D.faults disk.old) (D.faults disk.new) result }
    ensures untouched { IfErr result (λ fault. fault ≢ CallFault.Disk
        → D.moments disk.new ≡ D.moments disk.old) }

    ensures identity { D.identity disk.new ≡ D.identity disk.old }

    // A cut leaves the disk as it was, only before the first sync has succeeded, or without a magic, or
    // with the whole new image.
    ensures moments { IsLeftInOrder (key_of hash) (D.identity disk.old).sectors new
        (D.moments disk.old) (D.moments disk.new) }

    // Only sectors of the new image are written, also where the disk fails.
    ensures writes { OnlyWritesNew (D.identity disk.old).sectors new (D.moments disk.old) (D.moments disk.new) }
{
    let format = plan(&new, disk.sectors())?;
    let mut room = Room::new(alloc, format.geometry.shape())?;
    let maker = TagMaker::new(hash, new.salt, new.tag_size);
    write_image(disk, &format, new.wipe, &maker, &mut room)?;
    Ok(format.fields.provided)
}

/// Writes the image, its first sector before and behind all else.
///
/// # Errors
///
/// - `Failed`: the disk failed.
fn write_image<D: Disk>(
    disk: &mut D,
    format: &ImageFormat,
    wipe: Wipe,
    maker: &TagMaker,
    room: &mut Room,
) -> Result<(), Failed>
    requires bound { IsBound (D.identity disk.old).name }
    requires format { IsFormat (D.identity disk.old).sectors format.now }
    requires size { maker.now.size ≡ format.now.geometry.shape.tag_size }
    requires room { HasRoom format.now.geometry.shape room.old }

    ensures written { OnOk result (IsWritten wipe maker.now format.now
        (D.moments disk.old) (D.moments disk.new)) }
    ensures synced { OnOk result (HasNow (λ start. IsWrittenBehindSync wipe maker.now format.now
        (D.moments disk.old) (D.moments disk.new)) (D.moments disk.old)) }

    ensures cause { HasCause (D.faults disk.old) (D.faults disk.new) result }

    ensures identity { D.identity disk.new ≡ D.identity disk.old }

    ensures moments { IsWrittenInOrder wipe maker.now format.now
        (D.moments disk.old) (D.moments disk.new) }
    ensures writes { OnlyWrites (IsOfFormat wipe format.now) (D.moments disk.old) (D.moments disk.new) }
{
    forget(disk)?;
    fill(disk, format, wipe, maker, room)?;
    found(disk, &format.fields)
}
