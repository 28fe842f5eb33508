//! Opening in recovery mode: the first sector is read and judged, and memory is taken.
ghost use Rattle.std.specs.Prelude.{◌≡◌, IfOk};
ghost use Rattle.disk_model.specs.Identity.{IsBound};
ghost use Rattle.device_model.specs.Mode as Model;
ghost use Rattle.hmac_tag.specs.TagMaker.{key_of};
ghost use Rattle.image_refusal.specs.Calls.{HasCallCause};
ghost use Rattle.device_parts.specs.Device.{HasOpened};
ghost use Rattle.recovery_device.specs.Device.{in_recovery};
ghost use Rattle.device_opening.specs.Opening.{Refuses};
ghost use Rattle.judging_model.specs.Faults.{format_fault_of};

use crate::judging::maker_of;
use crate::room::DeviceRoom;
use device_parts::Parts;
use hmac_tag::Hash;
use image_format::read_format;
use image_refusal::{CallFault, OpenFault};
use sector_disk::Disk;
use std::alloc::Global;
use tag_store::Tags;

/// Opens a device in recovery mode on a disk, by its superblock and its geometry alone: no journal, no bitmap and no
/// tag is looked at. The disk is called for one read.
///
/// # Errors
///
/// `Memory` and `Disk` come whenever they hold, and of the others the first that holds:
///
/// - `Memory`: there is none for what the device needs.
/// - `Disk`: the disk failed at the read.
/// - `Head`: the first sector is refused. A disk without a sector has no magic.
pub fn open_recovery<D: Disk>(
    alloc: Global,
    disk: &mut D,
    hash: Hash,
) -> Result<Parts, CallFault<OpenFault>>
    requires bound { IsBound (D.identity disk.old).name }

    ensures opened { IfOk result (λ p. HasOpened in_recovery Model.Recovery (key_of hash) (D.identity disk.old)
        p (D.moments disk.old) (D.moments disk.new)) }

    ensures refused { Refuses (format_fault_of (D.identity disk.old).sectors)
        (D.moments disk.old) (D.moments disk.new) result }
    ensures cause { HasCallCause (D.faults disk.old) (D.faults disk.new) result }

    ensures identity { D.identity disk.new ≡ D.identity disk.old }
    ensures kept { D.moments disk.new ≡ D.moments disk.old }
{
    let format = read_format(disk)?;
    let maker = maker_of(hash, &format);
    let room = DeviceRoom::new(alloc, format.geometry)?;
    let DeviceRoom {
        cache,
        slots,
        buffer,
    } = room;
    Ok(Parts {
        tags: Tags::new(format.geometry, cache),
        maker,
        slots,
        spb: format.geometry.shape().spb,
        buffer,
    })
}
