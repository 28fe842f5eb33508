//! A mirror of two devices: made of them, and closed.
//!
//! What it does in between is `mirror_calls`, over `DeviceLeg`.
ghost use Rattle.std.specs.Prelude.{◌≡◌, ◌↔◌, false, true, Err, IfErr, IfOk, IsOk, OnOk};
ghost use Rattle.mirror_calls.specs.Faults.{IsOfDisk};
ghost use Rattle.mirror_calls.specs.State.{AreReady, HasLegCause, unequal_of};
ghost use Rattle.mirror_core.specs.Closing.{LeavesClosing, LeavesFlushed};
ghost use Rattle.mirror_core.specs.Stands.{IsLeg};

use crate::DeviceLeg;
use crate::closing::close_legs;
use device::Device;
use mirror_calls::{MirrorFault, Unequal};
use sector_disk::Disk;

/// A mirror of two devices in journal mode, over two disks that it is lent.
pub type Mirror<'a, 'b, 'p, 'q, D, E> = mirror_calls::Mirror<
    DeviceLeg<'a, 'p, D>,
    DeviceLeg<'b, 'q, E>,
>;

/// Makes a mirror of two devices, of which each has all flushed. It writes nothing, and takes no memory.
///
/// # Errors
///
/// - `Unequal`: they differ in how many blocks they have, or how many bytes a block has. Both come back.
pub fn mirror_of<'a, 'b, 'p, 'q, D: Disk, E: Disk>(
    a: Device<'a, 'p, D>,
    b: Device<'b, 'q, E>,
) -> Result<Mirror<'a, 'b, 'p, 'q, D, E>, (Device<'a, 'p, D>, Device<'b, 'q, E>, Unequal)>
    requires first { IsLeg D.identity D.moments a.condition a.parts a.disk.now }
    requires second { IsLeg E.identity E.moments b.condition b.parts b.disk.now }

    ensures made { IfOk result (λ mirror. (mirror.a.device ≡ a.entry) × (mirror.b.device ≡ b.entry)
        × (mirror.broken ≡ false)) }
    ensures ready { IfOk result (λ mirror. AreReady mirror.broken
        (IsLeg D.identity D.moments mirror.a.device.condition mirror.a.device.parts mirror.a.device.disk.now)
        (IsLeg E.identity E.moments mirror.b.device.condition mirror.b.device.parts mirror.b.device.disk.now)
        mirror.a.device.parts.common.slots.blocks mirror.a.device.parts.common.slots.block_size
        mirror.b.device.parts.common.slots.blocks mirror.b.device.parts.common.slots.block_size) }

    ensures unequal { IsOk result ↔ ((a.entry.parts.common.slots.blocks ≡ b.entry.parts.common.slots.blocks)
        × (a.entry.parts.common.slots.block_size ≡ b.entry.parts.common.slots.block_size)) }
    ensures back { IfErr result (λ back. (back.0 ≡ a.entry) × (back.1 ≡ b.entry) × (back.2 ≡ unequal_of
        a.entry.parts.common.slots.blocks a.entry.parts.common.slots.block_size
        b.entry.parts.common.slots.blocks b.entry.parts.common.slots.block_size)) }
{
    match Mirror::new(DeviceLeg { device: a }, DeviceLeg { device: b }) {
        Ok(mirror) => Ok(mirror),
        Err((a, b, unequal)) => Err((a.device, b.device, unequal)),
    }
}

/// Closes both devices, the first before the second, and gives their disks back. A disk that is behind one that failed is
/// not called.
///
/// # Errors
///
/// - `Broken`: a disk has failed the mirror before. Nothing was done.
/// - `Disk`: the disk of this leg failed.
pub fn close<'a, 'b, 'p, 'q, D: Disk, E: Disk>(
    mirror: Mirror<'a, 'b, 'p, 'q, D, E>,
) -> (Result<(), MirrorFault>, &'a mut D, &'b mut E)
    requires first { mirror.broken ≡ false → IsLeg D.identity D.moments
        mirror.a.device.condition mirror.a.device.parts mirror.a.device.disk.now }
    requires second { mirror.broken ≡ false → IsLeg E.identity E.moments
        mirror.b.device.condition mirror.b.device.parts mirror.b.device.disk.now }

    ensures first_flushed { OnOk result.0 (LeavesFlushed mirror.entry.a.device.parts
        (D.moments mirror.entry.a.device.disk.now) (D.moments result.1.now)) }
    ensures second_flushed { OnOk result.0 (LeavesFlushed mirror.entry.b.device.parts
        (E.moments mirror.entry.b.device.disk.now) (E.moments result.2.now)) }

    ensures broken { (mirror.entry.broken ≡ true) ↔ (result.0 ≡ Err MirrorFault.Broken) }
    ensures disk { mirror.entry.broken ≡ false → IfErr result.0 IsOfDisk }
    ensures cause { HasLegCause (D.faults mirror.entry.a.device.disk.now) (D.faults result.1.now)
        (E.faults mirror.entry.b.device.disk.now) (E.faults result.2.now) result.0 }

    ensures kept { mirror.entry.broken ≡ true → (result.1.now ≡ mirror.entry.a.device.disk.now)
        × (result.2.now ≡ mirror.entry.b.device.disk.now) }
    ensures same_disk { result.1.ghost_name ≡ mirror.entry.a.device.disk.ghost_name }
    ensures same_second { result.2.ghost_name ≡ mirror.entry.b.device.disk.ghost_name }
    ensures identity { D.identity result.1.now ≡ D.identity mirror.entry.a.device.disk.now }
    ensures second_identity { E.identity result.2.now ≡ E.identity mirror.entry.b.device.disk.now }

    ensures first_moments { LeavesClosing mirror.entry.a.device.parts
        (D.moments mirror.entry.a.device.disk.now) (D.moments result.1.now) }
    ensures second_moments { LeavesClosing mirror.entry.b.device.parts
        (E.moments mirror.entry.b.device.disk.now) (E.moments result.2.now) }
{
    let (a, b, broken) = mirror.into_legs();
    if broken {
        return (
            Err(MirrorFault::Broken),
            a.device.give_back(),
            b.device.give_back(),
        );
    }
    close_legs(a, b)
}

/// Gives both disks back as they are, without a close.
pub fn give_back<'a, 'b, 'p, 'q, D: Disk, E: Disk>(
    mirror: Mirror<'a, 'b, 'p, 'q, D, E>,
) -> (&'a mut D, &'b mut E)
    ensures same_disk { result.0.ghost_name ≡ mirror.entry.a.device.disk.ghost_name }
    ensures same_second { result.1.ghost_name ≡ mirror.entry.b.device.disk.ghost_name }
    ensures disk { result.0.now ≡ mirror.entry.a.device.disk.now }
    ensures second { result.1.now ≡ mirror.entry.b.device.disk.now }
{
    let (a, b, _) = mirror.into_legs();
    (a.device.give_back(), b.device.give_back())
}
