//! Closes a leg, and both legs of a mirror.
ghost use Rattle.std.specs.Prelude.{◌≡◌, IfErr, OnOk};
ghost use Rattle.disk_model.specs.Causes.{HasCause};
ghost use Rattle.mirror_calls.specs.Faults.{IsOfDisk};
ghost use Rattle.mirror_calls.specs.State.{HasLegCause};
ghost use Rattle.mirror_core.specs.Closing.{LeavesClosing, LeavesFlushed};
ghost use Rattle.mirror_core.specs.Stands.{IsLeg};

use crate::DeviceLeg;
use mirror_calls::{LegName, MirrorFault};
use sector_disk::{Disk, Failed};

/// Closes the device of a leg, and gives its disk back.
///
/// # Errors
///
/// - `Failed`: the disk failed.
pub(crate) fn close_leg<'d, 'p, D: Disk>(
    leg: DeviceLeg<'d, 'p, D>,
) -> (Result<(), Failed>, &'d mut D)
    requires { IsLeg D.identity D.moments leg.device.condition leg.device.parts leg.device.disk.now }

    ensures flushed { OnOk result.0 (LeavesFlushed leg.entry.device.parts
        (D.moments leg.entry.device.disk.now) (D.moments result.1.now)) }

    ensures cause { HasCause (D.faults leg.entry.device.disk.now) (D.faults result.1.now) result.0 }
    ensures same_disk { result.1.ghost_name ≡ leg.entry.device.disk.ghost_name }
    ensures identity { D.identity result.1.now ≡ D.identity leg.entry.device.disk.now }

    ensures moments { LeavesClosing leg.entry.device.parts
        (D.moments leg.entry.device.disk.now) (D.moments result.1.now) }
{
    let (closed, disk) = leg.device.close();
    match closed {
        Ok(()) => (Ok(()), disk),
        Err(_) => (Err(Failed), disk),
    }
}

/// Closes the devices of both legs, the first before the second, and gives their disks back. The second is not called
/// where the first failed.
///
/// # Errors
///
/// - `Disk`: the disk of this leg failed.
pub(crate) fn close_legs<'a, 'b, 'p, 'q, D: Disk, E: Disk>(
    a: DeviceLeg<'a, 'p, D>,
    b: DeviceLeg<'b, 'q, E>,
) -> (Result<(), MirrorFault>, &'a mut D, &'b mut E)
    requires first { IsLeg D.identity D.moments a.device.condition a.device.parts a.device.disk.now }
    requires second { IsLeg E.identity E.moments b.device.condition b.device.parts b.device.disk.now }

    ensures first_flushed { OnOk result.0 (LeavesFlushed a.entry.device.parts
        (D.moments a.entry.device.disk.now) (D.moments result.1.now)) }
    ensures second_flushed { OnOk result.0 (LeavesFlushed b.entry.device.parts
        (E.moments b.entry.device.disk.now) (E.moments result.2.now)) }

    ensures disk { IfErr result.0 IsOfDisk }
    ensures cause { HasLegCause (D.faults a.entry.device.disk.now) (D.faults result.1.now)
        (E.faults b.entry.device.disk.now) (E.faults result.2.now) result.0 }

    ensures same_disk { result.1.ghost_name ≡ a.entry.device.disk.ghost_name }
    ensures same_second { result.2.ghost_name ≡ b.entry.device.disk.ghost_name }
    ensures identity { D.identity result.1.now ≡ D.identity a.entry.device.disk.now }
    ensures second_identity { E.identity result.2.now ≡ E.identity b.entry.device.disk.now }

    ensures first_moments { LeavesClosing a.entry.device.parts
        (D.moments a.entry.device.disk.now) (D.moments result.1.now) }
    ensures second_moments { LeavesClosing b.entry.device.parts
        (E.moments b.entry.device.disk.now) (E.moments result.2.now) }
{
    let (first, disk) = close_leg(a);
    match first {
        Ok(()) => {
            let (second, other) = close_leg(b);
            match second {
                Ok(()) => (Ok(()), disk, other),
                Err(_) => (
                    Err(MirrorFault::Disk {
                        leg: LegName::Second,
                    }),
                    disk,
                    other,
                ),
            }
        }
        Err(_) => (
            Err(MirrorFault::Disk {
                leg: LegName::First,
            }),
            disk,
            b.device.give_back(),
        ),
    }
}
