//! How a command ends whose image is not opened, and the disk that comes back.
ghost use Rattle.std.specs.Prelude.{◌≡◌};
ghost use Rattle.command_task.specs.Refusing.{ended_by_opening, head_fault};

use command_ending::{Ended, ImageFault, Outer, Refusal};
use device::Refused;
use image_refusal::{CallFault, HeadFault, OpenFault};
use sector_disk::Disk;

/// What ends a command whose image is not opened.
pub fn ended_by_opening(fault: CallFault<OpenFault>) -> Ended
    ensures { result ≡ ended_by_opening fault }
{
    match fault {
        CallFault::Memory => Ended::Memory,
        CallFault::Disk => Ended::Failed(Outer::Disk),
        CallFault::Refused(OpenFault::Head(fault)) => Ended::Refused(Refusal::Image(head_fault(
            fault,
        ))),
        CallFault::Refused(OpenFault::Consent { flags }) => {
            Ended::Refused(Refusal::Image(ImageFault::Consent { flags }))
        }
        CallFault::Refused(OpenFault::Journal(fault)) => Ended::Refused(Refusal::Image(
            ImageFault::Journal(fault),
        )),
    }
}

/// Why an image is refused whose first sector is.
pub fn head_fault(fault: HeadFault) -> ImageFault
    ensures { result ≡ head_fault fault }
{
    match fault {
        HeadFault::Super(fault) => ImageFault::Super(fault),
        HeadFault::Geom(fault) => ImageFault::Geom(fault),
    }
}

/// Why a device was not opened, and the disk that comes back.
pub fn handed_back<'d, D: Disk>(refused: Refused<'d, D>) -> (CallFault<OpenFault>, &'d mut D)
    ensures fault { result.0 ≡ refused.entry.fault }
    ensures disk { result.1.now ≡ refused.entry.disk.now }
    ensures same_disk { result.1.ghost_name ≡ refused.entry.disk.ghost_name }
{
    let Refused { fault, disk } = refused;
    (fault, disk)
}
