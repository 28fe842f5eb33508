//! How a command of two images ends whose second image is refused, or whose legs are no mirror.
ghost use Rattle.std.specs.Prelude.{◌≡◌};
ghost use Rattle.command_mirror.specs.Refusing.{ended_by_legs, ended_by_second};

use command_ending::{Ended, ImageFault, Outer, Refusal};
use command_task::head_fault;
use image_refusal::{CallFault, OpenFault};
use mirror_calls::Unequal;

/// What ends a command whose second image is not opened.
pub(crate) fn ended_by_second(fault: CallFault<OpenFault>) -> Ended
    ensures { result ≡ ended_by_second fault }
{
    match fault {
        CallFault::Memory => Ended::Memory,
        CallFault::Disk => Ended::Failed(Outer::Disk),
        CallFault::Refused(OpenFault::Head(fault)) => {
            Ended::Refused(Refusal::Second(head_fault(fault)))
        }
        CallFault::Refused(OpenFault::Consent { flags }) => {
            Ended::Refused(Refusal::Second(ImageFault::Consent { flags }))
        }
        CallFault::Refused(OpenFault::Journal(fault)) => {
            Ended::Refused(Refusal::Second(ImageFault::Journal(fault)))
        }
    }
}

/// What ends a command whose legs differ in their blocks.
pub(crate) fn ended_by_legs(unequal: Unequal) -> Ended
    ensures { result ≡ ended_by_legs unequal }
{
    Ended::Refused(Refusal::Legs {
        a_blocks: unequal.a_blocks,
        a_size: unequal.a_size,
        b_blocks: unequal.b_blocks,
        b_size: unequal.b_size,
    })
}
