//! The end of a run that has come to its last line: the device is closed, and that is printed.
ghost use Rattle.std.specs.Prelude.{◌≡◌, Err};
ghost use Rattle.disk_model.specs.Causes.{Rose};
ghost use Rattle.device_parts.specs.declared.condition.Condition.TheVariants.{Working};
ghost use Rattle.device.specs.Calls.{LeavesAtRest, Works};
ghost use Rattle.command_run.specs.Closing.{HasCloseCounts, StopsAtClose, fault_ended};

use command_ending::{Ended, Outer};
use device::Device;
use script_text::TagsFound;
use sector_disk::Disk;
use stream_io::{Sink, put_all};

/// What ended a run at its close. It owns no memory, so that it can be told beside the disk.
#[derive(Clone, Copy, Debug, PartialEq, Eq)]
pub(crate) enum CloseFault {
    /// The disk failed.
    Disk,
    /// The sink failed.
    Sink,
}

impl CloseFault {
    /// What ended the run.
    pub(crate) fn ended(self) -> Ended
        ensures { result ≡ fault_ended self }
    {
        match self {
            CloseFault::Disk => Ended::Failed(Outer::Disk),
            CloseFault::Sink => Ended::Failed(Outer::Sink),
        }
    }
}

/// Closes a device, prints `closed`, and gives the disk back.
///
/// # Errors
///
/// - `Disk`: the disk failed. Nothing is printed.
/// - `Sink`: the sink failed. All is flushed.
pub(crate) fn close<'d, 'p, D: Disk, O: Sink>(
    device: Device<'d, 'p, D>,
    found: TagsFound,
    out: &mut O,
) -> (Result<TagsFound, CloseFault>, &'d mut D)
    requires works { Works D.identity D.moments device.condition device.parts device.disk.now }

    ensures stopped { StopsAtClose D.moments O.held found result.0 device.entry.parts
        device.entry.disk.now result.1.now out.old out.new }
    ensures rests { LeavesAtRest result.0 Working device.entry.parts
        (D.moments device.entry.disk.now) (D.moments result.1.now) }

    ensures disk { result.0 ≡ Err CloseFault.Disk
        → Rose (D.faults device.entry.disk.now) (D.faults result.1.now) }
    ensures sink { result.0 ≡ Err CloseFault.Sink → Rose (O.faults out.old) (O.faults out.new) }
    ensures counts { HasCloseCounts (D.faults device.entry.disk.now) (D.faults result.1.now)
        (O.faults out.old) (O.faults out.new) result.0 }

    ensures identity { D.identity result.1.now ≡ D.identity device.entry.disk.now }
    ensures same_disk { result.1.ghost_name ≡ device.entry.disk.ghost_name }
{
    let (closed, disk) = device.close();
    if closed.is_err() {
        return (Err(CloseFault::Disk), disk);
    }
    match put_all(out, b"closed\n") {
        Ok(()) => (Ok(found), disk),
        Err(_) => (Err(CloseFault::Sink), disk),
    }
}
