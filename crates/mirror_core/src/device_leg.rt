//! A device in journal mode as a leg of a mirror.
ghost use Rattle.std.specs.Prelude.{◌≡◌};
ghost use Rattle.disk_model.specs.Disk.{EachImage};
ghost use Rattle.disk_model.specs.Moments.{HasNow};
ghost use Rattle.device_model.specs.Transcript.{Session};
ghost use Rattle.mirror_calls.specs.Leg.{LegOn};
ghost use Rattle.mirror_core.specs.Answered.{IsOfRead, IsOfWrite, IsReadAs};
ghost use Rattle.mirror_core.specs.declared.device_leg.DeviceLeg.{DeviceLeg};
ghost use Rattle.mirror_core.specs.Stands.{IsLeg, MayBeLeftOf, StandsFor};

use crate::running::run_whole;
use device::Device;
use mirror_calls::{BlocksRead, Leg, TagPair};
use request_slots::{Bytes, Reply, Request};
use sector_disk::{Disk, Failed};

/// A device that runs one request at a time, each whole.
///
/// It is a type of its own since the trait and the device are of other crates.
#[derive(Drop)]
pub struct DeviceLeg<'d, 'p, D: Disk> {
    pub(crate) device: Device<'d, 'p, D>,
}

impl<'d, 'p, D: Disk> Leg for DeviceLeg<'d, 'p, D> {
    ghost stands_for = { λ leg on session. StandsFor leg.device.parts (D.moments leg.device.disk.now) on session.history };

    ghost blocks = { λ leg. leg.device.parts.common.slots.blocks };

    ghost block_size = { λ leg. leg.device.parts.common.slots.block_size };

    ghost ready = { λ leg. IsLeg D.identity D.moments leg.device.condition leg.device.parts leg.device.disk.now };

    ghost submitted = { λ leg. leg.device.parts.common.slots.submitted };

    ghost name = { λ leg. record { lent = leg.device.disk.ghost_name; identity = D.identity leg.device.disk.now } };

    ghost faults = { λ leg. D.faults leg.device.disk.now };

    ghost moments = { λ leg. D.moments leg.device.disk.now };

    ghost may_be_left = { MayBeLeftOf };

    fn blocks(&self) -> u64 {
        self.device.blocks()
    }

    fn block_size(&self) -> usize {
        self.device.block_size()
    }

    fn read_whole(&mut self, first: u64, count: u64, buffer: Bytes) -> Result<BlocksRead, Failed> {
        let request = Request::Read {
            first,
            count,
            buffer,
        };
        let reply = run_whole(&mut self.device, request)?;
        Ok(read_in(reply))
    }

    fn write_whole(
        &mut self,
        first: u64,
        count: u64,
        bytes: Bytes,
        fua: bool,
    ) -> Result<Bytes, Failed> {
        let request = Request::Write {
            first,
            count,
            bytes,
            fua,
        };
        let reply = run_whole(&mut self.device, request)?;
        Ok(written_in(reply))
    }

    fn flush_whole(&mut self) -> Result<(), Failed> {
        let _reply = run_whole(&mut self.device, Request::Flush)?;
        Ok(())
    }

    fn legs_are_left_as_told()
        ensures { (leg : DeviceLeg D) (on : LegOn) (s : Session)
            → StandsFor leg.device.parts (D.moments leg.device.disk.now) on s.history
            → HasNow (EachImage (MayBeLeftOf on s.history)) (D.moments leg.device.disk.now) }
    {}

    ghost few_blocks = { λ leg ready. ready.few };

    ghost small_blocks = { λ leg ready. ready.small };

    ghost some_bytes = { λ leg ready. ready.some };

    ghost same_blocks = { λ leg on session stands. stands.blocks };

    ghost same_size = { λ leg on session stands. stands.size };

    ghost any_count = { λ leg on session n stands. stands };
}

/// What a read gives that is answered so.
fn read_in(reply: Reply) -> BlocksRead
    requires { IsOfRead reply }

    ensures { IsReadAs reply result }
{
    match reply {
        Reply::Read { buffer } => BlocksRead::Given { buffer },
        Reply::TagFault {
            block,
            stored,
            computed,
            buffer,
        } => BlocksRead::Differs {
            block,
            tags: TagPair { stored, computed },
            buffer,
        },
        Reply::Written { bytes: _ } => unreachable!(),
        Reply::Flushed => unreachable!(),
    }
}

/// The bytes of a write that is answered so.
fn written_in(reply: Reply) -> Bytes
    requires { IsOfWrite reply }

    ensures { reply ≡ Reply.Written result }
{
    match reply {
        Reply::Written { bytes } => bytes,
        Reply::Read { buffer: _ } => unreachable!(),
        Reply::TagFault { .. } => unreachable!(),
        Reply::Flushed => unreachable!(),
    }
}
