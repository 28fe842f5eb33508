//! What is done in the background, in the device's mode.
ghost use Rattle.std.specs.Prelude.{◌≡◌, IfOk, Ok};
ghost use Rattle.disk_model.specs.Causes.{HasCause};
ghost use Rattle.device_parts.specs.Answers.{HasStepCause, StepsNext, TurnsBroken, IsUnreadStep};
ghost use Rattle.device_parts.specs.declared.condition.Condition.TheVariants.{Working};
ghost use Rattle.device_model.specs.Actors.{actor_of};
ghost use Rattle.device_model.specs.Progress.{Step};
ghost use Rattle.device.specs.Answers.{FindsNothing, GoesOn, HasNoWork, KeepsClearTags, WritesInStep};
ghost use Rattle.device.specs.Calls.{Keeps, Steps, WritesStepping};
ghost use Rattle.device.specs.Device.{IsReady, any_mode, mode_of};

use crate::{DeviceParts, Mode};
use device_parts::{Actor, Condition, Moved, StepFault};
use sector_disk::{Disk, Failed};

/// Lets an actor do its next step. A broken device makes no call of its disk.
///
/// # Errors
///
/// - `Disk`: the disk failed. The device is broken from then on.
/// - `Broken`: the device is.
pub(crate) fn step<D: Disk>(
    disk: &mut D,
    parts: &mut DeviceParts<'_>,
    condition: &mut Condition,
    actor: Actor,
) -> Result<Moved, StepFault>
    requires { IsReady condition.old parts.old (D.identity disk.old) (D.moments disk.old) }

    ensures stepped { Steps actor result condition.old parts.old parts.new (D.moments disk.old) (D.moments disk.new) }
    ensures goes_on { result ≡ Ok Moved.Did → GoesOn actor parts.old.mode parts.new.mode }

    ensures cause { HasStepCause (D.faults disk.old) (D.faults disk.new) result }
    ensures condition { TurnsBroken condition.old condition.new result disk.old disk.new }

    ensures keeps { Keeps result parts.old parts.new
        (D.identity disk.old) (D.identity disk.new) (D.moments disk.new) }
    ensures unread { IsUnreadStep actor → D.reads disk.new ≡ D.reads disk.old }
    ensures slots { parts.new.common.slots ≡ parts.old.common.slots }
    ensures idle { result ≡ Ok Moved.Idle → FindsNothing actor parts.old parts.new disk.old disk.new }
    ensures tags { KeepsClearTags parts.old.mode parts.old.common (Step (actor_of actor))
        (D.moments disk.old) (D.moments disk.new) }
    ensures writes { WritesStepping condition.old actor parts.old (D.moments disk.old) (D.moments disk.new) }
    ensures quiet { HasNoWork (mode_of parts.old.mode) (actor_of actor) → disk.new ≡ disk.old }
{
    match *condition {
        Condition::Broken => Err(StepFault::Broken),
        Condition::Working => match step_next(disk, parts, actor) {
            Ok(moved) => Ok(moved),
            Err(_) => {
                *condition = Condition::Broken;
                Err(StepFault::Disk)
            }
        },
    }
}

/// Lets an actor of a device that works do its next step, as its mode has it. In recovery mode none has anything to do.
///
/// # Errors
///
/// - `Failed`: the disk failed. The device is broken then.
fn step_next<D: Disk>(
    disk: &mut D,
    parts: &mut DeviceParts<'_>,
    actor: Actor,
) -> Result<Moved, Failed>
    requires { IsReady Working parts.old (D.identity disk.old) (D.moments disk.old) }

    ensures next { StepsNext any_mode actor parts.old parts.new (D.moments disk.old) (D.moments disk.new) result }
    ensures goes_on { IfOk result (λ moved. moved ≡ Moved.Did → GoesOn actor parts.old.mode parts.new.mode) }
    ensures idle { IfOk result (λ moved. moved ≡ Moved.Idle
        → FindsNothing actor parts.old parts.new disk.old disk.new) }

    ensures cause { HasCause (D.faults disk.old) (D.faults disk.new) result }

    ensures keeps { Keeps result parts.old parts.new
        (D.identity disk.old) (D.identity disk.new) (D.moments disk.new) }
    ensures unread { IsUnreadStep actor → D.reads disk.new ≡ D.reads disk.old }
    ensures slots { parts.new.common.slots ≡ parts.old.common.slots }
    ensures tags { KeepsClearTags parts.old.mode parts.old.common (Step (actor_of actor))
        (D.moments disk.old) (D.moments disk.new) }
    ensures writes { WritesInStep parts.old.mode actor parts.old.common (D.moments disk.old) (D.moments disk.new) }
    ensures quiet { HasNoWork (mode_of parts.old.mode) (actor_of actor) → disk.new ≡ disk.old }
{
    match &mut parts.mode {
        Mode::Direct(recalculation) => {
            direct_device::step(disk, &mut parts.common, recalculation, actor)
        }
        Mode::Journal(state) => journal_device::step(disk, &mut parts.common, state, actor),
        Mode::Bitmap(regions) => bitmap_device::step(disk, &mut parts.common, regions, actor),
        Mode::Recovery => Ok(recovery_device::step(actor)),
    }
}
