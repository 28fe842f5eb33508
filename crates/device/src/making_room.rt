//! Steps of the actors of a device: one, as many as there are, and those that make room in its journal.
ghost use Rattle.std.specs.Prelude.{◌≡◌, IfOk, OnOk, true};
ghost use Rattle.disk_model.specs.Causes.{HasCause};
ghost use Rattle.device_model.specs.Actors.{actor_of};
ghost use Rattle.device_model.specs.Progress.{Step};
ghost use Rattle.device_model.specs.Script.{IsOfJournal};
ghost use Rattle.device_parts.specs.Answers.{condition_by, moved_answer};
ghost use Rattle.device.specs.Answers.{FindsNothing, GoesOn, HasNoWork};
ghost use Rattle.device.specs.Calls.{AnswersEvent, Runs, Works};
ghost use Rattle.device.specs.Device.{mode_of};
ghost use Rattle.device.specs.Run.{all_steps, one_step, room_steps};
ghost use Rattle.device.specs.Telling.{IsDoneIn, IsDueIn, has_room_in};

use crate::Device;
use device_parts::{Actor, Moved};
use sector_disk::{Disk, Failed};

/// Lets an actor do its next step.
///
/// # Errors
///
/// - `Failed`: the disk failed. The device is broken then.
pub fn step<'d, 'p, D: Disk>(device: &mut Device<'d, 'p, D>, actor: Actor) -> Result<Moved, Failed>
    requires works { Works D.identity D.moments device.old.condition device.old.parts device.old.disk.now }

    ensures slots { device.new.parts.common.slots ≡ device.old.parts.common.slots }
    ensures runs { Runs D.identity D.moments (one_step actor) device.old.parts device.new.parts
        device.old.disk.now device.new.disk.now result }
    ensures turn { device.new.condition ≡ condition_by result }
    ensures answers { AnswersEvent (Step (actor_of actor)) moved_answer device.old.parts
        (D.moments device.old.disk.now) result }
    ensures goes_on { IfOk result (λ moved. moved ≡ Moved.Did
        → GoesOn actor device.old.parts.mode device.new.parts.mode) }
    ensures idle { IfOk result (λ moved. moved ≡ Moved.Idle
        → FindsNothing actor device.old.parts device.new.parts device.old.disk.now device.new.disk.now) }
    ensures quiet { HasNoWork (mode_of device.old.parts.mode) (actor_of actor)
        → device.new.disk.now ≡ device.old.disk.now }

    ensures cause { HasCause (D.faults device.old.disk.now) (D.faults device.new.disk.now) result }
    ensures same_disk { device.new.disk.ghost_name ≡ device.old.disk.ghost_name }
{
    match device.step(actor) {
        Ok(moved) => Ok(moved),
        Err(_) => Err(Failed),
    }
}

/// Lets an actor of the journal step until it has nothing to do.
///
/// # Errors
///
/// - `Failed`: the disk failed. The device is broken then.
pub fn step_until_idle<'d, 'p, D: Disk>(
    device: &mut Device<'d, 'p, D>,
    actor: Actor,
) -> Result<(), Failed>
    requires works { Works D.identity D.moments device.old.condition device.old.parts device.old.disk.now }
    requires actor { IsOfJournal (actor_of actor) }

    ensures slots { device.new.parts.common.slots ≡ device.old.parts.common.slots }
    ensures runs { Runs D.identity D.moments (all_steps actor) device.old.parts device.new.parts
        device.old.disk.now device.new.disk.now result }
    ensures turn { device.new.condition ≡ condition_by result }
    ensures due { OnOk result (IsDueIn actor device.old.parts.mode → IsDoneIn actor device.new.parts.mode) }

    ensures cause { HasCause (D.faults device.old.disk.now) (D.faults device.new.disk.now) result }
    ensures same_disk { device.new.disk.ghost_name ≡ device.old.disk.ghost_name }
{
    'steps: loop {
        match step(device, actor)? {
            Moved::Did => {}
            Moved::Idle => return Ok(()),
        }
    }
}

/// Makes room in the journal: all is committed, placed and settled, each until nothing is left to do.
///
/// # Errors
///
/// - `Failed`: the disk failed. The device is broken then.
pub fn make_room<'d, 'p, D: Disk>(device: &mut Device<'d, 'p, D>) -> Result<(), Failed>
    requires works { Works D.identity D.moments device.old.condition device.old.parts device.old.disk.now }

    ensures slots { device.new.parts.common.slots ≡ device.old.parts.common.slots }
    ensures runs { Runs D.identity D.moments room_steps device.old.parts device.new.parts
        device.old.disk.now device.new.disk.now result }
    ensures turn { device.new.condition ≡ condition_by result }
    ensures room { OnOk result (has_room_in device.new.parts.mode ≡ true) }

    ensures cause { HasCause (D.faults device.old.disk.now) (D.faults device.new.disk.now) result }
    ensures same_disk { device.new.disk.ghost_name ≡ device.old.disk.ghost_name }
{
    step_until_idle(device, Actor::Commit)?;
    step_until_idle(device, Actor::Place)?;
    step_until_idle(device, Actor::Settle)?;
    Ok(())
}
