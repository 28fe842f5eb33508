//! What is done in the background: regions are recalculated.
ghost use Rattle.std.specs.Prelude.{◌≡◌, ◌<◌, IfOk};
ghost use Rattle.disk_model.specs.Causes.{HasCause};
ghost use Rattle.device_model.specs.Actors.{actor_of};
ghost use Rattle.device_model.specs.declared.actor.Actor.TheVariants.{Recalc};
ghost use Rattle.device_parts.specs.Answers.{IsUnreadStep};
ghost use Rattle.recalculation.specs.Recalculation.{fields_next, fields_then};
ghost use Rattle.direct_device.specs.Answers.{HasNoWork, MovesFieldsTo, Steps, WritesAs, steps_left};
ghost use Rattle.direct_device.specs.Device.{IsReady, kept};

use device_parts::{Actor, Moved, Parts};
use recalculation::Recalculation;
use sector_disk::{Disk, Failed};

/// Lets an actor do its next step: a recalculation takes the least region that awaits, and moves the position behind
/// it. The others have nothing to do in direct mode.
///
/// # Errors
///
/// - `Failed`: the disk failed.
pub fn step<D: Disk>(
    disk: &mut D,
    parts: &mut Parts,
    recalculation: &mut Recalculation,
    actor: Actor,
) -> Result<Moved, Failed>
    requires { IsReady parts.old recalculation.old (D.identity disk.old) (D.moments disk.old) }

    ensures next { Steps actor (kept parts.old recalculation.old) (kept parts.new recalculation.new)
        (D.moments disk.old) (D.moments disk.new) result }
    ensures fields { IfOk result (λ moved. moved ≡ Moved.Did
        → recalculation.new.position ≡ fields_then recalculation.old recalculation.new) }
    ensures goes_on { IfOk result (λ moved. moved ≡ Moved.Did
        → steps_left actor recalculation.new < steps_left actor recalculation.old) }
    ensures idle { IfOk result (λ moved. moved ≡ Moved.Idle
        → (kept parts.new recalculation.new ≡ kept parts.old recalculation.old) × (disk.new ≡ disk.old)) }

    ensures cause { HasCause (D.faults disk.old) (D.faults disk.new) result }

    ensures ready { IsReady parts.new recalculation.new (D.identity disk.new) (D.moments disk.new) }
    ensures slots { parts.new.slots ≡ parts.old.slots }
    ensures identity { D.identity disk.new ≡ D.identity disk.old }
    ensures unread { IsUnreadStep actor → D.reads disk.new ≡ D.reads disk.old }
    ensures heads { MovesFieldsTo (fields_next recalculation.old) (kept parts.old recalculation.old)
        (D.moments disk.old) (D.moments disk.new) }
    ensures writes { WritesAs actor parts.old recalculation.old (D.moments disk.old) (D.moments disk.new) }
    ensures quiet { HasNoWork (actor_of actor) → disk.new ≡ disk.old }
{
    match actor {
        Actor::Commit | Actor::Place | Actor::Settle | Actor::Clean => Ok(Moved::Idle),
        Actor::Recalc => recalculate(disk, parts, recalculation),
    }
}

/// Recalculates the least region that awaits, and moves the position.
fn recalculate<D: Disk>(
    disk: &mut D,
    parts: &mut Parts,
    recalculation: &mut Recalculation,
) -> Result<Moved, Failed>
    requires { IsReady parts.old recalculation.old (D.identity disk.old) (D.moments disk.old) }

    ensures next { Steps Recalc (kept parts.old recalculation.old) (kept parts.new recalculation.new)
        (D.moments disk.old) (D.moments disk.new) result }
    ensures fields { IfOk result (λ moved. moved ≡ Moved.Did
        → recalculation.new.position ≡ fields_then recalculation.old recalculation.new) }
    ensures goes_on { IfOk result (λ moved. moved ≡ Moved.Did
        → steps_left Recalc recalculation.new < steps_left Recalc recalculation.old) }
    ensures idle { IfOk result (λ moved. moved ≡ Moved.Idle
        → (kept parts.new recalculation.new ≡ kept parts.old recalculation.old) × (disk.new ≡ disk.old)) }

    ensures cause { HasCause (D.faults disk.old) (D.faults disk.new) result }

    ensures ready { IsReady parts.new recalculation.new (D.identity disk.new) (D.moments disk.new) }
    ensures slots { parts.new.slots ≡ parts.old.slots }
    ensures identity { D.identity disk.new ≡ D.identity disk.old }
    ensures heads { MovesFieldsTo (fields_next recalculation.old) (kept parts.old recalculation.old)
        (D.moments disk.old) (D.moments disk.new) }
    ensures writes { WritesAs Recalc parts.old recalculation.old (D.moments disk.old) (D.moments disk.new) }
{
    match recalculation.step(disk, &mut parts.tags, &parts.maker)? {
        Some(_) => Ok(Moved::Did),
        None => Ok(Moved::Idle),
    }
}
