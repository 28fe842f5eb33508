//! What is done in the background: bits are cleared, and regions recalculated.
ghost use Rattle.std.specs.Prelude.{◌≡◌, ◌<◌, IfOk};
ghost use Rattle.disk_model.specs.Causes.{HasCause};
ghost use Rattle.device_model.specs.Actors.{actor_of};
ghost use Rattle.device_model.specs.Progress as Model;
ghost use Rattle.device_parts.specs.Answers.{StepsNext, IsUnreadStep};
ghost use Rattle.device_model.specs.declared.actor.Actor.TheVariants.{Clean, Recalc};
ghost use Rattle.bitmap_mode.specs.States.{least_awaiting};
ghost use Rattle.bitmap_device.specs.Answers.{HasNoWork, WritesAs, WritesClean, WritesRecalc};
ghost use Rattle.bitmap_device.specs.Answers.{least_to_clean, steps_left};
ghost use Rattle.bitmap_device.specs.Device.{IsReady, KeepsTagsBy, in_bitmap, kept};

use crate::held::held_spans;
use bitmap_mode::RegionStates;
use device_parts::{Actor, Moved, Parts};
use sector_disk::{Disk, Failed};

/// Lets an actor do its next step: a clean clears the bit of the least region that needs none and has no block of a
/// request in flight, and a recalculation takes the least region that awaits. The others have nothing to do in bitmap
/// mode.
///
/// # Errors
///
/// - `Failed`: the disk failed.
pub fn step<D: Disk>(
    disk: &mut D,
    parts: &mut Parts,
    regions: &mut RegionStates,
    actor: Actor,
) -> Result<Moved, Failed>
    requires { IsReady parts.old regions.old (D.identity disk.old) (D.moments disk.old) }

    ensures next { StepsNext in_bitmap actor (kept parts.old regions.old) (kept parts.new regions.new)
        (D.moments disk.old) (D.moments disk.new) result }
    ensures goes_on { IfOk result (λ moved. moved ≡ Moved.Did
        → steps_left actor regions.new < steps_left actor regions.old) }
    ensures idle { IfOk result (λ moved. moved ≡ Moved.Idle
        → (kept parts.new regions.new ≡ kept parts.old regions.old) × (disk.new ≡ disk.old)) }
    ensures tags { KeepsTagsBy (Model.Step (actor_of actor)) (kept parts.old regions.old)
        (D.moments disk.old) (D.moments disk.new) }

    ensures cause { HasCause (D.faults disk.old) (D.faults disk.new) result }

    ensures ready { IsReady parts.new regions.new (D.identity disk.new) (D.moments disk.new) }
    ensures slots { parts.new.slots ≡ parts.old.slots }
    ensures identity { D.identity disk.new ≡ D.identity disk.old }
    ensures unread { IsUnreadStep actor → D.reads disk.new ≡ D.reads disk.old }
    ensures writes { WritesAs actor parts.old regions.old (D.moments disk.old) (D.moments disk.new) }
    ensures quiet { HasNoWork (actor_of actor) → disk.new ≡ disk.old }
{
    match actor {
        Actor::Commit | Actor::Place | Actor::Settle => Ok(Moved::Idle),
        Actor::Clean => clean(disk, parts, regions),
        Actor::Recalc => recalculate(disk, parts, regions),
    }
}

/// Clears the bit of the least region that needs none and has no block of a request in flight.
fn clean<D: Disk>(disk: &mut D, parts: &Parts, regions: &mut RegionStates) -> Result<Moved, Failed>
    requires { IsReady parts.now regions.old (D.identity disk.old) (D.moments disk.old) }

    ensures next { StepsNext in_bitmap Clean (kept parts.now regions.old) (kept parts.now regions.new)
        (D.moments disk.old) (D.moments disk.new) result }
    ensures goes_on { IfOk result (λ moved. moved ≡ Moved.Did
        → steps_left Clean regions.new < steps_left Clean regions.old) }
    ensures idle { IfOk result (λ moved. moved ≡ Moved.Idle
        → (regions.new ≡ regions.old) × (disk.new ≡ disk.old)) }
    ensures tags { KeepsTagsBy (Model.Step Model.Clean) (kept parts.now regions.old)
        (D.moments disk.old) (D.moments disk.new) }

    ensures cause { HasCause (D.faults disk.old) (D.faults disk.new) result }

    ensures ready { IsReady parts.now regions.new (D.identity disk.new) (D.moments disk.new) }
    ensures identity { D.identity disk.new ≡ D.identity disk.old }
    ensures writes { WritesClean (least_to_clean parts.now regions.old) regions.old
        (D.moments disk.old) (D.moments disk.new) }
{
    let held = held_spans(&parts.slots, regions);
    let Some(region) = regions.least_to_clean(&held) else {
        return Ok(Moved::Idle);
    };
    regions.clean(disk, &parts.tags, region)?;
    Ok(Moved::Did)
}

/// Recalculates the least region that awaits.
fn recalculate<D: Disk>(
    disk: &mut D,
    parts: &mut Parts,
    regions: &mut RegionStates,
) -> Result<Moved, Failed>
    requires { IsReady parts.old regions.old (D.identity disk.old) (D.moments disk.old) }

    ensures next { StepsNext in_bitmap Recalc (kept parts.old regions.old) (kept parts.new regions.new)
        (D.moments disk.old) (D.moments disk.new) result }
    ensures goes_on { IfOk result (λ moved. moved ≡ Moved.Did
        → steps_left Recalc regions.new < steps_left Recalc regions.old) }
    ensures idle { IfOk result (λ moved. moved ≡ Moved.Idle
        → (kept parts.new regions.new ≡ kept parts.old regions.old) × (disk.new ≡ disk.old)) }
    ensures tags { KeepsTagsBy (Model.Step Model.Recalc) (kept parts.old regions.old)
        (D.moments disk.old) (D.moments disk.new) }

    ensures cause { HasCause (D.faults disk.old) (D.faults disk.new) result }

    ensures ready { IsReady parts.new regions.new (D.identity disk.new) (D.moments disk.new) }
    ensures slots { parts.new.slots ≡ parts.old.slots }
    ensures identity { D.identity disk.new ≡ D.identity disk.old }
    ensures writes { WritesRecalc (least_awaiting regions.old) parts.old regions.old
        (D.moments disk.old) (D.moments disk.new) }
{
    match regions.recalculate(disk, &mut parts.tags, &parts.maker)? {
        Some(_) => Ok(Moved::Did),
        None => Ok(Moved::Idle),
    }
}
