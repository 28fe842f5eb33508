//! What is done in the background: batches are committed, entries placed, sections freed, and regions recalculated.
ghost use Rattle.std.specs.Prelude.{◌≡◌, ◌<◌, IfOk, OnErr};
ghost use Rattle.disk_model.specs.Causes.{HasCause};
ghost use Rattle.disk_model.specs.Disk.{OnlyAdds};
ghost use Rattle.disk_model.specs.Moments.{EachSince};
ghost use Rattle.recalculation.specs.Recalculation.{IsOfTagsOrHead, StaysOnDisk, fields_next};
ghost use Rattle.tag_store.specs.Store.{IsStore};
ghost use Rattle.device_model.specs.Actors.{actor_of};
ghost use Rattle.device_parts.specs.Answers.{condition_by, IsUnreadStep};
ghost use Rattle.device_parts.specs.declared.condition.Condition.TheVariants.{Working};
ghost use Rattle.journal_device.specs.Answers.{HasNoWork, MovesFieldsTo, Steps, WritesAs};
ghost use Rattle.journal_device.specs.Answers.{moved_as, steps_left};
ghost use Rattle.journal_device.specs.Device.{IsReady, kept};
ghost use Rattle.journal_device.specs.Recalculating.{HasStepped, StepsRegionIn};
ghost use Rattle.journal_device.specs.Telling.{MovesAs};

use crate::JournalState;
use device_parts::{Actor, Moved, Parts};
use hmac_tag::TagMaker;
use journal_ring::Moved as JournalMoved;
use recalculation::Recalculation;
use sector_disk::{Disk, Failed};
use tag_store::Tags;

/// Lets an actor do its next step: a commit writes the opened sections and syncs, a place writes the oldest entry that
/// is not placed to its place, a settle frees the sections of which all is placed, and a recalculation makes the tags
/// of the least region that awaits and then moves the position. A clean has nothing to do in journal mode.
///
/// Source: Linux, `drivers/md/dm-integrity.c`, `do_journal_write` and `integrity_recalc`.
///
/// # Errors
///
/// - `Failed`: the disk failed.
pub fn step<D: Disk>(
    disk: &mut D,
    parts: &mut Parts,
    state: &mut JournalState<'_>,
    actor: Actor,
) -> Result<Moved, Failed>
    requires { IsReady Working parts.old state.old (D.identity disk.old) (D.moments disk.old) }

    ensures next { Steps actor (kept parts.old state.old) (kept parts.new state.new)
        (D.moments disk.old) (D.moments disk.new) result }
    ensures goes_on { IfOk result (λ moved. moved ≡ Moved.Did
        → steps_left actor state.new < steps_left actor state.old) }
    ensures idle { IfOk result (λ moved. moved ≡ Moved.Idle
        → (kept parts.new state.new ≡ kept parts.old state.old) × (disk.new ≡ disk.old)) }
    ensures moves { IfOk result (λ moved. MovesAs actor moved state.old state.new) }

    ensures cause { HasCause (D.faults disk.old) (D.faults disk.new) result }

    ensures ready { IsReady (condition_by result) parts.new state.new (D.identity disk.new) (D.moments disk.new) }
    ensures slots { parts.new.slots ≡ parts.old.slots }
    ensures identity { D.identity disk.new ≡ D.identity disk.old }
    ensures unread { IsUnreadStep actor → D.reads disk.new ≡ D.reads disk.old }
    ensures heads { MovesFieldsTo (fields_next state.old.recalculation) (kept parts.old state.old)
        (D.moments disk.old) (D.moments disk.new) }
    ensures writes { WritesAs actor parts.old state.old (D.moments disk.old) (D.moments disk.new) }
    ensures quiet { HasNoWork (actor_of actor) → disk.new ≡ disk.old }
{
    let moved = match actor {
        Actor::Commit => state.journal.commit(disk, &parts.tags)?,
        Actor::Place => state.journal.place(disk, &mut parts.tags)?,
        Actor::Settle => state.journal.settle(disk, &mut parts.tags)?,
        Actor::Clean => JournalMoved::Idle,
        Actor::Recalc => recalculate(
            disk,
            &mut parts.tags,
            &parts.maker,
            &mut state.recalculation,
        )?,
    };
    Ok(moved_as(moved))
}

/// Recalculates the least region that awaits, and then moves the position.
///
/// # Errors
///
/// - `Failed`: the disk failed. Any part of it may have been done.
fn recalculate<D: Disk>(
    disk: &mut D,
    tags: &mut Tags,
    maker: &TagMaker,
    recalculation: &mut Recalculation,
) -> Result<JournalMoved, Failed>
    requires same { tags.old.geometry ≡ recalculation.old.awaiting.geometry }
    requires size { maker.now.size ≡ recalculation.old.awaiting.geometry.shape.tag_size }
    requires store { IsStore tags.old (D.identity disk.old) (D.moments disk.old) }

    ensures stepped { IfOk result (λ moved. HasStepped moved maker.now recalculation.old recalculation.new
        tags.old tags.new D.moments disk.old disk.new) }

    ensures cause { HasCause (D.faults disk.old) (D.faults disk.new) result }
    ensures err { OnErr result (StepsRegionIn maker.now recalculation.old tags.old
        (D.moments disk.old) (D.moments disk.new)) }

    ensures stays { StaysOnDisk recalculation.old recalculation.new tags.old tags.new (D.identity disk.old)
        (D.identity disk.new) (D.moments disk.new) }

    ensures writes { EachSince (OnlyAdds (IsOfTagsOrHead tags.old.geometry))
        (D.moments disk.old) (D.moments disk.new) }
{
    match recalculation.step(disk, tags, maker)? {
        Some(_) => Ok(JournalMoved::Did),
        None => Ok(JournalMoved::Idle),
    }
}

/// What a step of the journal did, as one of the device.
fn moved_as(moved: JournalMoved) -> Moved
    ensures { result ≡ moved_as moved }
{
    match moved {
        JournalMoved::Did => Moved::Did,
        JournalMoved::Idle => Moved::Idle,
    }
}
