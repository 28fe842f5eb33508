//! What follows once all entries are in their places: a journal at rest goes on, a blank one is filled, and any other
//! is erased.
ghost use Rattle.std.specs.Prelude.{◌≡◌, ◌↔◌, ◌⊎◌, false, ℕ, ◌<◌, ◌≤◌, get_or, slice_index_or, IfOk, OnOk};
ghost use Rattle.disk_model.specs.Causes.{HasCause};
ghost use Rattle.disk_model.specs.Disk.{OnlyAdds};
ghost use Rattle.disk_model.specs.Moments.{EachSince};
ghost use Rattle.image_model.specs.Walk.{sections_of};
ghost use Rattle.image_model.specs.declared.journal_plan.State.TheVariants.{Blank, Erasing, Mixed, Rest};
ghost use Rattle.journal_erasure.specs.Erasing.{IsErasureFor, IsErasureOf};
ghost use Rattle.tag_store.specs.Store.{IsStore};
ghost use Rattle.place_model.specs.Opened.{next_by};
ghost use Rattle.replay.specs.Calls.{LeavesCutsOfEach, LeavesEach, LeavesErased, LeavesReplayed};
ghost use Rattle.replay.specs.Recovery.{GoesOnIn, IsReplayed};
ghost use Rattle.replay.specs.Replaying.{HasScratch, IsReplaying};
ghost use Rattle.replay.specs.Writes.{IsOfUnnumbered};
ghost use Rattle.place_model.specs.RecoveryWrites.{IsOfEmptyJournal};

use crate::filling::fill_journal;
use crate::recovered::Recovered;
use commit_id::State;
use image_model::COMMIT_NUMBERS;
use journal_erasure::{Erasure, erase};
use journal_reading::JudgedJournal;
use layout::Geometry;
use sector_disk::{Disk, Failed};
use tag_store::Tags;

/// Erases a journal whose entries are all in their places and synced, and tells where writing goes on. What stood in
/// `scratch` is lost.
///
/// # Errors
///
/// - `Failed`: the disk failed. Every image has the same cells.
pub(crate) fn erase_journal<D: Disk>(
    disk: &mut D,
    geometry: &Geometry,
    tags: &Tags,
    erasure: &Erasure,
    scratch: &mut [u8],
) -> Result<Recovered, Failed>
    requires scratch { HasScratch geometry.now scratch.old tags.now (D.identity disk.old) (D.moments disk.old) }
    requires erasure { IsErasureFor geometry.now erasure.now }

    ensures left { IfOk result (LeavesErased geometry.now erasure.now tags.now
        (D.moments disk.old) (D.moments disk.new)) }

    ensures next { IfOk result (λ at. at.next ≡ 0) }
    ensures place { IfOk result (GoesOnIn geometry.now) }
    ensures unused { IfOk result (λ at. at.used ≡ false) }
    ensures cause { HasCause (D.faults disk.old) (D.faults disk.new) result }

    ensures store { OnOk result (IsStore tags.now (D.identity disk.new) (D.moments disk.new)) }
    ensures identity { D.identity disk.new ≡ D.identity disk.old }

    ensures cuts { LeavesCutsOfEach (IsErasureOf geometry.now erasure.now) tags.now
        (D.moments disk.old) (D.moments disk.new) }
    ensures moments { EachSince (OnlyAdds (IsOfEmptyJournal geometry.now)) (D.moments disk.old) (D.moments disk.new) }
{
    erase(disk, geometry, erasure, scratch)?;
    Ok(Recovered {
        next: 0,
        number: (erasure.number + 3) % COMMIT_NUMBERS,
        used: false,
    })
}

/// The section that is erased before all others: the first of those that count, so that no cut leaves another reader of
/// the format old entries as the newest. Section 0 where none counts.
fn first_counted(walk: &[(u64, u64); 2], sections: u64) -> u64
    requires first { (slice_index_or walk.now 0 (0, 0)).1 ≤ sections }
    requires second { (slice_index_or walk.now 1 (0, 0)).1 ≤ sections }
    requires some { 0 < sections }

    ensures first { result ≡ get_or (sections_of walk.now) 0 0 }
    ensures inside { result < sections }
{
    let [(first, first_end), (second, second_end)] = *walk;
    if first < first_end {
        first
    } else if second < second_end {
        second
    } else {
        0
    }
}

/// Erases a journal that a scan has seen, whose newest number this is.
///
/// # Errors
///
/// - `Failed`: the disk failed. Every image has the same cells.
fn erase_scanned<D: Disk>(
    disk: &mut D,
    geometry: &Geometry,
    tags: &Tags,
    journal: &JudgedJournal,
    newest: u8,
    scratch: &mut [u8],
) -> Result<Recovered, Failed>
    requires replaying { IsReplaying geometry.now scratch.old journal.now tags.now
        (D.identity disk.old) (D.moments disk.old) }
    requires newest { (journal.now.plan.state ≡ Mixed newest) ⊎ (journal.now.plan.state ≡ Erasing newest) }

    ensures left { IfOk result (LeavesEach (λ d. IsReplayed d geometry.now journal.now) tags.now
        (D.moments disk.old) (D.moments disk.new)) }

    ensures next { IfOk result (λ at. at.next ≡ 0) }
    ensures place { IfOk result (GoesOnIn geometry.now) }

    ensures cause { HasCause (D.faults disk.old) (D.faults disk.new) result }

    ensures store { OnOk result (IsStore tags.now (D.identity disk.new) (D.moments disk.new)) }
    ensures identity { D.identity disk.new ≡ D.identity disk.old }

    ensures cuts { LeavesCutsOfEach (λ d. IsReplayed d geometry.now journal.now) tags.now
        (D.moments disk.old) (D.moments disk.new) }
    ensures moments { EachSince (OnlyAdds (IsOfEmptyJournal geometry.now)) (D.moments disk.old) (D.moments disk.new) }
{
    let first = first_counted(&journal.plan.walk, geometry.sections());
    let erasure = Erasure::scanned(&journal.grid, newest, first);
    erase_journal(disk, geometry, tags, &erasure, scratch)
}

/// Whether anything is left in a journal at rest that goes on here, and of which so many entries were replayed.
fn is_used(next: u64, count: u64) -> bool
    ensures { (result ≡ false) ↔ ((next ≡ 0) × (count ≡ 0)) }
{
    next != 0 || count != 0
}

/// Goes on where a journal is at rest, fills it where a change of mode left it blank, and erases it where a commit or
/// an erasure was cut. What stood in `scratch` is lost.
///
/// # Errors
///
/// - `Failed`: the disk failed. Every image has the same cells.
pub(crate) fn finish<D: Disk>(
    disk: &mut D,
    geometry: &Geometry,
    tags: &Tags,
    journal: &JudgedJournal,
    scratch: &mut [u8],
) -> Result<Recovered, Failed>
    requires replaying { IsReplaying geometry.now scratch.old journal.now tags.now
        (D.identity disk.old) (D.moments disk.old) }

    ensures left { IfOk result (LeavesReplayed geometry.now journal.now tags.now
        (D.moments disk.old) (D.moments disk.new)) }

    ensures next { IfOk result (λ at. at.next ≡ next_by journal.now.plan.state) }
    ensures rest { (next number : ℕ) → journal.now.plan.state ≡ Rest next number
        → D.moments disk.new ≡ D.moments disk.old }
    ensures place { IfOk result (GoesOnIn geometry.now) }

    ensures cause { HasCause (D.faults disk.old) (D.faults disk.new) result }

    ensures store { OnOk result (IsStore tags.now (D.identity disk.new) (D.moments disk.new)) }
    ensures identity { D.identity disk.new ≡ D.identity disk.old }

    ensures cuts { LeavesCutsOfEach (λ d. IsReplayed d geometry.now journal.now) tags.now
        (D.moments disk.old) (D.moments disk.new) }
    ensures moments { EachSince (OnlyAdds (IsOfEmptyJournal geometry.now)) (D.moments disk.old) (D.moments disk.new) }
    ensures blank { (number : ℕ) → journal.now.plan.state ≡ Blank number
        → EachSince (OnlyAdds (IsOfUnnumbered geometry.now journal.now.grid.cells.items number))
        (D.moments disk.old) (D.moments disk.new) }
{
    match journal.plan.state {
        State::Rest { next, number } => Ok(Recovered {
            next,
            number,
            used: is_used(next, journal.count),
        }),
        State::Mixed { newest } => { erase_scanned(disk, geometry, tags, journal, newest, scratch) }
        State::Erasing { newest } => {
            erase_scanned(disk, geometry, tags, journal, newest, scratch)
        }
        State::Blank { number } => { fill_journal(disk, geometry, tags, journal, number, scratch) }
    }
}
