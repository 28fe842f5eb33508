//! Which blocks have an entry in the journal of an image that would be replayed.
ghost use Rattle.std.specs.Prelude.{◌≡◌, IfOk};
ghost use Rattle.disk_model.specs.Disk.{last_image};
ghost use Rattle.disk_model.specs.Identity.{IsBound};
ghost use Rattle.disk_model.specs.Moments.{HasNow};
ghost use Rattle.image_model.specs.Geometry.{IsGeometry};
ghost use Rattle.image_model.specs.Openable.{journal_fault_of};
ghost use Rattle.image_refusal.specs.Calls.{HasCallCause};
ghost use Rattle.check_model.specs.Faults.{TellsJournalFault};
ghost use Rattle.image_check.specs.Index.{IsIndexOn};

use hmac_tag::TagMaker;
use image_refusal::{CallFault, OpenFault};
use journal_reading::{NewestEntries, judge_journal};
use layout::Geometry;
use sector_disk::Disk;
use std::alloc::Global;

/// Judges the journal of an image, and tells which blocks have an entry in it that would be replayed. It is read in
/// runs, and no memory is taken for it as a whole.
///
/// # Errors
///
/// `Memory` and `Disk` come whenever they hold:
///
/// - `Memory`: there is none for what the journal is judged with, or for what is kept of it.
/// - `Disk`: the disk failed at a read.
/// - `Journal`: it is refused.
pub(crate) fn read_index<D: Disk>(
    alloc: Global,
    disk: &mut D,
    geometry: &Geometry,
    maker: &TagMaker,
) -> Result<NewestEntries, CallFault<OpenFault>>
    requires bound { IsBound (D.identity disk.old).name }
    requires geometry { IsGeometry geometry.now (D.identity disk.old).sectors }
    requires maker { maker.now.size ≡ geometry.now.shape.tag_size }

    ensures index { IfOk result (λ newest. HasNow (λ c. IsIndexOn maker.now.key maker.now.salt
        geometry.now (last_image c) newest) (D.moments disk.old)) }

    ensures refused { TellsJournalFault result (journal_fault_of maker.now.key maker.now.salt geometry.now)
        (D.moments disk.old) }
    ensures cause { HasCallCause (D.faults disk.old) (D.faults disk.new) result }

    ensures identity { D.identity disk.new ≡ D.identity disk.old }
    ensures kept { D.moments disk.new ≡ D.moments disk.old }
{
    let journal = judge_journal(alloc, disk, geometry, maker)?;
    Ok(journal.newest)
}
