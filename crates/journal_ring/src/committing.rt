//! One write of neighbouring sectors, and a sync.
ghost use Rattle.std.specs.Prelude.{◌≡◌, ◌+◌, ◌≤◌, length, None, OnOk};
ghost use Rattle.disk_model.specs.Causes.{HasCause};
ghost use Rattle.disk_model.specs.Disk.{IsOfRun, IsRun, OnlyAdds, newest_only, with_run};
ghost use Rattle.disk_model.specs.Identity.{IsBound};
ghost use Rattle.disk_model.specs.Moments.{EachSince, IsChangedBy};
ghost use Rattle.journal_ring.specs.Runs.{batch_in, with_cut};

use crate::pieces::Pieces;
use sector_disk::{Disk, Failed};

/// Writes `count` sections, from section `from` on, as one run from one sector of the disk on, and syncs.
///
/// # Errors
///
/// - `Failed`: the disk failed.
pub(crate) fn write_batch<D: Disk>(
    disk: &mut D,
    at: u64,
    pool: &mut Pieces<'_>,
    from: u64,
    count: u64,
) -> Result<(), Failed>
    requires inside { from + count ≤ pool.old.geometry.sections }
    requires bound { IsBound (D.identity disk.old).name }
    requires run { IsRun at (length (batch_in pool.old from count)) (D.identity disk.old).sectors }

    ensures written { OnOk result (IsChangedBy (λ c. newest_only (with_run at (batch_in pool.old from count) c))
        (D.moments disk.old) (D.moments disk.new)) }

    ensures pool { pool.new ≡ with_cut pool.old None }

    ensures cause { HasCause (D.faults disk.old) (D.faults disk.new) result }

    ensures identity { D.identity disk.new ≡ D.identity disk.old }
    ensures unread { D.reads disk.new ≡ D.reads disk.old }

    ensures moments { EachSince (OnlyAdds (IsOfRun at (batch_in pool.old from count)))
        (D.moments disk.old) (D.moments disk.new) }
{
    pool.join();
    disk.write_run(at, pool.batch(from, count))?;
    disk.sync()
}
