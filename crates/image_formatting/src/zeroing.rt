//! Zeros in a run of sectors.
ghost use Rattle.std.specs.Prelude.{◌≡◌, ◌+◌, ◌^◌, ◌≤◌, OnOk};
ghost use Rattle.disk_model.specs.Causes.{HasCause};
ghost use Rattle.disk_model.specs.Disk.{OnlyAdds, last_image};
ghost use Rattle.disk_model.specs.Identity.{IsBound};
ghost use Rattle.disk_model.specs.Moments.{EachSince, HasNow};
ghost use Rattle.image_model.specs.Entries.{IsWithin};
ghost use Rattle.formatting_model.specs.Runs.{ChangesOnly, HasZeros, IsZeroRun};
ghost use Rattle.formatting_model.specs.Written.{IsZeroWithin};

use image_model::SECTOR_SIZE;
use sector_disk::{Disk, Failed};

/// Writes zeros to `count` sectors from sector `at` on, by as many of these zeros at once as there are.
///
/// # Errors
///
/// - `Failed`: the disk failed. Any of the sectors may have got zeros as a candidate.
pub(crate) fn write_zeros<D: Disk>(
    disk: &mut D,
    zeros: &[u8],
    at: u64,
    count: u64,
) -> Result<(), Failed>
    requires bound { IsBound (D.identity disk.old).name }
    requires zeros { IsZeroRun zeros.now }
    requires run { at + count ≤ (D.identity disk.old).sectors }
    requires device { (D.identity disk.old).sectors ≤ 2 ^ 48 }

    ensures written { OnOk result (HasNow (λ c. HasZeros at count (last_image c)) (D.moments disk.new)) }

    ensures cause { HasCause (D.faults disk.old) (D.faults disk.new) result }

    ensures identity { D.identity disk.new ≡ D.identity disk.old }

    ensures moments { EachSince (ChangesOnly (IsWithin at count)) (D.moments disk.old) (D.moments disk.new) }
    ensures writes { EachSince (OnlyAdds (IsZeroWithin at count)) (D.moments disk.old) (D.moments disk.new) }
{
    let most = (zeros.len() / SECTOR_SIZE) as u64;
    let mut done = 0;
    while done < count {
        let part = most.min(count - done);
        disk.write_run(at + done, &zeros[..SECTOR_SIZE * part as usize])?;
        done += part;
    }
    Ok(())
}
