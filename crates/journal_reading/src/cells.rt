//! What a sector of a journal bears, by its bytes.
ghost use Rattle.std.specs.Prelude.{◌≡◌, ℕ, ◌^◌, ◌<◌, ◌≤◌, length, Some};
ghost use Rattle.disk_model.specs.Disk.{sector_in};
ghost use Rattle.image_model.specs.Scan.{cell_number};
ghost use Rattle.journal_reading.specs.Cells.{cell_of_sector};

use commit_id::{Cell, number_of};
use journal_section::{id_at, is_zero};

/// The cell of sector `k` of a journal, by its bytes. A section has so many `sectors`.
pub(crate) fn cell_of(bytes: &[u8], k: u64, sectors: u64) -> Cell
    requires bytes { 512 ≤ length bytes.now }
    requires k { k < 2 ^ 20 }
    requires some { 1 ≤ sectors }
    requires few { sectors ≤ 2 ^ 20 }

    ensures cell { result ≡ cell_of_sector sectors k (sector_in bytes.now 0) }
    ensures number { (number : ℕ) → cell_number result ≡ Some number → number < 4 }
{
    let found = id_at(bytes, 0);
    match number_of(k / sectors, k % sectors, found) {
        Some(number) => Cell::Number(number),
        None if is_zero(bytes, 0) => Cell::Zero,
        None => Cell::Other(found),
    }
}
