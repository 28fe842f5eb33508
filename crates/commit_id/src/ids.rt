//! Commit ids: each marks a sector of the journal as written, by its place and a commit number.
ghost use Rattle.std.specs.Prelude.{◌≡◌, ◌↔◌, ℕ, ◌^◌, ◌<◌, Some};
ghost use Rattle.image_model.specs.CommitId.{commit_id, number_of};
ghost use Rattle.commit_id.specs.Ids.{IsIdOfOne};

use image_model::COMMIT_NUMBERS;

/// The bits that stand for commit number 0, and by which those of each further number go up.
///
/// Source: Linux, `drivers/md/dm-integrity.c`, `create_journal`.
const PATTERN: u64 = 0x1111_1111_1111_1111;

/// The commit id of sector `sector` of section `section` under commit number `number`.
///
/// Source: Linux, `drivers/md/dm-integrity.c`, `dm_integrity_commit_id`.
pub fn id(section: u64, sector: u64, number: u8) -> u64
    requires section { section < 2 ^ 20 }
    requires sector { sector < 2 ^ 20 }
    requires number { number < 4 }

    ensures id { result ≡ commit_id section sector number }
    ensures only { IsIdOfOne section sector number result }
{
    PATTERN * (number as u64 + 1) ^ (section << 32) ^ sector
}

/// The commit number under which sector `sector` of section `section` has the id `found`. None where
/// there is no such number.
pub fn number_of(section: u64, sector: u64, found: u64) -> Option<u8>
    requires section { section < 2 ^ 20 }
    requires sector { sector < 2 ^ 20 }

    ensures number { result ≡ number_of section sector found }
    ensures some { (number : ℕ) → (result ≡ Some number)
        ↔ ((number < 4) × (commit_id section sector number ≡ found)) }
{
    for number in 0..COMMIT_NUMBERS {
        if id(section, sector, number) == found {
            return Some(number);
        }
    }
    None
}
