//! Which blocks make a region, and how large the bitmap of the regions is.
ghost use Rattle.std.specs.Prelude.{◌≡◌, ◌/◌, ◌^◌, ◌≤◌, ℕ};
ghost use Rattle.std.specs.Int.{IsInRange};
ghost use Rattle.image_model.specs.Geometry.{bitmap_sectors_for, regions_for};

use image_model::GROUP_BITS;

/// The region of a block, where a region has 2^`log2_region` blocks.
pub(crate) fn region_of(block: u64, log2_region: u8) -> u64
    ensures { result ≡ block / 2 ^ log2_region }
{
    block.checked_shr(log2_region as u32).unwrap_or(0)
}

/// How many regions so many blocks make.
pub(crate) fn regions_for(blocks: u64, log2_region: u8) -> u64
    requires blocks { IsInRange 1 (2 ^ 48) blocks }

    ensures { result ≡ regions_for blocks log2_region }
{
    region_of(blocks - 1, log2_region) + 1
}

/// How many sectors their bitmap takes.
pub(crate) fn bitmap_sectors_for(blocks: u64, log2_region: u8) -> u64
    requires blocks { IsInRange 1 (2 ^ 48) blocks }

    ensures { result ≡ bitmap_sectors_for blocks log2_region }
{
    8 * regions_for(blocks, log2_region).div_ceil(GROUP_BITS)
}

/// The least log2 of the blocks of a region, not below `log2_region`, with which the bitmap takes no
/// more than `sectors`.
pub(crate) fn fitting_log2_region(blocks: u64, log2_region: u8, sectors: u64) -> u8
    requires blocks { IsInRange 1 (2 ^ 48) blocks }
    requires sectors { 8 ≤ sectors }

    ensures not_below { log2_region ≤ result }
    ensures fits { bitmap_sectors_for blocks result ≤ sectors }
    ensures least { (k : ℕ) → log2_region ≤ k → bitmap_sectors_for blocks k ≤ sectors → result ≤ k }
{
    let mut fitting = log2_region;
    while bitmap_sectors_for(blocks, fitting) > sectors {
        fitting += 1;
    }
    fitting
}
