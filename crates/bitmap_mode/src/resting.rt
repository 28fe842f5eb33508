//! Regions that are fresh no more.
ghost use Rattle.std.specs.Prelude.{◌≡◌, ◌^◌, ◌<◌, ◌≤◌, ℕ, false};
ghost use Rattle.image_model.specs.Geometry.{regions};
ghost use Rattle.dirty_bitmap.specs.Regions.{has_region};
ghost use Rattle.bitmap_mode.specs.States.{AreToClean};

use dirty_bitmap::{Bits, RegionSet};
use recalculation::Awaiting;

/// Makes no region fresh any more. Each that was, and whose bit is set and needs none then, is one to be cleaned.
pub(crate) fn rest_all(
    bits: &Bits,
    awaiting: &Awaiting,
    fresh: &mut RegionSet,
    to_clean: &mut RegionSet,
)
    requires bits { bits.now.geometry ≡ awaiting.now.geometry }
    requires fresh { fresh.old.size ≡ regions awaiting.now.geometry }
    requires few { fresh.old.size ≤ 2 ^ 48 }
    requires to_clean { AreToClean awaiting.now.geometry bits.now awaiting.now fresh.old to_clean.old }

    ensures none { (region : ℕ) → region < fresh.new.size → has_region fresh.new region ≡ false }
    ensures size { fresh.new.size ≡ fresh.old.size }
    ensures to_clean { AreToClean awaiting.now.geometry bits.now awaiting.now fresh.new to_clean.new }
{
    let mut from = 0;
    'fresh: while let Some(region) = fresh.next(from) {
        fresh.remove(region);
        if bits.is_set(region) && !awaiting.awaits(region) {
            to_clean.insert(region);
        }
        from = region + 1;
    }
}
