//! The regions of the requests in flight.
ghost use Rattle.std.specs.Prelude.{◌≡◌, ℕ};
ghost use Rattle.bitmap_mode.specs.Cleaning.{is_held};
ghost use Rattle.bitmap_device.specs.Answers.{is_held_by};

use bitmap_mode::{RegionSpan, RegionStates};
use request_slots::{MOST_SLOTS, Slots};

/// The regions in which requests in flight have a block: those of one request after the other, in order of submission,
/// and then none.
pub(crate) fn held_spans(slots: &Slots, regions: &RegionStates) -> [RegionSpan; MOST_SLOTS]
    requires { slots.now.blocks ≡ regions.now.geometry.blocks }

    ensures { (region : ℕ) → is_held result region ≡ is_held_by regions.now.geometry slots.now region }
{
    let mut spans = [RegionSpan { first: 0, end: 0 }; MOST_SLOTS];
    let mut place = 0;
    while let Some(range) = slots.range_at(place) {
        spans[place] = regions.span_of(range.first, range.count);
        place += 1;
    }
    spans
}
