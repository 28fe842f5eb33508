//! How far the committed entries of a ring are placed.
ghost use Rattle.std.specs.Prelude.{◌≡◌, ◌+◌, ◌-◌, ◌^◌, ◌<◌};
ghost use Rattle.journal_ring.specs.RoomLaws.{HasBounds};
ghost use Rattle.journal_ring.specs.Sections.{wrap};
ghost use Rattle.place_writer.specs.Placement.{IsPlacementOf, after_next, next_place};

use image_model::EntryPlace;
use journal_ring::Ring;

/// The oldest committed sections, of which each entry is placed, and the first entries of the next one.
#[derive(Clone, Copy, Drop)]
pub(crate) struct Placement {
    /// How many sections are wholly placed.
    pub(crate) sections: u64,
    /// How many entries of the next one are.
    pub(crate) entries: u64,
}

/// Where the oldest committed entry stands that is not placed.
pub(crate) fn next(placement: Placement, ring: &Ring<'_>) -> Option<EntryPlace>
    requires placement { IsPlacementOf placement ring.now }

    ensures place { result ≡ next_place placement ring.now }
    ensures bounds { HasBounds ring.now }
{
    let Some(oldest) = ring.oldest() else {
        return None;
    };
    if placement.sections == ring.sections() {
        return None;
    }
    let place = EntryPlace {
        section: behind(oldest, placement.sections, ring.sections()),
        entry: placement.entries,
    };
    if ring.committed(place) {
        Some(place)
    } else {
        None
    }
}

/// The section that lies so far behind another one in a ring of so many.
fn behind(section: u64, count: u64, sections: u64) -> u64
    requires section { section < sections }
    requires count { count < sections }

    ensures { result ≡ wrap sections (section + count) }
{
    let ahead = sections - section;
    if count < ahead {
        section + count
    } else {
        count - ahead
    }
}

/// After the next entry is placed, of a section of so many.
pub(crate) fn after_next(placement: Placement, count: u64) -> Placement
    requires sections { placement.sections < 2 ^ 20 }
    requires entries { placement.entries < count }

    ensures { result ≡ after_next placement count }
{
    let Placement { sections, entries } = placement;
    if entries + 1 == count {
        return Placement {
            sections: sections + 1,
            entries: 0,
        };
    }
    Placement {
        sections,
        entries: entries + 1,
    }
}
