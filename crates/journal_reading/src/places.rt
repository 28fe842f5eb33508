//! The places of the entries of the sections that count, in the order of the replay.
ghost use Rattle.std.specs.Prelude.{◌≡◌, ◌^◌, ◌<◌, length, slice_get, Some};
ghost use Rattle.image_model.specs.Geometry.{IsGeometry};
ghost use Rattle.journal_reading.specs.Places.{IsWalk, places_of};

use image_model::EntryPlace;
use layout::Geometry;

/// The sections that count, in two ranges, each from its first section to the one after its last.
pub type Walk = [(u64, u64); 2];

/// How many entries the sections of a walk have, used or not.
pub fn entry_count(geometry: &Geometry, walk: &Walk) -> u64
    requires geometry { IsGeometry geometry.now (2 ^ 48) }
    requires walk { IsWalk geometry.now.sections walk.now }

    ensures { result ≡ length (places_of geometry.now walk.now) }
{
    let [(first, first_end), (second, second_end)] = *walk;
    (first_end - first + (second_end - second)) * geometry.shape().entries
}

/// The place of one of these: they are in the order of the sections, and in each of their numbers.
pub fn entry_place(geometry: &Geometry, walk: &Walk, k: u64) -> EntryPlace
    requires geometry { IsGeometry geometry.now (2 ^ 48) }
    requires walk { IsWalk geometry.now.sections walk.now }
    requires k { k < length (places_of geometry.now walk.now) }

    ensures { slice_get (places_of geometry.now walk.now) k ≡ Some result }
{
    let [(first, first_end), (second, _)] = *walk;
    let entries = geometry.shape().entries;
    let at = k / entries;
    let count = first_end - first;
    let section = if at < count {
        first + at
    } else {
        second + (at - count)
    };
    EntryPlace {
        section,
        entry: k % entries,
    }
}
