//! Which blocks of a region are recalculated, and which of them are read by one call.
ghost use Rattle.std.specs.Prelude.{◌≡◌, ◌*◌, ◌+◌, ◌<◌, ◌≤◌};
ghost use Rattle.image_model.specs.Geometry.{layout_of, regions};
ghost use Rattle.recalculate_laws.specs.Position.{region_start};
ghost use Rattle.recalculation.specs.Places.{IsPlaces, IsSideBySide, IsSpan, TellsAreas};

use image_model::Super;
use layout::Geometry;

/// How many sectors are read by one call: 64 KiB.
///
/// Own: behind 64 KiB a larger read is no faster.
pub(crate) const RUN_SECTORS: u64 = 128;

/// A device has no more than 2^48 blocks.
const MOST_BLOCKS_LOG2: u8 = 48;

/// Where the blocks lie, and which of them may await.
#[derive(Clone, Copy, Debug)]
pub(crate) struct Places {
    pub(crate) geometry: Geometry,
    /// No block below this one awaits.
    pub(crate) first: u64,
    /// How many blocks the device has.
    blocks: u64,
    /// How many blocks an area has.
    of_area: u64,
    /// How many blocks a region has, or 2^48 where it has more.
    of_region: u64,
}

impl Places {
    /// The places of a geometry that these fields give. No block below `first` awaits.
    pub(crate) fn of(fields: &Super, geometry: Geometry, first: u64) -> Places
        requires fields { TellsAreas fields.now }
        requires geometry { geometry ≡ layout_of fields.now }

        ensures geometry { result.geometry ≡ geometry }
        ensures first { result.first ≡ first }
        ensures places { IsPlaces result }
    {
        Places {
            geometry,
            first,
            blocks: geometry.blocks(),
            of_area: 1 << (fields.log2_interleave - fields.log2_spb),
            of_region: 1 << fields.log2_region.min(MOST_BLOCKS_LOG2),
        }
    }

    /// The blocks of a region that may await: the first of them, and the one behind the last.
    pub(crate) fn span(&self, region: u64) -> (u64, u64)
        requires places { IsPlaces self.now }
        requires region { region < regions self.now.geometry }

        ensures { IsSpan self.now.geometry self.now.first region result.0 result.1 }
    {
        let begin = region * self.of_region;
        let end = (begin + self.of_region).min(self.blocks);
        (begin.max(self.first), end)
    }

    /// The first sector of a region of the device.
    pub(crate) fn start_of(&self, region: u64) -> u64
        requires places { IsPlaces self.now }
        requires region { region < regions self.now.geometry }

        ensures { result ≡ region_start self.now.geometry region }
    {
        region * self.of_region * self.geometry.shape().spb
    }

    /// How many blocks from `block` on, before `end`, are read by one call: those that lie side by side, and fit.
    pub(crate) fn run(&self, block: u64, end: u64) -> u64
        requires places { IsPlaces self.now }
        requires block { block < end }
        requires end { end ≤ self.now.geometry.blocks }

        ensures some { 1 ≤ result }
        ensures below { block + result ≤ end }
        ensures side_by_side { IsSideBySide self.now.geometry block result }
        ensures fits { result * self.now.geometry.shape.spb ≤ 128 }
    {
        let in_area = self.of_area - block % self.of_area;
        let room = RUN_SECTORS / self.geometry.shape().spb;
        (end - block).min(in_area).min(room)
    }
}
