//! What a ring needs beside its sectors.
ghost use Rattle.std.specs.Prelude.{◌≡◌, IfOk};

use layout::Geometry;
use sector_disk::Memory;
use sector_pool::Run;
use std::alloc::Global;
use std::marker::Model;

/// Memory for a ring over the journal of a geometry, taken before anything is written.
#[derive(Drop)]
pub struct RingRoom {
    pub(crate) geometry: Geometry,
    /// How many entries each section has.
    pub(crate) counts: Vec<u64>,
    /// Room for the runs before the entries of the section that is cut.
    pub(crate) before: Vec<Run<'static>>,
    /// Room for the runs of its entries, and for that of what lies behind it.
    pub(crate) behind: Vec<Run<'static>>,
}

impl Model for RingRoom {
    ghost use Rattle.image_model.specs.Geometry.{Geometry};

    ghost Value = { Geometry };

    ghost use Rattle.std.specs.Vec.{vec_capacity};
    ghost use Rattle.journal_ring.specs.Room.{IsRoom};

    ghost view = { λ room. room.geometry };

    ghost invariant = { λ room. IsRoom room.geometry room.counts.items room.before.items room.behind.items
        (vec_capacity room.before) (vec_capacity room.behind) };
}

impl RingRoom {
    /// Room for the sections of this geometry's journal.
    ///
    /// # Errors
    ///
    /// - `Memory`: there is none for them.
    pub fn new(alloc: Global, geometry: Geometry) -> Result<RingRoom, Memory>
        ensures { IfOk result (λ room. room ≡ geometry) }
    {
        let _ = geometry.blocks();
        let counts = Vec::from_elem(alloc, 0u64, geometry.sections() as usize)?;
        let shape = geometry.shape();
        let runs = shape.entries as usize + 1;
        let before = Vec::with_capacity(alloc, 2)?;
        let behind = Vec::with_capacity(alloc, runs)?;
        Ok(RingRoom {
            geometry,
            counts,
            before,
            behind,
        })
    }
}
