//! What a journal in use needs beside its sectors.
ghost use Rattle.std.specs.Prelude.{◌≡◌, IfOk};

use journal_overlay::Overlay;
use journal_ring::RingRoom;
use layout::Geometry;
use sector_disk::Memory;
use std::alloc::Global;
use std::marker::Model;

/// Memory for the journal of a geometry, taken before anything is written.
#[derive(Drop)]
pub struct JournalRoom {
    pub(crate) ring: RingRoom,
    pub(crate) overlay: Overlay,
}

impl Model for JournalRoom {
    ghost use Rattle.image_model.specs.Geometry.{Geometry};

    ghost Value = { Geometry };

    ghost use Rattle.journal_mode.specs.Journal.{IsRoom};

    ghost view = { λ room. room.ring };

    ghost invariant = { λ room. IsRoom room.ring room.overlay };
}

impl JournalRoom {
    /// Room for the journal of this geometry: for its sections, and for the places of as many entries as they can
    /// hold.
    ///
    /// # Errors
    ///
    /// - `Memory`: there is none for them.
    pub fn new(alloc: Global, geometry: Geometry) -> Result<JournalRoom, Memory>
        ensures { IfOk result (λ room. room ≡ geometry) }
    {
        let _ = geometry.blocks();
        let entries = geometry.sections() * geometry.shape().entries;
        let ring = RingRoom::new(alloc, geometry)?;
        let overlay = Overlay::with_capacity(alloc, entries)?;
        Ok(JournalRoom { ring, overlay })
    }
}
