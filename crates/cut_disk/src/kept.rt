//! What a cut may leave of a disk: of each sector what stands there, and what stood there before each write since the
//! last sync.
use std::alloc::{AllocError, Global};

/// How many bytes a sector has.
const SECTOR: usize = 512;

/// The bytes of a disk, and what a cut may leave in their place.
#[derive(Drop)]
pub struct Kept {
    /// All bytes, as reads give them.
    pub bytes: Vec<u8>,
    /// The sectors that were written since the last sync, the oldest first, and what stood there before.
    places: Vec<u64>,
    replaced: Vec<u8>,
    /// Of each sector how often it was written since then.
    pub added: Vec<u32>,
    /// Whether there was no memory to keep what a write has replaced.
    is_short: bool,
}

impl Kept {
    /// A disk of these bytes, of which nothing is written yet.
    pub fn new(alloc: Global, bytes: &[u8]) -> Result<Kept, AllocError> {
        Ok(Kept {
            bytes: Vec::from_slice(alloc, bytes)?,
            added: vec![in alloc; 0; bytes.len() / SECTOR]?,
            places: Vec::new(alloc),
            replaced: Vec::new(alloc),
            is_short: false,
        })
    }

    /// Writes so many sectors, from one on.
    pub fn write(&mut self, at: u64, bytes: &[u8], count: u64) {
        for (k, sector) in bytes.chunks(SECTOR).enumerate() {
            if k as u64 >= count {
                return;
            }
            self.write_sector(at.saturating_add(k as u64), sector);
        }
    }

    /// Writes a sector, and keeps what stood there.
    fn write_sector(&mut self, at: u64, sector: &[u8]) {
        let kept = replace_sector(&mut self.bytes, at as usize, sector, &mut self.replaced);
        if kept.is_err() || self.places.push(at).is_err() {
            self.is_short = true;
        }
        if let Some(added) = self.added.get_mut(at as usize) {
            *added = added.saturating_add(1);
        }
    }

    /// Settles what was written: nothing else is left by a cut.
    pub fn settle(&mut self) {
        for place in &self.places {
            if let Some(added) = self.added.get_mut(*place as usize) {
                *added = 0;
            }
        }
        self.places.clear();
        self.replaced.clear();
    }

    /// The image that has of each sector the candidate of this number: the one at the last sync, or that of the first
    /// write since then, the second one, and so on. None where something was not kept.
    pub fn image(&self, alloc: Global, chosen: &[u32]) -> Result<Option<Vec<u8>>, AllocError> {
        if self.is_short {
            return Ok(None);
        }
        let mut image = Vec::from_slice(alloc, &self.bytes)?;
        let mut passed = vec![in alloc; 0u32; chosen.len()]?;
        for (place, before) in self.places.iter().zip(self.replaced.chunks(SECTOR)) {
            let at = *place as usize;
            let (Some(passed), Some(chosen)) = (passed.get_mut(at), chosen.get(at)) else {
                return Ok(None);
            };
            if *passed == *chosen {
                put_sector(&mut image, at, before);
            }
            *passed = passed.saturating_add(1);
        }
        Ok(Some(image))
    }
}

/// Puts the bytes of a sector, and adds to others what stood there.
fn replace_sector(
    bytes: &mut [u8],
    at: usize,
    sector: &[u8],
    replaced: &mut Vec<u8>,
) -> Result<(), AllocError> {
    let from = at.saturating_mul(SECTOR);
    if let Some(place) = bytes.get(from..from.saturating_add(SECTOR)) {
        replaced.extend_from_slice(place)?;
    }
    put_sector(bytes, at, sector);
    Ok(())
}

/// Puts the bytes of a sector.
fn put_sector(bytes: &mut [u8], at: usize, sector: &[u8]) {
    let from = at.saturating_mul(SECTOR);
    if let Some(place) = bytes.get_mut(from..from.saturating_add(SECTOR))
        && place.len() == sector.len()
    {
        place.copy_from_slice(sector);
    }
}

/// Copies whole sectors out of the bytes of a disk, from one on.
pub fn read_sectors(bytes: &[u8], at: u64, buffer: &mut [u8]) {
    let from = (at as usize).saturating_mul(SECTOR);
    if let Some(run) = bytes.get(from..from.saturating_add(buffer.len()))
        && run.len() == buffer.len()
    {
        buffer.copy_from_slice(run);
    }
}
