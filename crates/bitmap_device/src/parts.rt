//! What a device in bitmap mode keeps beside its disk.

use bitmap_mode::RegionStates;
use device_parts::Parts;

/// What a device in bitmap mode keeps beside its disk.
#[derive(Drop)]
pub struct BitmapParts {
    /// What a device keeps in every mode.
    pub parts: Parts,
    /// Whose bit is set on the disk, which regions await the tags of their blocks, and which are fresh.
    pub regions: RegionStates,
}
