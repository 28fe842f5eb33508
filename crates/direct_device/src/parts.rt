//! What a device in direct mode keeps beside its disk.

use device_parts::Parts;
use recalculation::Recalculation;

/// What a device in direct mode keeps beside its disk.
#[derive(Drop)]
pub struct DirectParts {
    /// What a device keeps in every mode.
    pub parts: Parts,
    /// Which regions await the tags of their blocks, and how far sector 0 says that it is.
    pub recalculation: Recalculation,
}
