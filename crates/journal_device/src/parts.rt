//! What a device in journal mode keeps beside its disk.

use device_parts::Parts;
use journal_mode::Journal;
use recalculation::Recalculation;

/// What a device in journal mode keeps for its mode.
#[derive(Drop)]
pub struct JournalState<'p> {
    /// The journal in use.
    pub journal: Journal<'p>,
    /// Which regions await the tags of their blocks, and how far sector 0 says that it is.
    pub recalculation: Recalculation,
}

/// What a device in journal mode keeps beside its disk.
#[derive(Drop)]
pub struct JournalParts<'p> {
    /// What a device keeps in every mode.
    pub parts: Parts,
    /// What it keeps for its mode.
    pub state: JournalState<'p>,
}
