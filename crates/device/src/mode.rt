//! What a device keeps beside its disk.

use bitmap_device::RegionStates;
use device_parts::Parts;
use journal_device::JournalState;
use recalculation::Recalculation;

/// What a device keeps for its mode.
#[derive(Drop)]
pub enum Mode<'p> {
    /// In direct mode a write goes to its place at once. Kept is which regions await the tags of their blocks, and how
    /// far sector 0 says that it is.
    Direct(Recalculation),
    /// In journal mode a write goes to the journal first.
    Journal(JournalState<'p>),
    /// In bitmap mode a write sets the bit of its region first, and goes to its place then.
    Bitmap(RegionStates),
    /// In recovery mode there are no writes, and no tag is compared: nothing is kept for it.
    Recovery,
}

/// What a device keeps beside its disk.
#[derive(Drop)]
pub struct DeviceParts<'p> {
    /// What it keeps in each mode.
    pub common: Parts,
    /// What it keeps for its own.
    pub mode: Mode<'p>,
}
