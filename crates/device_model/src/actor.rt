//! Who works in the background.

/// Who works in the background.
#[derive(Clone, Copy, Debug, PartialEq, Eq)]
pub enum Actor {
    /// Commits the sections of the journal that are not.
    Commit,
    /// Brings the oldest entry that is committed to its place.
    Place,
    /// Frees the sections of the journal whose entries are all placed.
    Settle,
    /// Clears a bit of the bitmap.
    Clean,
    /// Recalculates the tags of a region.
    Recalc,
}
