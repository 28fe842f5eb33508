//! Where a sector of the journal stands.

/// A sector of the journal: a section, and which sector of that it is.
#[derive(Clone, Copy, Debug, PartialEq, Eq)]
pub struct SectorPlace {
    pub section: u64,
    pub sector: u64,
}
