//! Where an entry of the journal stands.

/// A place in the journal: an entry of a section.
#[derive(Clone, Copy, Debug, PartialEq, Eq)]
pub struct EntryPlace {
    pub section: u64,
    pub entry: u64,
}
