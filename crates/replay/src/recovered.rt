//! What a recovery tells.

/// Where writing goes on in a journal, and whether anything is left in it.
#[derive(Clone, Copy, Debug, PartialEq, Eq)]
pub struct Recovered {
    /// The section that is written next.
    pub next: u64,
    /// The commit number that it gets.
    pub number: u8,
    /// An entry of the journal is used, or two commit numbers stand on it.
    pub used: bool,
}
