//! Whether a device works.

/// Whether a device works.
#[derive(Clone, Copy, Debug, PartialEq, Eq)]
pub enum Condition {
    /// It serves requests.
    Working,
    /// A disk has failed it: it makes no call of the disk any more. Replies that are done can be taken.
    Broken,
}
