//! Whether a line told a block whose tag differs.

/// Whether a line told a block whose stored tag is not the tag of its bytes.
#[derive(Clone, Copy, Debug, PartialEq, Eq)]
pub enum TagsFound {
    /// It told none.
    Matching,
    /// It told one.
    Differing,
}
