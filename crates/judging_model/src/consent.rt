//! Consent to tags that are made anew.

/// Whether tags under a key may be made anew of blocks whose bytes no tag vouches for: those of a region whose bit is
/// set, or without a bitmap those that are to be recalculated. Who tampers with an image could ask for that. Without a
/// key it is no question.
///
/// Source: Linux, `drivers/md/dm-integrity.c`, `legacy_recalculate`.
#[derive(Clone, Copy, Debug, PartialEq, Eq)]
pub enum Consent {
    /// They may.
    Given,
    /// They may not: such an image is refused.
    Withheld,
}
