//! What a check tells of an image.

use crate::Bad;

/// What a check tells of an image.
#[derive(Debug, Drop)]
pub struct Report {
    /// How many blocks the device has.
    pub blocks: u64,
    /// How many of them await their tags: with a bitmap those of dirty regions, and without one those that are to be
    /// recalculated.
    pub awaiting: u64,
    /// The bad ones, in order.
    pub bad: Vec<Bad>,
}
