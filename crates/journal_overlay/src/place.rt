//! A place that was added.

use image_model::EntryPlace;

/// A place, and the block that it was added for.
#[derive(Clone, Copy)]
pub(crate) struct Added {
    pub(crate) block: u64,
    pub(crate) place: EntryPlace,
}
