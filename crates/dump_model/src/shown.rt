//! What a dump shows.

use image_format::ImageFormat;
use image_model::State;

/// What an image shows: its format, and its journal.
#[derive(Clone, Copy, Debug)]
pub struct Dump {
    /// The fields of its superblock, and where all lies by these.
    pub format: ImageFormat,
    /// What stands in the journal's place.
    pub journal: DumpJournal,
}

/// What stands in the place of an image's journal.
#[derive(Clone, Copy, Debug, PartialEq, Eq)]
pub enum DumpJournal {
    /// A journal in this state.
    State(State),
    /// A bitmap of regions.
    Bitmap {
        /// How many regions have their bit set.
        set: u64,
    },
}
