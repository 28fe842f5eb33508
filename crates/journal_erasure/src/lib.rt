//! The erasure of a journal all of whose entries are in place, in parts that a cut may leave half done; and the filling
//! of one that is blank.
//!
//! A contract sees an `Erasure` as it is, and the bytes that are written as those of empty sections
//! (`image_model`, `specs/EmptySections.antt`); `specs/Erasing.antt` is the file to read first. The sectors of the
//! newest number are written last, after a sync of all others. So no image has entries that count but those of the
//! journal as it was. What fills a blank journal is said in `specs/Filling.antt`. No memory is taken.
#![tactic(auto)]

mod clearing;
mod erasing;
mod erasure;
mod filling;
mod laws;
mod newest;
mod part;
mod runs;

pub use clearing::clear_sections;
pub use erasing::erase;
pub use erasure::Erasure;
pub use filling::fill;
pub use laws::erasure_is_told;
pub use newest::NewestSectors;
