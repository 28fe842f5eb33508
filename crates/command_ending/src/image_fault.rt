//! Why an image is refused.
ghost use Rattle.std.specs.Prelude.{◌≡◌};

use image_model::{GeomFault, SuperFault};
use journal_reading::JournalFault;

/// Why an image is refused. The first that holds is told.
#[derive(Clone, Copy, Debug)]
pub enum ImageFault {
    /// Its first sector tells no superblock that is accepted.
    Super(SuperFault),
    /// The disk has no room for what the superblock tells.
    Geom(GeomFault),
    /// Tags under a key would be made anew without consent. The superblock has these flags.
    Consent { flags: u32 },
    /// Its journal is refused: the commit numbers make no plan, or an entry may not be replayed.
    Journal(JournalFault),
}
