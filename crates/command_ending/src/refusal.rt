//! Why a command is refused.

use crate::{ImageFault, LineRefusal};
use run_model::KeyRefusal;

/// Why a command is refused.
#[derive(Debug, Drop)]
pub enum Refusal {
    /// The words are none that the program has a command for.
    Words,
    /// The bytes of the key file are no key.
    Key(KeyRefusal),
    /// The image is refused.
    Image(ImageFault),
    /// The second image of a mirror is refused.
    Second(ImageFault),
    /// The legs of a mirror differ in how many blocks they have, or in how many bytes a block has.
    Legs {
        /// The blocks of the first leg.
        a_blocks: u64,
        /// The bytes of a block of the first leg.
        a_size: usize,
        /// The blocks of the second leg.
        b_blocks: u64,
        /// The bytes of a block of the second leg.
        b_size: usize,
    },
    /// A line of the script is refused. Lines are numbered from 1.
    Line {
        number: u64,
        refusal: LineRefusal,
    },
    /// The script has more than 16777216 bytes.
    Length,
}
