//! What a new image is to be.

use image_model::{ImageMode, Padding, Wipe};

/// What a new image is to be, but for the hash, of which nothing stands on the disk.
#[derive(Clone, Copy, Debug)]
pub struct NewImage {
    /// The size of a tag in bytes, 1 to 32.
    pub tag_size: u8,
    /// A block has 2^`log2_spb` sectors, at most 2^3.
    pub log2_spb: u8,
    /// An area has 2^`log2_interleave` data sectors, 2^3 to 2^31.
    pub log2_interleave: u8,
    /// The mode that the image is made for.
    pub mode: ImageMode,
    /// How many sections the journal has, or has room for, at least one.
    pub sections: u32,
    /// A region has at least 2^`log2_region` blocks. The image has the least number from there on
    /// whose bitmap would fit the journal, or does.
    pub log2_region: u8,
    /// What stands before the message of each tag, if something does.
    pub salt: Option<[u8; 16]>,
    /// What the tags of an area take a multiple of.
    pub padding: Padding,
    /// What comes to the blocks.
    pub wipe: Wipe,
}
