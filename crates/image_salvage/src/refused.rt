//! A disk whose image is not salvaged.

use image_refusal::{CallFault, HeadFault};
use sector_disk::Disk;

/// Why an image is not salvaged, with the disk that was lent.
#[derive(Drop)]
pub struct Refused<'d, D: Disk> {
    pub fault: CallFault<HeadFault>,
    pub disk: &'d mut D,
}
