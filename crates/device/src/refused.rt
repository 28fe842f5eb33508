//! A disk on which no device was opened.

use image_refusal::{CallFault, OpenFault};
use sector_disk::Disk;

/// Why a device was not opened, with the disk that it was lent.
#[derive(Drop)]
pub struct Refused<'d, D: Disk> {
    pub fault: CallFault<OpenFault>,
    pub disk: &'d mut D,
}
