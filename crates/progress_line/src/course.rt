//! In which order a command goes over its image, which tells how far it is.
ghost use Rattle.std.specs.Prelude.{◌≡◌};
ghost use Rattle.progress_line.specs.Order.{course_of};

use image_model::MOST_SECTORS;
use layout::Geometry;
use superblock::read;

/// In which order a command goes over its image.
#[derive(Clone, Copy, Debug, PartialEq, Eq)]
pub enum Course {
    /// From the image's first sector to its last one that has data, as a check does.
    Image,
    /// From the disk's first sector to its last, as a format does.
    Disk,
    /// In no order that tells how much is left, as a run does.
    Scattered,
}

impl Course {
    /// The course of a command, by its first word.
    pub fn of(command: &str) -> Course
        ensures { result ≡ course_of command.now }
    {
        match command {
            "check" => Course::Image,
            "salvage" => Course::Image,
            "format" => Course::Disk,
            "resize" => Course::Disk,
            _ => Course::Scattered,
        }
    }
}

/// The sector of the disk behind the last one that has data, by the first sector of an image, if that has a geometry.
pub(crate) fn end_of_image(first: &[u8]) -> Option<u64> {
    let bytes = first.first_chunk::<512>()?;
    let Ok(fields) = read(bytes) else {
        return None;
    };
    let Ok(geometry) = Geometry::new(&fields, MOST_SECTORS) else {
        return None;
    };
    let last = geometry.blocks().checked_sub(1)?;
    geometry.data_at(last).checked_add(1 << fields.log2_spb)
}
