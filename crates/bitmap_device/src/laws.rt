//! Laws of what makes no call of the disk.
ghost use Rattle.bitmap_device.specs.Device.{KeptTagsLaw, QuietLaw};

/// An event that calls no disk, and changes nothing but the requests, keeps a device in bitmap mode. It does nothing.
pub fn quiet_events_are_kept()
    ensures { QuietLaw }
{}

/// The tag of a block that nobody wrote, and whose region's bit was clear in the image that was opened, is in its place
/// as it was there. It does nothing.
pub fn unwritten_tags_are_kept()
    ensures { KeptTagsLaw }
{}
