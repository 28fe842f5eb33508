//! Laws of what makes no call of the disk.
ghost use Rattle.journal_device.specs.Device.{QuietLaw};

/// An event that calls no disk, and changes nothing but the requests, keeps a device in journal mode. It does nothing.
pub fn quiet_events_are_kept()
    ensures { QuietLaw }
{}
