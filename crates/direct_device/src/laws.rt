//! Laws of the calls that make no call of the disk.
ghost use Rattle.direct_device.specs.Device.{QuietLaw};
ghost use Rattle.direct_device.specs.Answers.{RestLaw};

/// An event that calls no disk, and changes nothing but the requests, keeps a device in direct mode. It does nothing.
pub fn quiet_events_are_kept()
    ensures { QuietLaw }
{}

/// No actor but the one that recalculates has anything to do in direct mode. It does nothing.
pub fn direct_devices_rest()
    ensures { RestLaw }
{}
