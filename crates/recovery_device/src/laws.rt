//! Laws of the calls that make no call of the disk.
ghost use Rattle.recovery_device.specs.Answers.{EndLaw, RestLaw};
ghost use Rattle.recovery_device.specs.Device.{QuietLaw};

/// An event that calls no disk keeps a device in recovery mode, with the requests that are in flight then. It does
/// nothing.
pub fn quiet_events_are_kept()
    ensures { QuietLaw }
{}

/// No actor has anything to do in recovery mode. It does nothing.
pub fn recovery_devices_rest()
    ensures { RestLaw }
{}

/// A close answers well and leaves all as it is: it calls no disk. It does nothing.
pub fn recovery_devices_end()
    ensures { EndLaw }
{}
