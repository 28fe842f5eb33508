//! What holds at each moment of an event: each law is the contract of a function that does nothing.

ghost use Rattle.device_model.specs.MomentLaws.{BrokenLaw, CloseLaw, PendingLaw, QuietLaw, RecoveryLaw, WithinLaw};

/// Between events no write is under way, unless a disk has failed. Within one it is the next write of
/// the request that is served.
pub fn one_write_is_under_way()
    ensures between { PendingLaw }
    ensures within { WithinLaw }
{}

/// No event but a serve writes.
pub fn serves_alone_write()
    ensures { QuietLaw }
{}

/// In recovery mode nothing is ever written or under way.
pub fn recovery_writes_nothing()
    ensures { RecoveryLaw }
{}

/// A close leaves nothing to serve, to flush or to place.
pub fn close_finishes_all()
    ensures { CloseLaw }
{}

/// A broken device does nothing but give the replies that are done.
pub fn broken_devices_rest()
    ensures { BrokenLaw }
{}
