//! Which devices are legs of a mirror, and what is left of one: each law is the contract of a function that does nothing.
ghost use Rattle.mirror_core.specs.LegLaws.{OpenedLaw, OpenedLegLaw, RestedLaw, RestingLegLaw, ToldLaw};

use sector_disk::Disk;

/// A device in journal mode that works is a leg once all is taken, and so once it is opened, whatever its disk tells.
pub fn devices_are_legs<D: Disk>()
    ensures resting { RestingLegLaw D.identity D.moments }
    ensures opened { OpenedLegLaw D.identity D.moments }
{}

/// Where its disk tells its content, it stands for a leg of a mirror once all is flushed, and so once it is opened.
pub fn legs_stand()
    ensures rested { RestedLaw }
    ensures opened { OpenedLaw }
{}

/// Each image of a leg may be left by what the mirror was told of it.
pub fn legs_are_left_as_told()
    ensures { ToldLaw }
{}
