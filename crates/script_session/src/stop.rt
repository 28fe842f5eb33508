//! What stops a line.
use sector_disk::{Failed, Memory};

/// What stops a line before it is answered.
#[derive(Clone, Copy, Debug, PartialEq, Eq)]
pub enum Stop {
    /// The disk failed.
    Disk,
    /// There is no memory for a request.
    Memory,
}

impl From<Failed> for Stop {
    ghost use Rattle.std.specs.Prelude.{◌≡◌};
    ghost use Rattle.script_session.specs.declared.stop.Stop.TheVariants as Stops;

    ghost from_gives = { λ _ stop. stop ≡ Stops.Disk };

    fn from(_: Failed) -> Stop {
        Stop::Disk
    }
}

impl From<Memory> for Stop {
    ghost use Rattle.std.specs.Prelude.{◌≡◌};
    ghost use Rattle.script_session.specs.declared.stop.Stop.TheVariants as Stops;

    ghost from_gives = { λ _ stop. stop ≡ Stops.Memory };

    fn from(_: Memory) -> Stop {
        Stop::Memory
    }
}
