//! What is done in the background.
ghost use Rattle.std.specs.Prelude.{◌≡◌};

use device_parts::{Actor, Moved};

/// Lets an actor do its next step. In recovery mode none has anything to do.
pub fn step(actor: Actor) -> Moved
    ensures { result ≡ Moved.Idle }
{
    let _ = actor;
    Moved::Idle
}
