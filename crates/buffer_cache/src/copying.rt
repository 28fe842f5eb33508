//! A piece of a sector that is held, copied out.
ghost use Rattle.std.specs.Prelude.{◌≡◌, ◌+◌, ◌≤◌, length, IfSome, IsSome};
ghost use Rattle.buffer_cache.specs.Cached.{piece_of};
ghost use Rattle.buffer_cache.specs.HeldSectors.{held_in};

use crate::HeldSectors;

/// Copies a piece of a sector that is held, which begins at byte `from` of it.
pub(crate) fn copy_piece(sectors: &HeldSectors, at: u64, from: usize, out: &mut [u8])
    requires fits { from + length out.old ≤ 512 }
    requires found { IsSome (held_in sectors.now at) }

    ensures { IfSome (held_in sectors.now at) (λ held. out.new ≡ piece_of from (length out.old) held.bytes) }
{
    if let Some(held) = sectors.find(at) {
        out.copy_from_slice(&held.bytes[from..from + out.len()]);
    }
}
