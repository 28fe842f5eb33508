//! Laws: what is free once all is committed, placed and settled.
ghost use Rattle.journal_ring.specs.RoomLaws.{FreedLaw, KeptLaw, NoneLaw, RoomAgainLaw};

/// A settle frees the oldest sections one by one, as long as all their entries are placed. It does nothing.
pub fn sections_are_freed_in_order()
    ensures freed { FreedLaw }
    ensures kept { KeptLaw }
    ensures none { NoneLaw }
{}

/// After two commits, and a settle of all that is placed, there is room. It does nothing.
pub fn room_comes_again()
    ensures { RoomAgainLaw }
{}
