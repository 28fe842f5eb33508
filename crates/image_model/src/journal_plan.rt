//! What counts of a journal: its state, and its sections in order.

/// The state of a journal.
#[derive(Clone, Copy, Debug, PartialEq, Eq)]
pub enum State {
    /// At rest: section `next` is written next, with `number`.
    Rest { next: u64, number: u8 },
    /// A commit was cut, whose number is `newest`.
    Mixed { newest: u8 },
    /// An erasure was cut: of the numbers that it left, `newest` is the newest.
    Erasing { newest: u8 },
    /// Some sectors in a bitmap's place are zero: all others bear `number`, which is 0 where there are none, and no
    /// entry in them is used.
    Blank { number: u8 },
}

/// What counts of a journal.
#[derive(Clone, Copy, Debug, PartialEq, Eq)]
pub struct Plan {
    /// The state of the journal.
    pub state: State,
    /// The sections that count, in order: two ranges, each from its first section to the one after
    /// its last. An empty one is (0, 0).
    pub walk: [(u64, u64); 2],
}
