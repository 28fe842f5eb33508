//! What is asked for, and what is answered.
ghost use Rattle.std.specs.Prelude.{◌≡◌, ◌+◌, ◌==◌, ltb, position};
ghost use Rattle.device_model.specs.Request.{overlaps};

/// Whether a request may be served.
#[derive(Clone, Copy, Debug, PartialEq, Eq)]
pub enum Asked {
    /// No request before it holds it.
    Granted,
    /// The request of ticket `by` is the first that holds it.
    Held { by: u64 },
}

/// What the request of a ticket reads or writes: `count` blocks from block `first` on.
#[derive(Clone, Copy)]
pub(crate) struct Ask {
    pub(crate) ticket: u64,
    pub(crate) first: u64,
    pub(crate) count: u64,
}

impl Ask {
    ghost use Rattle.range_lock.specs.Asks.{blocks_of, answer_by, holder_among};

    /// Whether both have a block in common.
    pub(crate) fn overlaps(&self, other: &Ask) -> bool
        ensures { result ≡ overlaps (blocks_of self.now) (blocks_of other.now) }
    {
        self.begins_before_the_end_of(other) && other.begins_before_the_end_of(self)
    }

    /// The ticket of the first of these that has a block in common with it, if one does.
    fn holder_among(&self, earlier: &[Ask]) -> Option<u64>
        ensures { result ≡ holder_among earlier.now (blocks_of self.now) }
    {
        earlier
            .iter()
            .find(|earlier| self.overlaps(earlier))
            .map(|holder| holder.ticket)
    }

    /// The answer to it, where these were asked before.
    pub(crate) fn answer_behind(&self, earlier: &[Ask]) -> Asked
        ensures { result ≡ answer_by (holder_among earlier.now (blocks_of self.now)) }
    {
        match self.holder_among(earlier) {
            Some(by) => Asked::Held { by },
            None => Asked::Granted,
        }
    }

    fn begins_before_the_end_of(&self, other: &Ask) -> bool
        ensures { result ≡ ltb self.now.first (other.now.first + other.now.count) }
    {
        self.first < other.first || self.first - other.first < other.count
    }
}

/// Where the ask of a ticket stands, if there is one.
pub(crate) fn place_of(asks: &[Ask], ticket: u64) -> Option<usize>
    ensures { result ≡ position (λ ask. ask.ticket == ticket) asks.now }
{
    asks.iter().position(|ask| ask.ticket == ticket)
}
