//! Regions that are held, as spans of them.
ghost use Rattle.std.specs.Prelude.{◌≡◌, ◌<◌, ◌≤◌, ℕ, None, true, false, IfSome};
ghost use Rattle.bitmap_mode.specs.Cleaning.{is_held, is_in_span};

/// The regions from `first` on, before `end`, as those of the blocks of a request.
#[derive(Clone, Copy, Debug, PartialEq, Eq)]
pub struct RegionSpan {
    pub first: u64,
    pub end: u64,
}

impl RegionSpan {
    /// Whether the region is one of these.
    fn has(&self, region: u64) -> bool
        ensures { result ≡ is_in_span self.now region }
    {
        self.first <= region && region < self.end
    }
}

/// Where a span ends that has the region, if one does.
pub(crate) fn end_of_held(held: &[RegionSpan], region: u64) -> Option<u64>
    ensures behind { IfSome result (λ behind. region < behind) }
    ensures held { IfSome result (λ behind. (r : ℕ) → region ≤ r → r < behind
        → is_held held.now r ≡ true) }
    ensures free { result ≡ None → is_held held.now region ≡ false }
{
    for span in held {
        if span.has(region) {
            return Some(span.end);
        }
    }
    None
}
