//! The text of the line.

use std::fmt;

/// How far the work is.
#[derive(Clone, Copy, Debug, PartialEq, Eq)]
pub(crate) struct Report {
    /// The sector of the disk that comes next, and that behind the last, where these are known.
    pub(crate) place: Option<(u64, u64)>,
    /// How many sectors were read and written.
    pub(crate) moved: u64,
    /// Sectors a second.
    pub(crate) rate: u64,
}

impl fmt::Display for Report {
    fn fmt<W: fmt::Write>(&self, f: &mut fmt::Formatter<W>) -> fmt::Result {
        let rate = self.rate;
        match self.place {
            Some((at, end)) => {
                let percent = percent_of(at, end);
                let left = seconds_left(at, end, rate);
                write!(
                    f,
                    "{percent} %, {rate} sectors a second, {left} seconds left"
                )
            }
            None => {
                let moved = self.moved;
                write!(f, "{moved} sectors, {rate} sectors a second")
            }
        }
    }
}

/// How much of all is done, in hundredths, at most 100.
fn percent_of(at: u64, end: u64) -> u64 {
    let hundredths = u128::from(at) * 100 / u128::from(end.max(1));
    u64::try_from(hundredths).unwrap_or(100).min(100)
}

/// How long the rest takes at this rate.
fn seconds_left(at: u64, end: u64, rate: u64) -> u64 {
    end.saturating_sub(at) / rate.max(1)
}
