//! When a disk in memory stops: after how many further sector writes, if it is to stop at all.
ghost use Rattle.std.specs.Prelude.{◌≡◌, ◌-◌, ◌↔◌, IsTrue, Some};
ghost use Rattle.std.specs.Option.{option_map};
ghost use Rattle.sector_disk.specs.Record.{writes_left};

/// Whether no sector write is left before the stop.
pub fn is_at_stop(stop: Option<u64>) -> bool
    ensures { IsTrue result ↔ (stop ≡ Some 0) }
{
    match stop {
        Some(0) => true,
        _ => false,
    }
}

/// How many more sector writes there are room for and come before the stop.
pub fn count_writes_left(room: usize, stop: Option<u64>) -> u64
    ensures { result ≡ writes_left room stop }
{
    match stop {
        Some(left) => left.min(room as u64),
        None => room as u64,
    }
}

/// The stop after so many sector writes.
pub fn stop_after_writes(stop: Option<u64>, count: u64) -> Option<u64>
    ensures { result ≡ option_map (λ left. left - count) stop }
{
    match stop {
        Some(left) => Some(left.saturating_sub(count)),
        None => None,
    }
}
