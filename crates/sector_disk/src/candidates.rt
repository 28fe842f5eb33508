//! The candidates of a sector, found by a walk over the record of a disk in memory.
ghost use Rattle.std.specs.Prelude.{◌≡◌, ◌⊎◌, ◌+◌, ◌*◌, ◌^◌, ◌<◌, ◌≤◌, ◌↔◌, ℕ, List, [], length, IsTrue, slice_index_or, slice_index, EachIndex};
ghost use Rattle.disk_model.specs.Disk.{Content, sector_in};
ghost use Rattle.sector_disk.specs.Record.{after_event, content_after, content_of_bytes, IsNoted};

use crate::record::Event;
use disk_model::SECTOR_SIZE;

/// What a walk over the record has found of a sector so far.
#[derive(Drop)]
struct Found {
    /// Its last candidate.
    last: [u8; SECTOR_SIZE],
    /// How many it has.
    count: usize,
    /// The one that is looked for, where it has come.
    chosen: [u8; SECTOR_SIZE],
}

/// Takes note of an event: of the candidates of sector `at`, where that of this index is looked for.
fn note(event: &Event, at: u64, index: usize, found: &mut Found)
    requires { found.old.count + 1 < 2 ^ 64 }

    ensures noted { (c : Content) → IsNoted c at index found.old.last found.old.count found.old.chosen
        → IsNoted (after_event event.now c) at index found.new.last found.new.count found.new.chosen }
    ensures count { found.new.count ≤ found.old.count + 1 ⊎ found.new.count ≡ 1 }
{
    match event {
        Event::Write { at: place, bytes } => {
            if *place == at {
                found.last = *bytes;
                if found.count == index {
                    found.chosen = *bytes;
                }
                found.count += 1;
            }
        }
        Event::Sync => {
            found.count = 1;
            if index == 0 {
                found.chosen = found.last;
            }
        }
    }
}

/// Copies the candidate of sector `at` that has this index, the oldest first.
fn copy_candidate(base: &[u8], events: &[Event], at: u64, index: usize, out: &mut [u8])
    requires inside { 512 * (at + 1) ≤ length base.now }
    requires index { index < length (content_after (content_of_bytes base.now) events.now at) }
    requires sector { length out.old ≡ 512 }

    ensures { out.new ≡ slice_index_or (content_after (content_of_bytes base.now) events.now at) index [] }
{
    let from = SECTOR_SIZE * at as usize;
    let mut first = [0; SECTOR_SIZE];
    first.copy_from_slice(&base[from..from + 512]);
    let mut found = Found {
        last: first,
        count: 1,
        chosen: first,
    };
    for event in events {
        note(event, at, index, &mut found);
    }
    out.copy_from_slice(&found.chosen);
}

/// How many candidates a sector has after an event, where it had `count` before.
fn count_after(event: &Event, at: u64, count: usize) -> usize
    requires { count + 1 < 2 ^ 64 }

    ensures count { (c : Content) → count ≡ length (c at)
        → result ≡ length (after_event event.now c at) }
    ensures bound { result ≤ count + 1 }
{
    match event {
        Event::Write { at: place, .. } if *place == at => count + 1,
        Event::Write { .. } => count,
        Event::Sync => 1,
    }
}

/// How many candidates sector `at` has, whatever stood in it at first.
fn count_candidates(events: &[Event], at: u64) -> usize
    ensures { (base : List ℕ) → result ≡ length (content_after (content_of_bytes base) events.now at) }
{
    let mut count = 1;
    for event in events {
        count = count_after(event, at, count);
    }
    count
}

/// Copies the chosen candidate of each sector.
pub fn copy_choice(base: &[u8], events: &[Event], choice: &[u32], out: &mut [u8])
    requires base { length base.now ≡ 512 * length choice.now }
    requires choice { EachIndex choice.now (λ s. slice_index choice.now s
        < length (content_after (content_of_bytes base.now) events.now s)) }
    requires out { length out.old ≡ length base.now }

    ensures { EachIndex choice.now (λ s. sector_in out.new s
        ≡ slice_index_or (content_after (content_of_bytes base.now) events.now s)
        (slice_index choice.now s) []) }
{
    for (s, index) in choice.iter().enumerate() {
        copy_candidate(
            base,
            events,
            s as u64,
            *index as usize,
            &mut out[SECTOR_SIZE * s..SECTOR_SIZE * s + SECTOR_SIZE],
        );
    }
}

/// Whether each sector has a candidate at the chosen index.
pub fn has_each(base: &[u8], events: &[Event], choice: &[u32]) -> bool
    ensures { IsTrue result ↔ EachIndex choice.now (λ s. slice_index choice.now s
        < length (content_after (content_of_bytes base.now) events.now s)) }
{
    let _ = base;
    for (s, index) in choice.iter().enumerate() {
        if *index as usize >= count_candidates(events, s as u64) {
            return false;
        }
    }
    true
}
