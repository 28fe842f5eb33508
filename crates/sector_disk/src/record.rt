//! The record of a disk in memory: each sector write and each sync, the oldest first.
//!
//! It tells every moment of the disk, and so the candidates that a cut may leave.
ghost use Rattle.std.specs.Prelude.{◌≡◌, ◌+◌, ◌*◌, ◌^◌, ◌<◌, ◌≤◌, ◌++◌, length, vec_len, vec_capacity};
ghost use Rattle.sector_disk.specs.Record.{sector_writes};

use disk_model::SECTOR_SIZE;

/// What is recorded of a disk in memory.
#[derive(Drop)]
pub enum Event {
    /// A sector was written.
    Write { at: u64, bytes: [u8; SECTOR_SIZE] },
    /// A sync was made.
    Sync,
}

/// Records the first `count` sectors of the bytes, written from sector `at` on.
pub fn append_writes(events: &mut Vec<Event>, at: u64, bytes: &[u8], count: usize)
    requires places { at + count < 2 ^ 64 }
    requires bytes { 512 * count ≤ length bytes.now }
    requires room { vec_len events.old + count ≤ vec_capacity events.old }

    ensures events { events.new.items ≡ events.old.items ++ sector_writes at bytes.now count }
    ensures capacity { vec_capacity events.new ≡ vec_capacity events.old }
{
    for k in 0..count {
        let mut sector = [0; SECTOR_SIZE];
        sector.copy_from_slice(&bytes[SECTOR_SIZE * k..SECTOR_SIZE * k + SECTOR_SIZE]);
        events.push_reserved(Event::Write {
            at: at + k as u64,
            bytes: sector,
        });
    }
}
