//! The bytes that reads give, which stand beside the record of a disk in memory.
ghost use Rattle.std.specs.Prelude.{◌≡◌, ◌+◌, ◌*◌, ◌/◌, ◌<◌, ◌≤◌, ℕ, length};
ghost use Rattle.disk_model.specs.Disk.{Content, last_image, sector_in, with_run};

use disk_model::SECTOR_SIZE;

/// Copies whole sectors out of the bytes of a disk, from sector `at` on.
pub fn read_latest(latest: &[u8], at: u64, buffer: &mut [u8])
    requires whole { length buffer.old ≡ 512 * (length buffer.old / 512) }
    requires inside { 512 * at + length buffer.old ≤ length latest.now }

    ensures { (k : ℕ) → k < length buffer.new / 512
        → sector_in buffer.new k ≡ sector_in latest.now (at + k) }
{
    let from = SECTOR_SIZE * at as usize;
    buffer.copy_from_slice(&latest[from..from + buffer.len()]);
}

/// Copies whole sectors into the bytes of a disk, from sector `at` on.
pub fn write_latest(latest: &mut [u8], at: u64, bytes: &[u8])
    requires whole { length bytes.now ≡ 512 * (length bytes.now / 512) }
    requires inside { 512 * at + length bytes.now ≤ length latest.old }

    ensures { (c : Content) (s : ℕ) → sector_in latest.old s ≡ last_image c s
        → sector_in latest.new s ≡ last_image (with_run at bytes.now c) s }
{
    let from = SECTOR_SIZE * at as usize;
    latest[from..from + bytes.len()].copy_from_slice(bytes);
}
