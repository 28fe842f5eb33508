//! The bitmap of a new image: its first bits are set, and no other.
ghost use Rattle.std.specs.Prelude.{◌≡◌, ◌+◌, ◌≤◌, ◌<◌, ◌^◌, length, OnOk};
ghost use Rattle.disk_model.specs.Causes.{HasCause};
ghost use Rattle.disk_model.specs.Disk.{last_image};
ghost use Rattle.disk_model.specs.Identity.{IsBound};
ghost use Rattle.disk_model.specs.Moments.{EachSince, HasNow};
ghost use Rattle.image_model.specs.Entries.{IsWithin};
ghost use Rattle.formatting_model.specs.Bits.{HasBits, HoldsBits, IsWhole, bits_byte};
ghost use Rattle.formatting_model.specs.Runs.{ChangesOnly};

use image_model::SECTOR_SIZE;
use sector_disk::{Disk, Failed};

/// Writes a bitmap whose first `set` bits are set to the `count` sectors from sector `at` on, by as many at once as the
/// buffer has.
///
/// # Errors
///
/// - `Failed`: the disk failed. Any of the sectors may have got its bits as a candidate.
pub(crate) fn write_bits<D: Disk>(
    disk: &mut D,
    set: u64,
    buffer: &mut [u8],
    at: u64,
    count: u64,
) -> Result<(), Failed>
    requires bound { IsBound (D.identity disk.old).name }
    requires buffer { IsWhole buffer.old }
    requires run { at + count ≤ (D.identity disk.old).sectors }
    requires device { (D.identity disk.old).sectors ≤ 2 ^ 48 }

    ensures written { OnOk result (HasNow (λ c. HasBits set at count (last_image c)) (D.moments disk.new)) }

    ensures cause { HasCause (D.faults disk.old) (D.faults disk.new) result }

    ensures buffer { length buffer.new ≡ length buffer.old }
    ensures identity { D.identity disk.new ≡ D.identity disk.old }

    ensures moments { EachSince (ChangesOnly (IsWithin at count)) (D.moments disk.old) (D.moments disk.new) }
{
    let most = (buffer.len() / SECTOR_SIZE) as u64;
    let mut done = 0;
    while done < count {
        let part = most.min(count - done);
        put_bits(buffer, set, SECTOR_SIZE as u64 * done);
        disk.write_run(at + done, &buffer[..SECTOR_SIZE * part as usize])?;
        done += part;
    }
    Ok(())
}

/// Puts the bytes of such a bitmap from byte `from` on.
fn put_bits(bytes: &mut [u8], set: u64, from: u64)
    requires { from + length bytes.old ≤ 2 ^ 60 }

    ensures bits { HoldsBits set from bytes.new }
    ensures len { length bytes.new ≡ length bytes.old }
{
    for i in 0..bytes.len() {
        bytes[i] = bits_byte(set, from + i as u64);
    }
}

/// Byte `at` of a bitmap whose first `set` bits are set, and no other.
fn bits_byte(set: u64, at: u64) -> u8
    requires { at < 2 ^ 60 }

    ensures { result ≡ bits_byte set at }
{
    let ones = set.saturating_sub(8 * at).min(8);
    ((1u16 << ones) - 1) as u8
}
