//! A device in journal mode on an image whose journal a cut change of mode left blank.
ghost use Rattle.std.specs.Prelude.{◌≡◌};
ghost use Rattle.disk_model.specs.Identity.{IsBound};

use crate::call_tests::{new_disk, read_alone, write_and_read};
use device::{Consent, OpenMode};
use device_parts::Actor;
use hmac_tag::Hash;
use sector_disk::{Disk, Failed};
use std::test::Fail;

/// Makes a sector zero.
fn zero_sector<D: Disk>(disk: &mut D, at: u64) -> Result<(), Failed>
    requires { IsBound (D.identity disk.old).name }

    ensures { D.identity disk.new ≡ D.identity disk.old }
{
    if at >= disk.sectors() {
        return Err(Failed);
    }
    disk.write_run(at, &[0; 512])
}

/// Whether a sector ends in the commit id of this first byte, whose seven others are this one.
pub(crate) fn has_id<D: Disk>(disk: &mut D, at: u64, first: u8, other: u8) -> Result<bool, Failed>
    requires { IsBound (D.identity disk.old).name }

    ensures { D.identity disk.new ≡ D.identity disk.old }
{
    let mut sector = [0; 512];
    if at >= disk.sectors() {
        return Err(Failed);
    }
    disk.read_run(at, &mut sector)?;
    Ok(sector.ends_with(&[first, other, other, other, other, other, other, other]))
}

#[test]
fn a_blank_journal_is_filled_and_goes_on_at_its_start(rt: HostRuntime) -> Result<(), Fail> {
    let alloc = rt.alloc();
    let mut disk = new_disk(alloc)?;
    // The journal has a lap of number 1, which direct mode empties under number 3.
    let written = write_and_read(
        alloc,
        &mut disk,
        OpenMode::Journal(Consent::Withheld),
        Actor::Place,
    )?;
    assert!(rt; written.is_some());
    let emptied = read_alone(
        alloc,
        &mut disk,
        Hash::Sha256,
        OpenMode::Direct(Consent::Withheld),
    )?;
    assert_eq!(rt; emptied, Some(0xaa));
    // A change to a bitmap is cut behind three of its sectors.
    zero_sector(&mut disk, 8)?;
    zero_sector(&mut disk, 9)?;
    zero_sector(&mut disk, 10)?;
    let filled = read_alone(
        alloc,
        &mut disk,
        Hash::Sha256,
        OpenMode::Journal(Consent::Withheld),
    )?;
    assert_eq!(rt; filled, Some(0xaa));
    // By the kernel's constants: number 3, and behind it number 0.
    assert!(rt; has_id(&mut disk, 8, 0x44, 0x44)?);
    assert!(rt; has_id(&mut disk, 9, 0x45, 0x44)?);
    assert!(rt; has_id(&mut disk, 10, 0x46, 0x44)?);
    assert!(rt; has_id(&mut disk, 11, 0x47, 0x44)?);
    let again = write_and_read(
        alloc,
        &mut disk,
        OpenMode::Journal(Consent::Withheld),
        Actor::Place,
    )?;
    assert!(rt; again.is_some());
    assert!(rt; has_id(&mut disk, 8, 0x11, 0x11)?);
    Ok(())
}
