//! A disk in memory: what is written is read, and which images a cut may leave.
use sector_disk::{Disk, Failed, MemDisk, Named};
use std::alloc::{AllocError, Global};
use std::process::Abort;
use std::test::Fail;

/// So many sectors, each full of its byte.
fn sectors_of(alloc: Global, values: &[u8]) -> Result<Vec<u8>, AllocError> {
    let mut bytes = Vec::new(alloc);
    for value in values {
        for _ in 0..512 {
            bytes.push(*value)?;
        }
    }
    Ok(bytes)
}

/// Writes sectors from sector `at` on. A run that is not on the disk fails too.
fn write(disk: &mut MemDisk, at: u64, bytes: &[u8]) -> Result<(), Failed> {
    let count = bytes.len() as u64 / 512;
    if bytes.len() % 512 != 0 || count == 0 || at > disk.sectors() || count > disk.sectors() - at {
        return Err(Failed);
    }
    disk.write_run(at, bytes)
}

/// The byte that sector `at` is full of. A sector of several bytes is told as a failure too.
fn read(disk: &mut MemDisk, at: u64, buffer: &mut [u8]) -> Result<u8, Failed> {
    if buffer.len() != 512 || at >= disk.sectors() {
        return Err(Failed);
    }
    disk.read_run(at, buffer)?;
    let value = buffer[0];
    if buffer.iter().all(|b| *b == value) {
        Ok(value)
    } else {
        Err(Failed)
    }
}

/// Expects of an image what its sectors are full of, and that a choice that is not one of them is refused.
fn expect_image(
    rt: &impl Abort,
    alloc: Global,
    disk: &MemDisk,
    choice: &[u32],
    values: &[u8],
) -> Result<(), Fail> {
    assert!(rt; disk.has(choice), "the choice names candidates");
    let mut image = disk.image(alloc, choice)?;
    let mut buffer = sectors_of(alloc, &[0])?;
    for (at, value) in values.iter().enumerate() {
        assert_eq!(rt;
            read(&mut image, at as u64, &mut buffer)?,
            *value,
            "sector {at}"
        );
    }
    Ok(())
}

#[test]
fn reads_give_what_was_written_last(rt: HostRuntime) -> Result<(), Fail> {
    let alloc = rt.alloc();
    let mut disk = MemDisk::new(alloc, 4, 8)?;
    disk.bind("any name")?;
    assert_eq!(rt; disk.sectors(), 4);
    let mut buffer = sectors_of(alloc, &[9])?;
    assert_eq!(rt; read(&mut disk, 3, &mut buffer)?, 0, "a new disk is zeros");
    write(&mut disk, 1, &sectors_of(alloc, &[7, 8, 9])?)?;
    write(&mut disk, 2, &sectors_of(alloc, &[5])?)?;
    disk.sync()?;
    for (at, value) in [(0, 0), (1, 7), (2, 5), (3, 9)] {
        assert_eq!(rt; read(&mut disk, at, &mut buffer)?, value, "sector {at}");
    }
    Ok(())
}

#[test]
fn an_image_has_a_candidate_of_each_sector(rt: HostRuntime) -> Result<(), Fail> {
    let alloc = rt.alloc();
    let mut disk = MemDisk::new(alloc, 2, 8)?;
    for (at, value) in [(0, 1), (0, 2), (1, 9)] {
        write(&mut disk, at, &sectors_of(alloc, &[value])?)?;
    }
    // The first candidates, the last ones, and a mixture.
    for (choice, values) in [([0, 0], [0, 0]), ([2, 1], [2, 9]), ([1, 0], [1, 0])] {
        expect_image(&rt, alloc, &disk, &choice, &values)?;
    }
    assert!(rt; !disk.has(&[3, 0]), "sector 0 has three");
    assert!(rt; !disk.has(&[0, 2]), "sector 1 has two");
    assert!(rt; !disk.has(&[0]), "one index for each sector");
    disk.sync()?;
    assert!(rt;
        !disk.has(&[1, 0]) && !disk.has(&[0, 1]),
        "a sync leaves one candidate"
    );
    expect_image(&rt, alloc, &disk, &[0, 0], &[2, 9])
}
