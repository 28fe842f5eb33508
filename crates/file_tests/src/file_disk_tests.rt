//! Tests of disks over files of the system.
use file_disk::{FileDisk, StdFolder};
use sector_disk::{Disk, Failed, Named};
use std::os::fd::AsRawFd;
use std::test::Fail;
use std::{fs, io};

/// Writes sectors 1 and 2 of three, and reads the first two back.
fn write_two_of_three<D: Disk>(disk: &mut D, back: &mut [u8; 1024]) -> Result<(), Failed> {
    disk.bind("image")?;
    if disk.sectors() != 3 {
        return Err(Failed);
    }
    disk.write_run(1, &[0xbb; 1024])?;
    disk.sync()?;
    disk.read_run(0, back)
}

#[test]
fn a_disk_is_the_whole_sectors_of_its_file(rt: HostRuntime) -> Result<(), Fail> {
    let mut wanted = [0xaa; 1636];
    fs::write(&rt, "image", &wanted)?;
    let mut back = [0; 1024];
    write_two_of_three(&mut FileDisk::new(StdFolder::new(&rt)), &mut back)?;
    wanted[512..1536].fill(0xbb);
    assert_eq!(rt;
        fs::read(&rt, "image")?.as_slice(),
        &wanted[..],
        "the sectors that were written, and no other byte"
    );
    assert_eq!(rt; &back[..], &wanted[..1024]);
    Ok(())
}

/// Reads the first sector of a file that was cut off behind its lock.
fn read_of_a_cut_file(rt: &HostRuntime) -> Result<bool, Fail> {
    let mut disk = FileDisk::new(StdFolder::new(rt));
    disk.bind("image")?;
    if disk.sectors() != 1 {
        return Ok(false);
    }
    fs::write(rt, "image", b"cut")?;
    Ok(disk.read_run(0, &mut [0; 512]).is_err())
}

#[test]
fn a_file_that_is_shorter_now_fails(rt: HostRuntime) -> Result<(), Fail> {
    fs::write(&rt, "image", &[0; 512])?;
    assert!(rt; read_of_a_cut_file(&rt)?);
    Ok(())
}

#[test]
fn a_file_is_locked_while_a_disk_is_bound_to_it(rt: HostRuntime) -> Result<(), Fail> {
    fs::write(&rt, "image", &[0; 1024])?;
    let mut first = FileDisk::new(StdFolder::new(&rt));
    let mut second = FileDisk::new(StdFolder::new(&rt));
    assert_eq!(rt; first.bind("no file"), Err(Failed));
    assert_eq!(rt; first.bind("image"), Ok(()));
    assert_eq!(rt; first.bind("image"), Ok(()), "it has it");
    assert_eq!(rt; first.bind("images"), Err(Failed), "it has another");
    assert_eq!(rt; second.bind("image"), Err(Failed), "the first has it");
    drop(first);
    assert_eq!(rt; second.bind("image"), Ok(()), "nobody has it");
    Ok(())
}

#[test]
fn those_who_read_do_not_exclude_each_other(rt: HostRuntime) -> Result<(), Fail> {
    fs::write(&rt, "image", &[0; 1024])?;
    let mut first = FileDisk::new(StdFolder::new(&rt));
    let mut second = FileDisk::new(StdFolder::new(&rt));
    let mut writer = FileDisk::new(StdFolder::new(&rt));
    assert_eq!(rt; first.bind_to_read("image"), Ok(()));
    assert_eq!(rt; second.bind_to_read("image"), Ok(()), "both read it");
    assert_eq!(rt; first.bind_to_read("image"), Ok(()), "it has it");
    assert_eq!(rt;
        first.bind("image"),
        Err(Failed),
        "it has it for reads alone"
    );
    assert_eq!(rt; writer.bind("image"), Err(Failed), "others read it");
    drop(first);
    drop(second);
    assert_eq!(rt; writer.bind("image"), Ok(()), "nobody has it");
    assert_eq!(rt;
        writer.bind_to_read("image"),
        Ok(()),
        "it has it for reads too"
    );
    Ok(())
}

#[test]
fn what_has_no_sectors_is_refused(rt: HostRuntime) -> Result<(), Fail> {
    let (reader, _writer) = io::pipe(&rt)?;
    let pipe = format!(in rt.alloc(); "/dev/fd/{}", reader.as_raw_fd())?;
    for name in [pipe.as_str(), "/dev/null", "."] {
        let mut disk = FileDisk::new(StdFolder::new(&rt));
        assert_eq!(rt; disk.bind(name), Err(Failed));
        assert_eq!(rt; disk.bind_to_read(name), Err(Failed));
    }
    Ok(())
}
