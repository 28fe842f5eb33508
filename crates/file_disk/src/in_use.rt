//! Whether a block device is in use, as far as the files tell in which Linux lists its devices.
//!
//! What is mounted, what is swapped to, and what another device stands on, is opened by the kernel for itself alone
//! (`O_EXCL`). Std cannot ask for that, so these lists are read. A list that the system has not tells nothing, and of a
//! program that has the device open for itself no list tells.
//!
//! Source: Linux, `Documentation/filesystems/proc.rst`, and `Documentation/ABI/stable/sysfs-block`.
use std::alloc::Global;
use std::fs::{ReadDir, read_dir};
use std::io::ErrorKind;
use std::os::unix::fs::{FileTypeExt, MetadataExt};
use std::rt::Files;
use std::{fs, io};

/// Here each block device has a folder, under its number.
const DEVICES: &str = "/sys/dev/block";

/// What is mounted, a line each.
const MOUNTS: &str = "/proc/self/mountinfo";

/// What is swapped to, a line each, under a line of headings.
const SWAPS: &str = "/proc/swaps";

/// Whether this block device is in use, or a partition of it, or the whole disk that it is a partition of.
pub(crate) fn is_in_use<R>(rt: &R, device: u64) -> io::Result<bool>
where
    R: Files + AllocGlobal + Clone + Drop,
{
    let numbers = overlapping(rt, number_text(rt.alloc(), device)?)?;
    Ok(is_mounted(rt, &numbers)? || is_swapped_to(rt, &numbers)? || is_held(rt, &numbers)?)
}

/// The number of a device as the lists have it: major and minor.
///
/// Source: glibc, `bits/sysmacros.h`, `gnu_dev_major` and `gnu_dev_minor`.
fn number_text(alloc: Global, device: u64) -> io::Result<String> {
    let major = (device >> 8) & 0xfff | (device >> 32) & 0xffff_f000;
    let minor = device & 0xff | (device >> 12) & 0xffff_ff00;
    Ok(format!(in alloc; "{major}:{minor}")?)
}

/// The numbers of the devices that have sectors in common with a device: itself, its partitions, and the whole disk
/// that it is a partition of.
fn overlapping<R>(rt: &R, number: String) -> io::Result<Vec<String>>
where
    R: Files + AllocGlobal + Clone + Drop,
{
    let alloc = rt.alloc();
    let folder = format!(in alloc; "{DEVICES}/{number}")?;
    let mut numbers = Vec::new(alloc);
    numbers.push(number)?;
    if is_partition(rt, folder.as_str())? {
        let disk = format!(in alloc; "{folder}/..")?;
        numbers.push(number_in(rt, disk.as_str())?)?;
    }
    if let Some(entries) = list(rt, folder.as_str())? {
        for entry in entries {
            add_partition(rt, entry?.path().to_string_lossy(), &mut numbers)?;
        }
    }
    Ok(numbers)
}

/// Adds the number of the device that a folder is of, if it is a partition.
fn add_partition<R>(rt: &R, folder: &str, numbers: &mut Vec<String>) -> io::Result<()>
where
    R: Files + AllocGlobal,
{
    if is_partition(rt, folder)? {
        numbers.push(number_in(rt, folder)?)?;
    }
    Ok(())
}

/// Whether a folder is that of a partition.
fn is_partition<R: Files + AllocGlobal>(rt: &R, folder: &str) -> io::Result<bool> {
    let path = format!(in rt.alloc(); "{folder}/partition")?;
    Ok(!text_of(rt, path.as_str())?.is_empty())
}

/// The number of the device that a folder is of.
fn number_in<R: Files + AllocGlobal>(rt: &R, folder: &str) -> io::Result<String> {
    let path = format!(in rt.alloc(); "{folder}/dev")?;
    let text = text_of(rt, path.as_str())?;
    Ok(String::from_str(rt.alloc(), text.as_str().trim())?)
}

/// Whether one of these devices is mounted. A file system over several devices has a number of its own, so the device
/// that a line says is mounted is looked at too.
fn is_mounted<R: Files + AllocGlobal>(rt: &R, numbers: &[String]) -> io::Result<bool> {
    let mounts = text_of(rt, MOUNTS)?;
    for line in mounts.as_str().lines() {
        if let Some(number) = line.split(' ').nth(2)
            && has(numbers, number)
        {
            return Ok(true);
        }
        if let Some((_, rest)) = line.split_once(" - ")
            && let Some(source) = rest.split(' ').nth(1)
            && names_one(rt, numbers, source)?
        {
            return Ok(true);
        }
    }
    Ok(false)
}

/// Whether one of these devices is swapped to.
fn is_swapped_to<R: Files + AllocGlobal>(rt: &R, numbers: &[String]) -> io::Result<bool> {
    let swaps = text_of(rt, SWAPS)?;
    for line in swaps.as_str().lines() {
        if let Some(path) = line.split(' ').next()
            && names_one(rt, numbers, path)?
        {
            return Ok(true);
        }
    }
    Ok(false)
}

/// Whether another device stands on one of these devices.
fn is_held<R>(rt: &R, numbers: &[String]) -> io::Result<bool>
where
    R: Files + AllocGlobal + Clone + Drop,
{
    for number in numbers {
        let path = format!(in rt.alloc(); "{DEVICES}/{number}/holders")?;
        if let Some(mut holders) = list(rt, path.as_str())?
            && holders.next().is_some()
        {
            return Ok(true);
        }
    }
    Ok(false)
}

/// Whether this path of a device is that of one of these. One that leads nowhere is not.
fn names_one<R: Files + AllocGlobal>(rt: &R, numbers: &[String], path: &str) -> io::Result<bool> {
    if !path.starts_with("/dev/") {
        return Ok(false);
    }
    match fs::metadata(rt, path) {
        Ok(metadata) if metadata.file_type().is_block_device() => {
            let number = number_text(rt.alloc(), metadata.rdev())?;
            Ok(has(numbers, number.as_str()))
        }
        _ => Ok(false),
    }
}

/// Whether this is one of these numbers.
fn has(numbers: &[String], number: &str) -> bool {
    numbers.iter().any(|other| other.as_str() == number)
}

/// What a folder has, or nothing where there is no such folder.
fn list<R>(rt: &R, path: &str) -> io::Result<Option<ReadDir<R>>>
where
    R: Files + AllocGlobal + Clone + Drop,
{
    match read_dir(rt, path) {
        Ok(entries) => Ok(Some(entries)),
        Err(e) if is_missing(e.kind()) => Ok(None),
        Err(e) => Err(e),
    }
}

/// The text of a file, empty where there is no such file.
fn text_of<R: Files + AllocGlobal>(rt: &R, path: &str) -> io::Result<String> {
    match fs::read(rt, path) {
        Ok(bytes) => Ok(String::from_utf8_lossy(rt.alloc(), &bytes)?),
        Err(e) if is_missing(e.kind()) => Ok(String::new(rt.alloc())),
        Err(e) => Err(e),
    }
}

fn is_missing(kind: ErrorKind) -> bool {
    kind == ErrorKind::NotFound || kind == ErrorKind::NotADirectory
}
