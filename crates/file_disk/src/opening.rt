//! Opens files of the system: apart from the standard streams, and an image so that it is a file or a block device that
//! nobody writes beside.
//!
//! Where the program is started with a standard stream closed, the next file that is opened takes its number. Text
//! would then be written into an image, or an image be read as a script.
use crate::in_use::is_in_use;
use std::fs::{File, OpenFile, OpenOptions};
use std::io::ErrorKind;
use std::os::unix::fs::{FileTypeExt, MetadataExt};
use std::rt::Files;
use std::{fs, io};

/// Opens a file, and hands on a second handle of it: that one never has the number of a standard stream.
pub fn open_apart<R: Files>(rt: &R, how: &OpenOptions, name: &str) -> io::Result<R::File> {
    how.open(rt, name)?.try_clone()
}

/// Opens a file or a block device for reads. Others may read it at the same time, and nobody may write it.
pub(crate) fn open_for_reads<R: Files<File = File>>(rt: &R, name: &str) -> io::Result<File> {
    refuse_streams(rt, name)?;
    let file = open_apart(rt, OpenOptions::new().read(true), name)?;
    file.try_lock_shared()?;
    Ok(file)
}

/// Opens a file or a block device for reads and writes, or for reads alone where it must not be written. Nobody else
/// has it, as far as locks and the system's lists of what is in use tell.
pub(crate) fn open_for_writes<R>(rt: &R, name: &str) -> io::Result<File>
where
    R: Files<File = File> + AllocGlobal + Clone + Drop,
{
    refuse_streams(rt, name)?;
    let file = open_to_write_or_read(rt, name)?;
    file.try_lock()?;
    refuse_if_in_use(rt, &file)?;
    Ok(file)
}

/// Refuses what has no sectors: a folder, or a pipe, a socket or a device that gives its bytes in order. The opening of
/// a pipe alone might wait for ever.
fn refuse_streams<R: Files>(rt: &R, name: &str) -> io::Result<()> {
    let kind = fs::metadata(rt, name)?.file_type();
    if kind.is_file() || kind.is_block_device() {
        return Ok(());
    }
    Err(ErrorKind::InvalidInput.into())
}

/// Opens a file for reads and writes, or for reads alone where it must not be written.
fn open_to_write_or_read<R: Files<File = File>>(rt: &R, name: &str) -> io::Result<File> {
    match open_apart(rt, OpenOptions::new().read(true).write(true), name) {
        Err(e) if must_not_be_written(e.kind()) => open_apart(
            rt,
            OpenOptions::new().read(true),
            name,
        ),
        answer => answer,
    }
}

fn must_not_be_written(kind: ErrorKind) -> bool {
    kind == ErrorKind::PermissionDenied || kind == ErrorKind::ReadOnlyFilesystem
}

/// Refuses a block device that is in use.
fn refuse_if_in_use<R: Files + AllocGlobal + Clone + Drop>(rt: &R, file: &File) -> io::Result<()> {
    let metadata = file.metadata()?;
    if metadata.file_type().is_block_device() && is_in_use(rt, metadata.rdev())? {
        return Err(ErrorKind::ResourceBusy.into());
    }
    Ok(())
}
