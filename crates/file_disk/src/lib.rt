//! A disk over any file whose calls may do a part of what they are asked, or be interrupted.
//!
//! `FileDisk` is proved to be a `Disk` over every such file, and tells its content where the file does. What a
//! program trusts of its system is one `impl` of `Folder` and `SectorFile`, that of `std_file.rt`.
//! `specs/Files.antt` is the file to read first.
#![tactic(auto)]

mod calls;
mod file_disk;
mod in_use;
mod opening;
mod sector_file;
mod std_file;
mod transfer;

pub use calls::Calls;
pub use file_disk::FileDisk;
pub use opening::open_apart;
pub use sector_file::{Access, FileFault, Folder, SectorFile};
pub use std_file::{StdFile, StdFolder};
