//! A disk that hands each call on to another disk, and reports what was read, written and synced to a watcher.
//!
//! A contract sees of a `WatchedDisk` the disk under it: its name, sectors, moments and count of faults are that disk's,
//! and so are its answers. Of the watcher no clause speaks, so it can't change what a program does with its disk.
#![tactic(auto)]

mod watched_disk;
mod watcher;

pub use watched_disk::WatchedDisk;
pub use watcher::Watcher;
