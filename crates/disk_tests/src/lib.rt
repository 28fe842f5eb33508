//! Tests of disks and streams in memory.
#![tactic(auto)]

#[cfg(test)]
mod sector_disk_tests;
#[cfg(test)]
mod sector_window_tests;
#[cfg(test)]
mod stream_io_tests;
