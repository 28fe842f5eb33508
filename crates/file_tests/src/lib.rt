//! Tests of disks and streams over files.
#![tactic(auto)]

#[cfg(test)]
mod file_disk_tests;
#[cfg(test)]
mod file_stream_tests;
