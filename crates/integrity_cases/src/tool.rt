//! The program's one call, as the command of the cases.
use case_disks::{WatchedFile, WatchedSink, WatchedSource};
use case_running::Command;
use cut_disk::CutDisk;
use integrity_tool::Outside;
use std::alloc::Global;

/// The program's one call.
pub struct Tool;

impl Command for Tool {
    fn call(
        &self,
        alloc: Global,
        words: &[String],
        disk: &mut CutDisk,
        second: &mut CutDisk,
        key: &mut WatchedFile<'_>,
        script: &mut WatchedSource<'_>,
        out: &mut WatchedSink,
    ) -> u8 {
        let mut outside = Outside {
            disk,
            second,
            key,
            script,
            out,
        };
        outside.integrity(alloc, words)
    }
}
