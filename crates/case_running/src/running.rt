//! Runs a command on objects in memory, where calls fail as a case wants it.
use anyhow::{Result, bail};
use case_disks::{WatchedFile, WatchedSink, WatchedSource};
use case_text::{Case, Fails};
use cut_disk::CutDisk;
use std::alloc::Global;

/// A command that is run by its words.
pub trait Command {
    /// Runs it with these words on a disk and that of a second image, with a key and a script, and answers its status.
    fn call(
        &self,
        alloc: Global,
        words: &[String],
        disk: &mut CutDisk,
        second: &mut CutDisk,
        key: &mut WatchedFile<'_>,
        script: &mut WatchedSource<'_>,
        out: &mut WatchedSink,
    ) -> u8;
}

/// How a run has ended: its status, all that it has printed, and what was asked of its objects.
#[derive(Drop)]
pub struct Ended {
    pub status: u8,
    pub text: String,
    pub disk: CutDisk,
    /// The disk of a second image.
    pub second: CutDisk,
    /// How many calls failed of the script's source, of the sink and of the key's source.
    pub source_failed: u64,
    pub sink_failed: u64,
    pub key_failed: u64,
    /// How many calls of the key's source there were.
    pub key_calls: u64,
}

/// Runs a command on a disk, with what a case gives, where this fails. The disk of a second image has no sector.
///
/// # Errors
///
/// There is no memory, or what was printed is no UTF-8.
pub fn run<C: Command>(
    alloc: Global,
    command: &C,
    case: &Case,
    fails: Fails,
    disk: CutDisk,
) -> Result<Ended> {
    let second = CutDisk::new(alloc, &[])?;
    run_on_both(alloc, command, case, (fails, Fails::NONE), (disk, second))
}

/// Runs it on a disk and that of a second image. The first of these fails is the disk's, the other that of the second.
///
/// # Errors
///
/// There is no memory, or what was printed is no UTF-8.
pub fn run_on_both<C: Command>(
    alloc: Global,
    command: &C,
    case: &Case,
    fails: (Fails, Fails),
    disks: (CutDisk, CutDisk),
) -> Result<Ended> {
    let (mut disk, mut second) = disks;
    let (fails, second_fails) = fails;
    disk.watch(fails);
    second.watch(second_fails);
    let mut key = WatchedFile::new(&case.key, fails.key);
    let mut script = WatchedSource::new(&case.script, fails.source);
    let Ok(mut out) = WatchedSink::new(alloc, fails) else {
        bail!("there is no memory for a sink");
    };
    let status = command.call(
        alloc,
        &case.words,
        &mut disk,
        &mut second,
        &mut key,
        &mut script,
        &mut out,
    );
    Ok(Ended {
        status,
        text: text_of(alloc, &out)?,
        disk,
        second,
        source_failed: script.failed,
        sink_failed: out.failed,
        key_failed: key.failed,
        key_calls: key.calls,
    })
}

/// What was printed.
fn text_of(alloc: Global, out: &WatchedSink) -> Result<String> {
    let Ok(text) = str::from_utf8(out.sink.bytes()) else {
        bail!("the text is no UTF-8");
    };
    Ok(text.to_string(alloc)?)
}
