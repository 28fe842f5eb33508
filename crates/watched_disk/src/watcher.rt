//! What is told of the work on a disk.

/// Takes reports of the calls that a disk has answered. A call that has failed is not reported.
pub trait Watcher {
    /// The disk is bound, and has so many sectors.
    fn has_bound(&mut self, sectors: u64);

    /// Whole sectors from sector `at` on were read: `bytes` are theirs.
    fn has_read(&mut self, at: u64, bytes: &[u8]);

    /// Whole sectors from sector `at` on were written: `bytes` are theirs.
    fn has_written(&mut self, at: u64, bytes: &[u8]);

    /// What was written was synced.
    fn has_synced(&mut self);
}
