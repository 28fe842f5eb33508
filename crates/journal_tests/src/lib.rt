//! Tests of the journal: its places, its buffers, its ring and its erasure.
#![tactic(auto)]

#[cfg(test)]
mod journal_erasure_tests;
#[cfg(test)]
mod journal_overlay_tests;
#[cfg(test)]
mod journal_ring_tests;
#[cfg(test)]
mod sector_pool_tests;
