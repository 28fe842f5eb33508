//! Tests of the bits of regions, in memory and on a disk, and of the regions that await.
#![tactic(auto)]

#[cfg(test)]
mod dirty_bitmap_tests;
#[cfg(test)]
mod places;
#[cfg(test)]
mod recalculation_tests;
