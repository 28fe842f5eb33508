//! Tests of tags through the cache, of blocks in direct mode, and of the requests in flight.
#![tactic(auto)]

#[cfg(test)]
mod buffer_cache_tests;
#[cfg(test)]
mod direct_mode_tests;
#[cfg(test)]
mod range_lock_tests;
#[cfg(test)]
mod request_slots_tests;
#[cfg(test)]
mod tag_store_tests;
