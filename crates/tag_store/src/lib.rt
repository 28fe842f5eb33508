//! Blocks and their tags in their places on a disk, the tags through a bounded cache.
//!
//! A tag that is put stands in memory until its sector goes out for another one, or is written back. A contract
//! sees a store as its geometry and the sectors that its cache holds (`specs/Store.antt` first): over a disk it
//! gives one image, in which the tags that stand in memory are in place. `specs/StoreLaws.antt` says what that
//! means for each byte.
#![tactic(auto)]

mod laws;
mod spans;
mod tags;

pub use laws::{reads_give_what_is_given, store_is_of_its_disk, tag_is_put, tags_are_written};
pub use tags::Tags;
