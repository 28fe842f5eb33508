//! The tag of a block: the first bytes of SHA-256, or of HMAC-SHA-256 under a key, over its sector
//! and its bytes.
//!
//! A contract sees a `Key` and a `Tag` as the list of its bytes, and a `TagMaker` as the rule by
//! which it makes tags (`specs/TagMaker.antt`). What a tag is stands in `image_model`,
//! `specs/Tag.antt`, the file to read first.
#![tactic(auto)]

mod key;
mod padding;
mod tag;
mod tag_maker;

pub use key::{Hash, Key, KeyFault, LONGEST_KEY};
pub use tag::Tag;
pub use tag_maker::TagMaker;
