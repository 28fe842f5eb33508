//! A block that is bad.

use hmac_tag::Tag;

/// A block whose stored tag is not the tag of its bytes.
#[derive(Clone, Copy, Debug)]
pub struct Bad {
    pub block: u64,
    /// The tag that is stored for it.
    pub stored: Tag,
    /// The tag of its bytes.
    pub computed: Tag,
}
