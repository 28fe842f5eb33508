//! What a request is answered.
use crate::Bytes;
use hmac_tag::Tag;

/// The reply to a request, with its bytes, of as many as came with it.
#[derive(Drop)]
pub enum Reply {
    /// The blocks were read into the buffer.
    Read {
        buffer: Bytes,
    },
    /// Block `block` is the first whose stored tag is not the tag of its bytes. The buffer has the blocks before it,
    /// and from there on what it had when it was handed in.
    TagFault {
        block: u64,
        stored: Tag,
        computed: Tag,
        buffer: Bytes,
    },
    /// These bytes were written.
    Written {
        bytes: Bytes,
    },
    /// All is flushed.
    Flushed,
}
