//! A tag: what stands beside a block and tells whether its bytes are those that were written.
ghost use Rattle.std.specs.Prelude.{◌≡◌, length};
ghost use Rattle.std.specs.Int.{IsInRange};

use crate::padding::padded;
use std::marker::Model;

/// A tag: a list of 1 to 32 bytes.
#[derive(Clone, Copy, Debug)]
pub struct Tag {
    bytes: [u8; 32],
    len: u8,
}

impl Model for Tag {
    ghost use Rattle.std.specs.Prelude.{◌-◌, ◌++◌, List, ℕ, length, take, replicate};
    ghost use Rattle.hmac_tag.specs.Tag.{IsPadded};

    ghost Value = { List ℕ };

    ghost view = { λ tag. take tag.len tag.bytes };

    ghost invariant = { λ tag. IsPadded tag.len tag.bytes };

    ghost inverse = { λ bytes. record {
      bytes = bytes ++ replicate (32 - length bytes) 0;
      len = length bytes;
    } };
}

impl Tag {
    /// A tag of these bytes.
    pub fn from_bytes(bytes: &[u8]) -> Tag
        requires bytes { IsInRange 1 32 (length bytes.now) }

        ensures { result ≡ bytes.now }
    {
        Tag {
            bytes: padded(bytes),
            len: bytes.len() as u8,
        }
    }

    /// Its bytes.
    pub fn bytes(&self) -> &[u8]
        ensures bytes { result.now ≡ self.now }

        ensures size { IsInRange 1 32 (length self.now) }
    {
        &self.bytes[..self.len as usize]
    }
}
