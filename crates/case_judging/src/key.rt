//! A key, under which the digest of a block is another one.
use sha2::{Digest, Sha256};

/// A key, as what stands before the message, and before its digest.
///
/// Source: FIPS 198-1, section 4.
#[derive(Clone, Copy)]
pub struct Key {
    inner: [u8; 64],
    outer: [u8; 64],
}

impl Key {
    /// The key of these bytes. Of more than 64 it is that of their digest.
    pub fn of(bytes: &[u8]) -> Key {
        let mut key = Key {
            inner: [0x36; 64],
            outer: [0x5c; 64],
        };
        if bytes.len() > 64 {
            let digest = Sha256::digest(bytes);
            key.mix(&digest);
        } else {
            key.mix(bytes);
        }
        key
    }

    /// Combines both by exclusive or with these bytes.
    fn mix(&mut self, bytes: &[u8]) {
        for (place, byte) in self.inner.iter_mut().zip(bytes) {
            *place ^= *byte;
        }
        for (place, byte) in self.outer.iter_mut().zip(bytes) {
            *place ^= *byte;
        }
    }

    /// A digest that the message is to be added to.
    pub fn begun(&self) -> Sha256 {
        let mut hasher = Sha256::new();
        hasher.update(self.inner);
        hasher
    }

    /// The digest under the key, of the one that was begun.
    pub fn ended(&self, digest: &[u8; 32]) -> [u8; 32] {
        let mut hasher = Sha256::new();
        hasher.update(self.outer);
        hasher.update(digest);
        hasher.finalize()
    }
}
