//! The key of a keyed hash, and the hash that tags are made by.
ghost use Rattle.std.specs.Prelude.{◌≡◌, ◌↔◌, ◌<◌, ℕ, length, IfOk, IsErrOf};

use std::alloc::{AllocError, Global};
use std::marker::Model;
use thiserror::Error;

/// How many bytes a key has at most.
///
/// Source: integritysetup(8), `--integrity-key-size`.
pub const LONGEST_KEY: usize = 4096;

/// Why some bytes are no key. The first that holds is told.
#[derive(Clone, Copy, Debug, PartialEq, Eq, Error)]
pub enum KeyFault {
    /// There are none.
    #[error("an empty key")]
    Empty,
    /// There are more than 4096: there are `len`.
    #[error("a key of {len} bytes is too long")]
    TooLong { len: u64 },
    /// Memory ran out.
    #[error("out of memory")]
    Memory,
}

impl From<AllocError> for KeyFault {
    ghost use Rattle.hmac_tag.specs.declared.key.KeyFault.TheVariants.{Memory};

    ghost from_gives = { λ _ fault. fault ≡ Memory };

    fn from(_error: AllocError) -> KeyFault {
        KeyFault::Memory
    }
}

/// A key of 1 to 4096 bytes. It has no `Debug`, so that it leaves no text.
#[derive(Drop)]
pub struct Key {
    bytes: Vec<u8>,
}

impl Model for Key {
    ghost use Rattle.std.specs.Prelude.{List, ℕ};

    ghost Value = { List ℕ };

    ghost view = { λ key. key.bytes.items };
}

impl Key {
    /// A key of these bytes.
    ///
    /// # Errors
    ///
    /// - `Empty`: there are none.
    /// - `TooLong`: there are more than 4096.
    /// - `Memory`: memory ran out.
    pub fn from_bytes(alloc: Global, bytes: &[u8]) -> Result<Key, KeyFault>
        ensures key { IfOk result (λ key. key ≡ bytes.now) }

        ensures empty { IsErrOf result KeyFault.Empty ↔ (length bytes.now ≡ 0) }
        ensures too_long { (len : ℕ) → IsErrOf result (KeyFault.TooLong len)
            ↔ ((4096 < length bytes.now) × (len ≡ length bytes.now)) }
    {
        if bytes.is_empty() {
            return Err(KeyFault::Empty);
        }
        if bytes.len() > LONGEST_KEY {
            let len = bytes.len() as u64;
            return Err(KeyFault::TooLong { len });
        }
        let bytes = Vec::from_slice(alloc, bytes)?;
        Ok(Key { bytes })
    }

    /// The same key once more.
    ///
    /// # Errors
    ///
    /// - `AllocError`: memory ran out.
    fn twin(&self, alloc: Global) -> Result<Key, AllocError>
        ensures { IfOk result (λ key. key ≡ self.now) }
    {
        let bytes = Vec::from_slice(alloc, self.bytes.as_slice())?;
        Ok(Key { bytes })
    }

    pub(crate) fn bytes(&self) -> &[u8]
        ensures { result.now ≡ self.now }
    {
        self.bytes.as_slice()
    }
}

/// The hash that tags are made by.
#[derive(Drop)]
pub enum Hash {
    /// SHA-256.
    ///
    /// Source: FIPS 180-4.
    Sha256,
    /// HMAC-SHA-256 under a key.
    ///
    /// Source: FIPS 198-1.
    Hmac(Key),
}

impl Hash {
    /// The same hash once more, for another device under the same key.
    ///
    /// # Errors
    ///
    /// - `AllocError`: memory ran out.
    pub fn twin(&self, alloc: Global) -> Result<Hash, AllocError>
        ensures { IfOk result (λ hash. hash ≡ self.now) }
    {
        match self {
            Hash::Sha256 => Ok(Hash::Sha256),
            Hash::Hmac(key) => Ok(Hash::Hmac(key.twin(alloc)?)),
        }
    }
}
