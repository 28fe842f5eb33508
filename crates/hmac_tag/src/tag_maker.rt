//! Makes the tags of blocks, and compares them.
//!
//! The key, its pads and the salt are digested once. Each tag goes on from a copy of the digests
//! that begin with them: it costs the digest of its message and, under a key, one block more.
ghost use Rattle.std.specs.Prelude.{◌≡◌, ◌↔◌, ◌++◌, ℕ, List, [], map, bit_xor, IsTrue, unwrap_or};
ghost use Rattle.std.specs.Int.{IsInRange};
ghost use Rattle.sha2.specs.Hashers.{Holds256};
ghost use Rattle.image_model.specs.Tag.{digest_under, padded_key, tag_message, tag_of};

use crate::key::{Hash, Key};
use crate::padding::padded;
use crate::tag::Tag;
use sha2::{Digest, Sha256};
use std::marker::Model;

/// How many bytes SHA-256 takes in at a time.
///
/// Source: FIPS 180-4, section 1.
const HASH_BLOCK: usize = 64;

/// What each byte of the key is masked with before the inner digest.
///
/// Source: FIPS 198-1, section 2.3, `ipad`.
const INNER_MASK: u8 = 0x36;

/// What each byte of the key is masked with before the outer digest.
///
/// Source: FIPS 198-1, section 2.3, `opad`.
const OUTER_MASK: u8 = 0x5c;

/// The key, if there is one, with what the outer digest begins with.
#[derive(Drop)]
enum Prepared {
    Plain,
    Keyed { key: Key, outer: Sha256 },
}

/// Makes tags of one size by one hash, with one salt or none.
#[derive(Drop)]
pub struct TagMaker {
    prepared: Prepared,
    salt: Option<[u8; 16]>,
    size: u8,
    /// What the inner digest begins with: the inner pad, if there is a key, and the salt.
    inner: Sha256,
}

impl Model for TagMaker {
    ghost use Rattle.hmac_tag.specs.TagMaker.{TagRule};

    ghost Value = { TagRule };

    ghost use Rattle.hmac_tag.specs.Prepared.{rule_of, IsPrepared};

    ghost view = { λ maker. rule_of maker };

    ghost invariant = { λ maker. IsPrepared maker };
}

impl TagMaker {
    ghost use Rattle.hmac_tag.specs.TagMaker.{key_of};

    /// A maker of tags of `size` bytes. It digests the key and its pads.
    pub fn new(hash: Hash, salt: Option<[u8; 16]>, size: u8) -> TagMaker
        requires size { IsInRange 1 32 size }

        ensures { result ≡ record { key = key_of hash; salt = salt; size = size } }
    {
        match hash {
            Hash::Sha256 => TagMaker {
                prepared: Prepared::Plain,
                salt,
                size,
                inner: salted(Sha256::new(), salt),
            },
            Hash::Hmac(key) => {
                let padded = padded_key(key.bytes());
                let inner = Sha256::new_with_prefix(masked(padded, INNER_MASK));
                let outer = Sha256::new_with_prefix(masked(padded, OUTER_MASK));
                TagMaker {
                    prepared: Prepared::Keyed { key, outer },
                    salt,
                    size,
                    inner: salted(inner, salt),
                }
            }
        }
    }

    /// The tag of the block with these bytes, whose first sector of the device is `sector`.
    ///
    /// Source: Linux, `drivers/md/dm-integrity.c`, `integrity_sector_checksum`.
    pub fn tag(&self, sector: u64, bytes: &[u8]) -> Tag
        ensures { result ≡
            tag_of self.now.key self.now.salt self.now.size sector bytes.now }
    {
        let digest = self.digest(sector, bytes);
        Tag::from_bytes(&digest[..self.size as usize])
    }

    /// Whether `tag` is the tag of that block. A tag of another size is not. It looks at every byte
    /// of the tag, whichever differs first.
    pub fn matches(&self, sector: u64, bytes: &[u8], tag: &Tag) -> bool
        ensures { IsTrue result ↔ (tag.now ≡
            tag_of self.now.key self.now.salt self.now.size sector bytes.now) }
    {
        let computed = self.tag(sector, bytes);
        are_same(computed.bytes(), tag.bytes())
    }

    fn digest(&self, sector: u64, bytes: &[u8]) -> [u8; 32]
        ensures { result ≡ digest_under self.now.key (tag_message self.now.salt sector bytes.now) }
    {
        let mut inner = copy_of(&self.inner);
        inner.update(sector.to_le_bytes());
        inner.update(bytes);
        let digest = inner.finalize();
        match &self.prepared {
            Prepared::Plain => digest,
            Prepared::Keyed { outer, .. } => {
                let mut outer = copy_of(outer);
                outer.update(digest);
                outer.finalize()
            }
        }
    }
}

fn padded_key(key: &[u8]) -> [u8; 64]
    ensures { result ≡ padded_key key.now }
{
    if key.len() <= HASH_BLOCK {
        padded(key)
    } else {
        padded(&Sha256::digest(key))
    }
}

fn masked(mut key: [u8; 64], mask: u8) -> [u8; 64]
    ensures { result ≡ map (λ byte. bit_xor byte mask) key }
{
    for byte in key.iter_mut() {
        *byte ^= mask;
    }
    key
}

/// The hasher, with the salt taken in if there is one.
fn salted(mut hasher: Sha256, salt: Option<[u8; 16]>) -> Sha256
    ensures { (start : List ℕ) → Holds256 hasher start
        → Holds256 result (start ++ unwrap_or salt []) }
{
    if let Some(salt) = salt {
        hasher.update(salt);
    }
    hasher
}

/// A copy of the hasher. It takes no memory, so it cannot fail.
fn copy_of(hasher: &Sha256) -> Sha256
    ensures { result ≡ hasher.now }
{
    hasher.clone().unwrap()
}

fn are_same(computed: &[u8], stored: &[u8]) -> bool
    ensures { IsTrue result ↔ (stored.now ≡ computed.now) }
{
    if stored.len() != computed.len() {
        return false;
    }
    let mut same = true;
    for (i, byte) in stored.iter().enumerate() {
        same &= *byte == computed[i];
    }
    same
}
