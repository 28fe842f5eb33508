//! Tags that others have computed: the standards, OpenSSL and the Linux kernel.

use hmac_tag::{Hash, Key, Tag, TagMaker};
use sha2::{Digest, Sha256};
use std::alloc::Global;
use std::test::Fail;

/// The message of RFC 4231, section 4.3, test case 2.
const MESSAGE: &[u8] = b"what do ya want for nothing?";

const DIGITS: [u8; 16] = *b"0123456789abcdef";

/// Whether the bytes have these digits in hexadecimal.
fn has_digits(bytes: &[u8], hex: &[u8]) -> bool {
    if hex.len() % 2 != 0 || hex.len() / 2 != bytes.len() {
        return false;
    }
    let mut same = true;
    for (i, byte) in bytes.iter().enumerate() {
        let (high, low) = (*byte as usize / 16, *byte as usize % 16);
        same &= hex[2 * i] == DIGITS[high] && hex[2 * i + 1] == DIGITS[low];
    }
    same
}

/// A maker of tags of `size` bytes under a key.
fn keyed(alloc: Global, key: &[u8], salt: Option<[u8; 16]>, size: usize) -> Result<TagMaker, Fail> {
    let key = Key::from_bytes(alloc, key)?;
    match size {
        1..=32 => Ok(TagMaker::new(Hash::Hmac(key), salt, size as u8)),
        _ => Err(Fail::from("size")),
    }
}

/// The tag of a message, of which the first 8 bytes are the sector.
fn tag_of(maker: &TagMaker, message: &[u8]) -> Option<Tag> {
    let (sector, bytes) = message.split_first_chunk::<8>()?;
    Some(maker.tag(u64::from_le_bytes(*sector), bytes))
}

/// A key of `len` bytes: 0 to 250, again and again.
fn counted(alloc: Global, len: usize) -> Result<Vec<u8>, Fail> {
    let mut key = Vec::new(alloc);
    for i in 0..len {
        key.push((i % 251) as u8)?;
    }
    Ok(key)
}

#[test]
fn tags_are_those_of_the_standards(rt: HostRuntime) -> Result<(), Fail> {
    // NIST's examples for FIPS 180-4, the message of 56 bytes.
    let plain = TagMaker::new(Hash::Sha256, None, 32);
    let tag = tag_of(
        &plain,
        b"abcdbcdecdefdefgefghfghighijhijkijkljklmklmnlmnomnopnopq",
    )
    .ok_or("short")?;
    let hex = b"248d6a61d20638b8e5c026930c3e6039a33ce45964ff2167f6ecedd419db06c1";
    assert!(rt; has_digits(tag.bytes(), hex));

    // RFC 4231, sections 4.2 to 4.8, test cases 1 to 7.
    let rows: [(&[u8], &[u8], &[u8]); 7] = [
        (
            &[0x0b; 20],
            b"Hi There",
            b"b0344c61d8db38535ca8afceaf0bf12b881dc200c9833da726e9376c2e32cff7",
        ),
        (
            b"Jefe",
            MESSAGE,
            b"5bdcc146bf60754e6a042426089575c75a003f089d2739839dec58b964ec3843",
        ),
        (
            &[0xaa; 20],
            &[0xdd; 50],
            b"773ea91e36800e46854db8ebd09181a72959098b3ef8c122d9635514ced565fe",
        ),
        (
            &[
                1, 2, 3, 4, 5, 6, 7, 8, 9, 10, 11, 12, 13, 14, 15, 16, 17, 18, 19, 20, 21, 22, 23,
                24, 25,
            ],
            &[0xcd; 50],
            b"82558a389a443c0ea4cc819899f2083a85f0faa3e578f8077a2e3ff46729665b",
        ),
        (
            &[0x0c; 20],
            b"Test With Truncation",
            b"a3b6167473100ee06e0c796c2955552b",
        ),
        (
            &[0xaa; 131],
            b"Test Using Larger Than Block-Size Key - Hash Key First",
            b"60e431591ee0b67f0d8a26aacbf5b77f8e0bc6213728c5140546040f0ee37f54",
        ),
        (
            &[0xaa; 131],
            b"This is a test using a larger than block-size key and a larger than block-size data. The key needs to be hashed before being used by the HMAC algorithm.",
            b"9b09ffa71b942fcb27635fbcd5b0e944bfdc63644f0713938a7f51535c3a35e2",
        ),
    ];
    for (key, message, hex) in rows {
        let maker = keyed(rt.alloc(), key, None, hex.len() / 2)?;
        let tag = tag_of(&maker, message).ok_or("short")?;
        assert!(rt; has_digits(tag.bytes(), hex));
    }
    Ok(())
}

// The values are OpenSSL's: `openssl dgst -sha256 -mac HMAC -macopt hexkey:KEY` of the message.
#[test]
fn a_key_above_64_bytes_is_replaced_by_its_digest(rt: HostRuntime) -> Result<(), Fail> {
    let rows = [
        (
            20,
            b"7beeb1e927027eb8d96e8f2c880461650cb768b277071e64bf01dd365cdf4a1a",
        ),
        (
            64,
            b"5431cc41830bee7889a6b5d04b33877387ea9b8170759f4dca4323cfb5725508",
        ),
        (
            65,
            b"b8510ec6c86f16d7c86061bd02266a93ffa7add59683bd03dc645ba1f238c38c",
        ),
        (
            131,
            b"69d9292d5a0eaaf5bdfb72a8b819482dac82c5047a00f4cca1198ebcc039a6ee",
        ),
        (
            4096,
            b"b775900ad9559dc1e266d3ac7ffd2209c64bea44657c8fe5bf2da4b9e024de72",
        ),
    ];
    for (len, hex) in rows {
        let key = counted(rt.alloc(), len)?;
        let maker = keyed(rt.alloc(), &key, None, 32)?;
        let tag = tag_of(&maker, MESSAGE).ok_or("short")?;
        assert!(rt; has_digits(tag.bytes(), hex), "a key of {len} bytes");

        let digest = Sha256::digest(key.as_slice());
        let maker = keyed(rt.alloc(), &digest, None, 32)?;
        let of_digest = tag_of(&maker, MESSAGE).ok_or("short")?;
        let same = of_digest.bytes() == tag.bytes();
        assert_eq!(rt; same, len > 64, "the digest of a key of {len} bytes");
    }
    Ok(())
}

/// The key of the images below: the shorter keys are its first bytes.
const KERNEL_KEY: [u8; 131] = [
    0x49, 0xac, 0x5d, 0xe2, 0x19, 0xed, 0xae, 0x62, 0xf9, 0xfd, 0xee, 0xa0, 0xfc, 0x3f, 0x3a, 0xf4,
    0x8f, 0xd8, 0x32, 0xf2, 0x2f, 0xac, 0x50, 0x82, 0x0a, 0xc1, 0x11, 0x74, 0xd6, 0xe0, 0x68, 0xbd,
    0x22, 0x7b, 0xa5, 0xf2, 0xc6, 0xc9, 0x10, 0x9f, 0xe5, 0xc4, 0x4a, 0x06, 0x96, 0xf3, 0x93, 0x37,
    0x96, 0x07, 0x49, 0x3a, 0x37, 0x7f, 0x52, 0x2e, 0xe2, 0x7d, 0x9a, 0x7a, 0xe3, 0x22, 0x7d, 0x89,
    0x08, 0xf2, 0x25, 0xfe, 0x08, 0xe9, 0x4a, 0x5b, 0x1d, 0xa2, 0xda, 0x40, 0x79, 0xfc, 0xd1, 0xa7,
    0x64, 0x7d, 0x37, 0x5c, 0xc9, 0x56, 0x24, 0xa6, 0xc6, 0xd6, 0x5a, 0x6f, 0xc8, 0x4b, 0x32, 0x43,
    0x3d, 0x3e, 0xe1, 0x1c, 0x2f, 0xbf, 0x7f, 0x6a, 0x6b, 0x1e, 0x6a, 0xa1, 0x6c, 0x38, 0x26, 0x31,
    0xec, 0x5f, 0x1f, 0xbf, 0xc5, 0x0c, 0xa3, 0xba, 0x5a, 0x89, 0xd3, 0x66, 0xd2, 0x2e, 0xea, 0xef,
    0xa1, 0x78, 0x8c,
];

/// A block as the images' writer filled it: the numbers 2^48 * write + 2^16 * block + place, place
/// from 0 on, each in 8 bytes with the lowest first.
fn filled(alloc: Global, write: u64, block: u64, size: usize) -> Result<Vec<u8>, Fail> {
    let mut bytes = Vec::new(alloc);
    for place in 0..size / 8 {
        let number = (write << 48) | (block << 16) | place as u64;
        bytes.extend_from_slice(&number.to_le_bytes())?;
    }
    Ok(bytes)
}

/// A tag beside a block of an image, and what it was made of.
#[derive(Clone, Copy)]
struct KernelTag<'a> {
    /// How many bytes the key has.
    key_len: usize,
    /// As it stands in the superblock, its first byte the highest.
    salt: u128,
    /// The number of the write.
    write: u64,
    block: u64,
    /// How many sectors a block has.
    sectors: u8,
    hex: &'a [u8],
}

// Linux 6.1 and integritysetup 2.6.1 wrote the images, with hmac-sha256.
#[test]
fn tags_are_those_of_the_kernel(rt: HostRuntime) -> Result<(), Fail> {
    let rows = [
        KernelTag {
            key_len: 64,
            salt: 0x723d63758bca615e8b68ade17d30dfb4,
            write: 1,
            block: 5,
            sectors: 1,
            hex: b"8e0965cbd298af0d5d609e5782a3398b066b76fc04e4fdcb6cf553fbf8689f5a",
        },
        KernelTag {
            key_len: 131,
            salt: 0xcf162056523b2b6d2689ffb3f8bbad16,
            write: 2,
            block: 12,
            sectors: 2,
            hex: b"6b51ef717a9c7a6ffe39db86ea1664817d94c337ed525e8ce850cb7e46983e22",
        },
        KernelTag {
            key_len: 20,
            salt: 0x8c0ba86c436c45d26605764d9d73758f,
            write: 2,
            block: 24,
            sectors: 4,
            hex: b"c1a023fbac4b2c0f53b81d30f0b1ed85c8559ec0",
        },
    ];
    for row in rows {
        let block = row.block;
        let key = KERNEL_KEY.get(..row.key_len).ok_or("key")?;
        let salt = row.salt.to_be_bytes();
        let maker = keyed(rt.alloc(), key, Some(salt), row.hex.len() / 2)?;
        let bytes = filled(rt.alloc(), row.write, block, 512 * row.sectors as usize)?;
        let sector = block.wrapping_mul(u64::from(row.sectors));
        let tag = maker.tag(sector, &bytes);
        assert!(rt; has_digits(tag.bytes(), row.hex), "block {block}");
        assert!(rt; maker.matches(sector, &bytes, &tag), "block {block}");
    }
    Ok(())
}

#[test]
fn a_tag_matches_its_own_block_alone(rt: HostRuntime) -> Result<(), Fail> {
    let maker = keyed(rt.alloc(), b"key", None, 32)?;
    let tag = maker.tag(7, b"block");
    assert!(rt; maker.matches(7, b"block", &tag));
    assert!(rt; !maker.matches(8, b"block", &tag));
    assert!(rt; !maker.matches(7, b"clock", &tag));
    let bytes = *tag.bytes().first_chunk::<32>().ok_or("short")?;
    for i in 0..32 {
        let mut other = bytes;
        other[i] ^= 0x10;
        assert!(rt;
            !maker.matches(7, b"block", &Tag::from_bytes(&other)),
            "byte {i}"
        );
        if i > 0 {
            let shorter = Tag::from_bytes(&bytes[..i]);
            assert!(rt; !maker.matches(7, b"block", &shorter), "{i} bytes");
        }
    }
    Ok(())
}
