//! Sections as the format has them, and sections that the Linux kernel wrote.
ghost use Rattle.std.specs.Prelude.{◌≡◌, ◌*◌, ◌^◌, ◌<◌, IfOk, length};
ghost use Rattle.commit_id.specs.Shape.{IsShape};

use commit_id::{Shape, id};
use hex::FromHex;
use hmac_tag::{Hash, Tag, TagMaker};
use journal_section::{
    EntryView, block_bytes, clear, entry, id_at, is_zero, number, put_entry, seal,
};
use sha2::{Digest, Sha256};
use std::alloc::Global;
use std::test::Fail;

/// Bytes for a section of this shape.
fn section(alloc: Global, shape: Shape) -> Result<Vec<u8>, Fail>
    requires { IsShape shape }
    ensures { IfOk result (λ bytes. length bytes.items ≡ 512 * shape.sectors) }
{
    Ok(vec![in alloc; 0xee; 512 * shape.sectors as usize]?)
}

/// Puts an entry into a section that lies in one piece.
fn put(
    shape: Shape,
    bytes: &mut [u8],
    n: u64,
    sector: u64,
    block: &[u8],
    tag: &Tag,
) -> Result<(), Fail>
    requires shape { IsShape shape }
    requires bytes { length bytes.old ≡ 512 * shape.sectors }
{
    let size = 512 * shape.spb as usize;
    if n >= shape.entries || sector >> 48 != 0 {
        return Err(Fail::from("place"));
    }
    if block.len() != size || tag.bytes().len() as u64 != shape.tag {
        return Err(Fail::from("size"));
    }
    let from = size * n as usize;
    let (meta, data) = bytes.split_at_mut(4096);
    put_entry(
        shape,
        meta,
        &mut data[from..from + size],
        n,
        sector,
        block,
        tag,
    );
    Ok(())
}

/// Entry `n` of a section that lies in one piece, and its block, which is put into `out`.
fn read(shape: Shape, bytes: &[u8], n: u64, out: &mut [u8]) -> Result<Option<EntryView>, Fail>
    requires shape { IsShape shape }
    requires bytes { length bytes.now ≡ 512 * shape.sectors }
{
    let size = 512 * shape.spb as usize;
    if n >= shape.entries || out.len() != size {
        return Err(Fail::from("place"));
    }
    let from = size * n as usize;
    let (meta, data) = bytes.split_at(4096);
    block_bytes(shape, meta, &data[from..from + size], n, out);
    Ok(entry(shape, meta, n))
}

/// Whether each sector of section `i` bears the commit number, and none is zero.
fn bears(shape: Shape, bytes: &[u8], i: u64, commit_number: u8) -> bool
    requires shape { IsShape shape }
    requires bytes { length bytes.now ≡ 512 * shape.sectors }
    requires section { i < 2 ^ 20 }
    requires number { commit_number < 4 }
{
    for j in 0..shape.sectors {
        if number(bytes, i, j) != Some(commit_number)
            || id_at(bytes, j) != id(i, j, commit_number)
            || is_zero(bytes, j)
        {
            return false;
        }
    }
    true
}

#[test]
fn what_was_put_is_read_back(rt: HostRuntime) -> Result<(), Fail> {
    for log2_spb in 0..4 {
        for tag_size in [1, 4, 20, 32] {
            let shape = Shape::of(log2_spb, tag_size);
            let mut memory = section(rt.alloc(), shape)?;
            let bytes = memory.as_mut_slice();
            clear(shape, 3, 1, bytes);
            assert!(rt; bears(shape, bytes, 3, 1), "{log2_spb} {tag_size}");

            let size = 512 << log2_spb;
            let tag = Tag::from_bytes(&[0x51; 32][..tag_size as usize]);
            let mut block = Vec::new(rt.alloc());
            for i in 0..size {
                block.push((i % 251) as u8)?;
            }
            let last = shape.entries.wrapping_sub(1);
            for n in [9, 0, last, 9] {
                put(shape, bytes, n, n << 32 | 7, &block, &tag)?;
            }
            seal(shape, 3, 2, bytes);
            assert!(rt; bears(shape, bytes, 3, 2), "{log2_spb} {tag_size}");

            let mut out = vec![in rt.alloc(); 0; size]?;
            for n in 0..shape.entries {
                let found = read(shape, bytes, n, &mut out)?;
                let Some(view) = found else {
                    assert!(rt; ![0, 9, last].contains(&n), "{n} is unused");
                    continue;
                };
                assert!(rt; [0, 9, last].contains(&n), "{n} is used");
                assert_eq!(rt; view.sector, n << 32 | 7);
                assert!(rt; view.tag.bytes() == tag.bytes(), "the tag of {n}");
                assert!(rt; out == block, "the block of {n}");
            }
        }
    }
    Ok(())
}

#[test]
fn a_sector_is_zero_only_where_all_its_bytes_are(rt: HostRuntime) {
    let mut bytes = [0; 1024];
    assert!(rt; is_zero(&bytes, 1));
    for at in [512, 1015, 1016, 1023] {
        bytes[at] = 1;
        assert!(rt; !is_zero(&bytes, 1), "byte {at}");
        assert!(rt; is_zero(&bytes, 0));
        bytes[at] = 0;
    }
    assert_eq!(rt; number(&bytes, 0, 0), None);
}

/// A block as the image's writer filled it: the numbers 2^48 * write + 2^16 * block + place, place from 0
/// on, each in 8 bytes with the lowest first.
fn filled(write: u64, block: u64) -> [u8; 512] {
    let mut bytes = [0; 512];
    for (place, number) in bytes.chunks_exact_mut(8).enumerate() {
        number.copy_from_slice(&((write << 48) | (block << 16) | place as u64).to_le_bytes());
    }
    bytes
}

// Linux 6.1 and integritysetup 2.6.1 wrote the image, formatted with sha256, blocks of 512 bytes, tags of 32
// and four sections of 88 sectors: blocks 5 to 7, 6 to 8, and 100 to 119, with an fsync after each, and the
// fourth section as it was formatted. The values are SHA-256 of the image's sectors 8 to 95, 96 to 183,
// 184 to 271 and 272 to 359.
#[test]
fn sections_are_those_of_the_kernel(rt: HostRuntime) -> Result<(), Fail> {
    let salt = 0xad727488236dea560f0606b564d65e90_u128;
    let maker = TagMaker::new(Hash::Sha256, Some(salt.to_be_bytes()), 32);
    let rows: [(u64, u64, &str); 4] = [
        (
            5,
            3,
            "9b1672505b903714582a15d68af04d7d8e392b95a52f9916c39ea8b3e33ef341",
        ),
        (
            6,
            3,
            "7825c847876dd7ffa934068104af12d311dc3b37daf696a4c0cd1f94d3308b39",
        ),
        (
            100,
            20,
            "7fd3eab6742510517175c532f212ed9889dfa8c58125303a85744c23d7275476",
        ),
        (
            0,
            0,
            "f96546c70760aec4108aac08fbf5872f3dbd0cb63b7f4fcfd25487b628537f41",
        ),
    ];
    let shape = Shape::of(0, 32);
    for (i, (first, count, hex)) in rows.into_iter().enumerate() {
        let i = i as u64;
        let mut memory = section(rt.alloc(), shape)?;
        let bytes = memory.as_mut_slice();
        clear(shape, i, 3, bytes);
        for n in 0..count {
            let block = first.wrapping_add(n);
            let data = filled(i.wrapping_add(1), block);
            put(shape, bytes, n, block, &data, &maker.tag(block, &data))?;
        }
        let commit_number = if count == 0 { 0 } else { 1 };
        seal(shape, i, commit_number, bytes);
        let want = <[u8; 32] as FromHex>::from_hex(hex)?;
        assert!(rt; Sha256::digest(&*bytes) == want, "section {i}");
    }
    Ok(())
}
