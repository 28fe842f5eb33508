//! Makes many tags, or reads many blocks, and prints a checksum of them, so that the scripts of `bench` can time what
//! these cost by themselves.
//!
//! `tag_bench WAY SIZE COUNT` makes the tags of COUNT blocks of SIZE bytes: by `sha2` alone, or by a maker of tags
//! without a key or with one. `tag_bench read SIZE COUNT FILE` reads the first COUNT blocks of a file, by one call of
//! the system each.
#![tactic(auto)]

use hmac_tag::{Hash, Key, TagMaker};
use sha2::{Digest, Sha256};
use std::alloc::Global;
use std::fs::File;
use std::os::unix::fs::FileExt;
use std::{env, io};

const USAGE: &str = "tag_bench sha2|unkeyed|keyed SIZE COUNT, or read SIZE COUNT FILE";

/// The key of the keyed tags.
const KEY: [u8; 32] = [0x6b; 32];

/// What makes the tags, or that blocks are read.
#[derive(Drop)]
enum Way {
    Sha2,
    Maker(TagMaker),
    Read,
}

/// The way of this name, if it has one and memory does not run out.
fn way_of(alloc: Global, name: &str) -> Option<Way> {
    match name {
        "sha2" => Some(Way::Sha2),
        "unkeyed" => Some(Way::Maker(TagMaker::new(Hash::Sha256, None, 32))),
        "keyed" => {
            let key = Key::from_bytes(alloc, &KEY).ok()?;
            Some(Way::Maker(TagMaker::new(Hash::Hmac(key), None, 32)))
        }
        "read" => Some(Way::Read),
        _ => None,
    }
}

/// Reads the first `count` blocks of a file into these bytes, one after the other.
fn read_checksum(file: &File, bytes: &mut [u8], count: u64) -> io::Result<u64> {
    let mut sum = 0u64;
    let mut at = 0u64;
    for _block in 0..count {
        let read = file.read_at(bytes, at)?;
        at = at.wrapping_add(read as u64);
        sum = sum.wrapping_add(first_number(bytes));
    }
    Ok(sum)
}

fn sha2_checksum(bytes: &[u8], count: u64) -> u64 {
    let mut sum = 0u64;
    for sector in 0..count {
        let mut hasher = Sha256::new();
        hasher.update(sector.to_le_bytes());
        hasher.update(bytes);
        let digest = hasher.finalize();
        sum = sum.wrapping_add(first_number(&digest));
    }
    sum
}

fn maker_checksum(maker: &TagMaker, bytes: &[u8], count: u64) -> u64 {
    let mut sum = 0u64;
    for sector in 0..count {
        let tag = maker.tag(sector, bytes);
        sum = sum.wrapping_add(first_number(tag.bytes()));
    }
    sum
}

/// The first 8 bytes as a number, and 0 of fewer.
fn first_number(bytes: &[u8]) -> u64 {
    match bytes.first_chunk::<8>() {
        Some(first) => u64::from_le_bytes(*first),
        None => 0,
    }
}

fn main(rt: HostRuntime) -> io::Result<()> {
    let mut words = env::args(&rt)?.skip(1);
    let (Some(name), Some(size), Some(count)) = (words.next(), words.next(), words.next()) else {
        return println!(rt; "{USAGE}");
    };
    let (Some(way), Ok(size), Ok(count)) = (
        way_of(rt.alloc(), name.as_str()),
        size.parse::<usize>(),
        count.parse::<u64>(),
    ) else {
        return println!(rt; "{USAGE}");
    };
    let mut bytes = vec![in rt.alloc(); 0xa5u8; size]?;
    let sum = match &way {
        Way::Sha2 => sha2_checksum(&bytes, count),
        Way::Maker(maker) => maker_checksum(maker, &bytes, count),
        Way::Read => {
            let Some(name) = words.next() else {
                return println!(rt; "{USAGE}");
            };
            read_checksum(&File::open(&rt, name.as_str())?, &mut bytes, count)?
        }
    };
    println!(rt; "{sum:016x}")
}
