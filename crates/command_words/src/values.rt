//! The values of places and options, in types that say what they are.
ghost use Rattle.std.specs.Prelude.{◌≡◌, ◌≤◌, ◌^◌, IfOk};
ghost use Rattle.command_words.specs.Numbers.{IsInterleave, interleave_of, log2_of, within};
ghost use Rattle.command_words.specs.Sizes.{log2_sectors};

use std::alloc::{AllocError, Global};
use std::marker::Model;

/// The name of a file, as it stands in the words. It may be empty, and no file may have it.
#[derive(Debug, Drop)]
pub struct FileName {
    name: String,
}

impl Model for FileName {
    ghost use Rattle.std.specs.Prelude.{List, ℕ};
    ghost use Rattle.std.specs.String.{string_bytes};

    ghost Value = { List ℕ };

    ghost view = { λ file. string_bytes file.name };
}

impl FileName {
    /// The file that has this name.
    pub(crate) fn new(alloc: Global, name: &str) -> Result<FileName, AllocError>
        ensures { IfOk result (λ file. file ≡ name.now) }
    {
        let name = String::from_str(alloc, name)?;
        Ok(FileName { name })
    }

    /// Its name.
    pub fn as_str(&self) -> &str
        ensures { result.now ≡ self.now }
    {
        self.name.as_str()
    }
}

/// A number from `LEAST` to `MOST`.
#[derive(Clone, Copy, Debug)]
pub struct Within<const LEAST: u64, const MOST: u64> {
    number: u64,
}

impl<const LEAST: u64, const MOST: u64> Model for Within<LEAST, MOST> {
    ghost use Rattle.std.specs.Prelude.{ℕ, ◌≤◌};

    ghost Value = { ℕ };

    ghost view = { λ held. held.number };

    ghost invariant = { λ held. (LEAST ≤ held.number) × (held.number ≤ MOST) };

    ghost inverse = { λ number. record { number = number } };
}

impl<const LEAST: u64, const MOST: u64> Within<LEAST, MOST> {
    /// This number, if it is from `LEAST` to `MOST`.
    pub fn new(number: u64) -> Option<Within<LEAST, MOST>>
        ensures { result ≡ within LEAST MOST number }
    {
        if LEAST <= number && number <= MOST {
            Some(Within { number })
        } else {
            None
        }
    }

    /// The number.
    pub fn number(self) -> u64
        ensures number { result ≡ self.entry }
        ensures range { (LEAST ≤ result) × (result ≤ MOST) }
    {
        self.number
    }
}

/// The size of a tag in bytes.
pub type TagSize = Within<1, 32>;

/// How many sections a journal has. Own: at most 2^20.
pub type SectionCount = Within<1, 1048576>;

/// How many blocks of the device a bit of the bitmap stands for, as a power of two.
pub type Log2BlocksPerBit = Within<0, 47>;

/// How many requests an exercise makes.
pub type RequestCount = Within<0, 1000000>;

/// How many sectors of data an area has: a power of two from 2^3 to 2^31.
#[derive(Clone, Copy, Debug)]
pub struct Interleave {
    sectors: u64,
}

impl Model for Interleave {
    ghost use Rattle.std.specs.Prelude.{ℕ};
    ghost use Rattle.command_words.specs.Numbers.{IsInterleave};

    ghost Value = { ℕ };

    ghost view = { λ interleave. interleave.sectors };

    ghost invariant = { λ interleave. IsInterleave interleave.sectors };

    ghost inverse = { λ sectors. record { sectors = sectors } };
}

impl Interleave {
    /// An area of so many sectors, if they are a power of two from 2^3 to 2^31.
    pub fn new(sectors: u64) -> Option<Interleave>
        ensures { result ≡ interleave_of sectors }
    {
        if 8 <= sectors && sectors <= 1 << 31 && sectors.is_power_of_two() {
            Some(Interleave { sectors })
        } else {
            None
        }
    }

    /// The sectors.
    pub fn sectors(self) -> u64
        ensures sectors { result ≡ self }
        ensures range { IsInterleave result }
    {
        self.sectors
    }

    /// The power of two that the sectors are, 3 to 31.
    pub fn log2(self) -> u8
        ensures log2 { result ≡ log2_of self }
        ensures power { 2 ^ result ≡ self }
        ensures range { (3 ≤ result) × (result ≤ 31) }
    {
        self.sectors.trailing_zeros() as u8
    }
}

/// The size of a block of the device.
#[derive(Clone, Copy, Debug, PartialEq, Eq)]
pub enum BlockSize {
    /// 512 bytes: one sector.
    Bytes512,
    /// 1024 bytes: two sectors.
    Bytes1024,
    /// 2048 bytes: four sectors.
    Bytes2048,
    /// 4096 bytes: eight sectors.
    Bytes4096,
}

impl BlockSize {
    /// The power of two that its sectors are, at most 3.
    pub fn log2_sectors(self) -> u8
        ensures log2 { result ≡ log2_sectors self }
        ensures range { result ≤ 3 }
    {
        match self {
            BlockSize::Bytes512 => 0,
            BlockSize::Bytes1024 => 1,
            BlockSize::Bytes2048 => 2,
            BlockSize::Bytes4096 => 3,
        }
    }
}

/// The hash that tags are made by, before its key is read.
#[derive(Debug, Drop)]
pub enum HashChoice {
    /// SHA-256.
    Sha256,
    /// HMAC-SHA-256 under the key that the file `key_file` has.
    HmacSha256 { key_file: FileName },
}

/// Where a write goes first, where there are writes.
#[derive(Clone, Copy, Debug, PartialEq, Eq)]
pub enum Mode {
    /// To the journal.
    Journal,
    /// To its place.
    Direct,
    /// To its place, once the bit of its region is set.
    Bitmap,
    /// There are none: blocks are read whatever their tags are.
    Recovery,
}

/// Where a write goes first, where requests may write: recovery mode refuses writes.
#[derive(Clone, Copy, Debug, PartialEq, Eq)]
pub enum NbdMode {
    /// To the journal.
    Journal,
    /// To its place.
    Direct,
    /// To its place, once the bit of its region is set.
    Bitmap,
}

/// Whether tags under a key may be made anew of blocks whose bytes no tag vouches for.
#[derive(Clone, Copy, Debug, PartialEq, Eq)]
pub enum Consent {
    /// They may.
    Given,
    /// They may not.
    Withheld,
}
