//! Runs of one byte, of which bytes that differ one from the next make many. Eight are compared, looked up and put into
//! the text at once, by vectors.
ghost use Rattle.std.specs.Prelude.{◌≡◌, ◌≢◌, ℕ, ◌+◌, ◌*◌, ◌<◌, ◌≤◌, ◌==◌, ◌++◌, length, take, drop, slice_index, vec_len, vec_capacity, IsTrue};
ghost use Rattle.std.specs.List.{flat_map};
ghost use Rattle.std.specs.Simd.Lanes.{mask_l, zip2};
ghost use Rattle.hex.specs.Hex.{encode_lower};
ghost use Rattle.script_text.specs.Singles.{single_text};

use crate::pieces::{DIGITS, digits_of, put_bytes};
use std::simd::prelude::*;

/// How many go into the text at once.
pub(crate) const AT_ONCE: usize = 8;

/// What stands behind the digits of each run.
const MARKS: [u8; 16] = *b"*1,*1,*1,*1,*1,*";

/// Where the text of eight runs is taken from: the two digits of each, of which there are sixteen, and then the first
/// three marks. The places behind the forty are not used.
const PLACES: [usize; 64] = [
    0, 1, 16, 17, 18, 2, 3, 16, 17, 18, 4, 5, 16, 17, 18, 6, 7, 16, 17, 18, 8, 9, 16, 17, 18, 10,
    11, 16, 17, 18, 12, 13, 16, 17, 18, 14, 15, 16, 17, 18, 0, 0, 0, 0, 0, 0, 0, 0, 0, 0, 0, 0, 0,
    0, 0, 0, 0, 0, 0, 0, 0, 0, 0, 0,
];

/// The run of one byte, and the comma behind it.
fn single_of(byte: u8) -> [u8; 5]
    ensures { result ≡ single_text byte }
{
    let [high, low] = digits_of(byte);
    [high, low, b'*', b'1', b',']
}

/// A bit for each of the first eight bytes, set where the next byte is the same. All are compared at once, since most
/// blocks have no such byte.
fn equal_to_next(bytes: &[u8]) -> u64
    requires more { 8 < length bytes.now }

    ensures { result ≡ mask_l (zip2 (λ x y. x == y) (take 8 bytes.now) (take 8 (drop 1 bytes.now))) }
{
    let eight = u8x8::from_slice(bytes);
    let next = u8x8::from_slice(&bytes[1..]);
    eight.simd_eq(next).to_bitmask()
}

/// Whether each of the first eight bytes is a run by itself, and others follow.
pub(crate) fn begins_with_singles(bytes: &[u8]) -> bool
    ensures more { IsTrue result → 8 < length bytes.now }
    ensures singles { IsTrue result → (k : ℕ) → k < 8 → slice_index bytes.now k ≢ slice_index bytes.now (k + 1) }
{
    bytes.len() > AT_ONCE && equal_to_next(bytes) == 0
}

/// Appends a run of one byte and a comma.
pub(crate) fn put_single(text: &mut Vec<u8>, byte: u8)
    requires room { vec_len text.old + 5 ≤ vec_capacity text.old }

    ensures written { text.new.items ≡ text.old.items ++ single_text byte }
    ensures capacity { vec_capacity text.old ≤ vec_capacity text.new }
{
    put_bytes(text, &single_of(byte));
}

/// The two digits of each of eight bytes. They are looked up all at once.
fn digits_of_eight(bytes: u8x8) -> u8x16
    ensures { result ≡ encode_lower bytes }
{
    let high = bytes >> u8x8::splat(4);
    let low = bytes & u8x8::splat(15);
    let places = high.shuffle(low, [0, 8, 1, 9, 2, 10, 3, 11, 4, 12, 5, 13, 6, 14, 7, 15]);
    u8x16::from_array(DIGITS).swizzle_dyn(places)
}

/// Appends the runs of eight bytes, each with a comma.
pub(crate) fn put_singles(text: &mut Vec<u8>, bytes: &[u8; AT_ONCE])
    requires room { vec_len text.old + 5 * 8 ≤ vec_capacity text.old }

    ensures written { text.new.items ≡ text.old.items ++ flat_map single_text bytes.now }
    ensures capacity { vec_capacity text.old ≤ vec_capacity text.new }
{
    let digits = digits_of_eight(u8x8::from_array(*bytes));
    let runs: u8x64 = digits.shuffle(u8x16::from_array(MARKS), PLACES);
    // A vector is stored whole, where `to_array` takes its lanes one by one.
    let mut lanes = [0; 64];
    runs.copy_to_slice(&mut lanes);
    put_bytes(text, &lanes[..5 * AT_ONCE]);
}
