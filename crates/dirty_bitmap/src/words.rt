//! Bits of bytes, over words of 64 bits. Bit r is bit `r % 8` of byte `r / 8`.
ghost use Rattle.std.specs.Prelude.{◌≡◌, ◌+◌, ◌-◌, ◌*◌, ◌/◌, ◌^◌, ◌<◌, ◌≤◌, ◌==◌, ℕ, find, length, nat_lt};
ghost use Rattle.std.specs.Prelude.{if◌then◌else◌, false, true, MatchOption};
ghost use Rattle.std.specs.Int.{bit_at};
ghost use Rattle.std.specs.List.{count_by, range_with_len};
ghost use Rattle.image_model.specs.Bitmap.{is_bit_set};

use byteorder::{ByteOrder, LittleEndian};

/// The bits of a word.
const WORD_BITS: usize = 64;

/// Its bytes.
const WORD_SIZE: usize = 8;

/// The word that has bits `64 * at` to `64 * at + 63`, the lowest first.
fn word_at(bytes: &[u8], at: usize) -> u64
    requires { 8 * at + 8 ≤ length bytes.now }

    ensures { (i : ℕ) → i < 64 → is_bit_set bytes.now (64 * at + i) ≡ (bit_at result i == 1) }
{
    LittleEndian::read_u64(&bytes[WORD_SIZE * at..])
}

/// The lowest bit of a word that is set.
fn lowest_bit(word: u64) -> Option<usize>
    ensures { MatchOption result ((i : ℕ) → bit_at word i ≡ 0)
        (λ bit. (bit < 64) × (bit_at word bit ≡ 1) × ((i : ℕ) → i < bit → bit_at word i ≡ 0)) }
{
    if word == 0 {
        return None;
    }
    Some(word.trailing_zeros() as usize)
}

/// The least bit not below `from` that is set.
pub(crate) fn next_bit(bytes: &[u8], from: usize) -> Option<usize>
    requires whole { length bytes.now ≡ 8 * (length bytes.now / 8) }
    requires few { length bytes.now < 2 ^ 60 }

    ensures { result ≡ find (is_bit_set bytes.now) (range_with_len from (8 * length bytes.now - from)) }
{
    let words = bytes.len() / WORD_SIZE;
    let first = from / WORD_BITS;
    if first >= words {
        return None;
    }
    let above = word_at(bytes, first) & (u64::MAX << (from % WORD_BITS));
    if let Some(bit) = lowest_bit(above) {
        return Some(WORD_BITS * first + bit);
    }
    for at in first + 1..words {
        if let Some(bit) = lowest_bit(word_at(bytes, at)) {
            return Some(WORD_BITS * at + bit);
        }
    }
    None
}

/// How many bits are set.
pub(crate) fn count_bits(bytes: &[u8]) -> u64
    requires whole { length bytes.now ≡ 8 * (length bytes.now / 8) }
    requires few { length bytes.now < 2 ^ 60 }

    ensures { result ≡ count_by (is_bit_set bytes.now) (range_with_len 0 (8 * length bytes.now)) }
{
    let mut count = 0;
    for at in 0..bytes.len() / WORD_SIZE {
        count += u64::from(word_at(bytes, at).count_ones());
    }
    count
}

/// Clears each bit from `from` on.
pub fn clear_from(bytes: &mut [u8], from: usize)
    ensures { (r : ℕ) → is_bit_set bytes.new r
        ≡ (if nat_lt r from then is_bit_set bytes.old r else false) }
{
    let at = from / 8;
    if at >= bytes.len() {
        return;
    }
    bytes[at] &= low_bits(from % 8);
    bytes[at + 1..].fill(0);
}

/// Sets each bit from `from` on.
pub(crate) fn set_from(bytes: &mut [u8], from: usize)
    ensures { (r : ℕ) → r < 8 * length bytes.old → is_bit_set bytes.new r
        ≡ (if nat_lt r from then is_bit_set bytes.old r else true) }
{
    let at = from / 8;
    if at >= bytes.len() {
        return;
    }
    bytes[at] |= !low_bits(from % 8);
    bytes[at + 1..].fill(0xff);
}

/// A byte whose lowest bits are set, so many of them.
fn low_bits(count: usize) -> u8
    requires { count < 8 }

    ensures { result ≡ 2 ^ count - 1 }
{
    (1u8 << count) - 1
}
