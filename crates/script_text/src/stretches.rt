//! The text of some bytes: runs of one byte, joined by commas.
ghost use Rattle.std.specs.Prelude.{◌≡◌, ◌+◌, ◌<◌, ◌≤◌, ◌==◌, ◌++◌, length, replicate, slice_index, take, vec_len, vec_capacity, IsTrue, OnErr, OnOk};
ghost use Rattle.std.specs.List.{prefix_len};
ghost use Rattle.device_model.specs.Stretches.{stretch_text, stretches_text};

use crate::pieces::{put_byte, put_bytes, put_number};
use crate::singles::{begins_with_singles, put_single, put_singles};
use sector_disk::Memory;

/// The most bytes of text for a byte, as in `00*1,`.
pub(crate) const MOST_FOR_A_BYTE: usize = 5;

/// How many bytes from the front on are this byte. They are compared eight at a time.
fn count_at_front(bytes: &[u8], byte: u8) -> usize
    ensures count { result ≡ prefix_len (λ x. x == byte) bytes.now }
    ensures within { result ≤ length bytes.now }
{
    let mut rest = bytes;
    while begins_with_eight(rest, byte) {
        rest = &rest[8..];
    }
    bytes.len() - rest.len() + count_singly(rest, byte)
}

/// Whether the first eight bytes are this byte.
fn begins_with_eight(bytes: &[u8], byte: u8) -> bool
    ensures long { IsTrue result → 8 ≤ length bytes.now }
    ensures same { IsTrue result → take 8 bytes.now ≡ replicate 8 byte }
{
    match bytes.first_chunk::<8>() {
        Some(eight) => u64::from_le_bytes(*eight) == u64::from_le_bytes([byte; 8]),
        None => false,
    }
}

/// How many bytes from the front on are this byte, compared one at a time.
fn count_singly(bytes: &[u8], byte: u8) -> usize
    ensures count { result ≡ prefix_len (λ x. x == byte) bytes.now }
    ensures within { result ≤ length bytes.now }
{
    bytes.iter().take_while(|x| **x == byte).count()
}

/// Appends a run of `count` times this byte.
fn put_stretch(text: &mut Vec<u8>, byte: u8, count: usize)
    requires room { vec_len text.old + length (stretch_text (record { byte = byte; count = count }))
        ≤ vec_capacity text.old }

    ensures written { text.new.items
        ≡ text.old.items ++ stretch_text (record { byte = byte; count = count }) }
    ensures capacity { vec_capacity text.old ≤ vec_capacity text.new }
{
    put_byte(text, byte);
    put_bytes(text, b"*");
    put_number(text, count as u64);
}

/// Whether the first byte is a run by itself, and others follow.
fn begins_single(bytes: &[u8]) -> bool
    ensures more { IsTrue result → 1 < length bytes.now }
    ensures single { IsTrue result → 1 ≡ prefix_len (λ x. x == slice_index bytes.now 0) bytes.now }
{
    bytes.len() > 1 && bytes[0] != bytes[1]
}

/// Appends the first run of some bytes, with a comma where more follow, and gives back those.
fn put_first_stretch<'b>(text: &mut Vec<u8>, bytes: &'b [u8]) -> &'b [u8]
    requires bytes { 0 < length bytes.now }
    requires room { vec_len text.old + length (stretches_text bytes.now) ≤ vec_capacity text.old }

    ensures rest { length result.now < length bytes.now }
    ensures written { text.new.items ++ stretches_text result.now
        ≡ text.old.items ++ stretches_text bytes.now }
    ensures capacity { vec_capacity text.old ≤ vec_capacity text.new }
{
    let byte = bytes[0];
    if begins_single(bytes) {
        put_single(text, byte);
        return &bytes[1..];
    }
    let count = count_at_front(bytes, byte);
    put_stretch(text, byte, count);
    if count < bytes.len() {
        put_bytes(text, b",");
    }
    &bytes[count..]
}

/// Appends the first runs of some bytes, with a comma behind each where more follow, and gives back the bytes that do.
fn put_front<'b>(text: &mut Vec<u8>, bytes: &'b [u8]) -> &'b [u8]
    requires bytes { 0 < length bytes.now }
    requires room { vec_len text.old + length (stretches_text bytes.now) ≤ vec_capacity text.old }

    ensures rest { length result.now < length bytes.now }
    ensures written { text.new.items ++ stretches_text result.now
        ≡ text.old.items ++ stretches_text bytes.now }
    ensures capacity { vec_capacity text.old ≤ vec_capacity text.new }
{
    match bytes.split_first_chunk() {
        Some((eight, behind)) if begins_with_singles(bytes) => {
            put_singles(text, eight);
            behind
        }
        _ => put_first_stretch(text, bytes),
    }
}

/// Appends the text of some bytes. Each byte is compared once.
pub fn put_stretches(text: &mut Vec<u8>, bytes: &[u8])
    requires room { vec_len text.old + length (stretches_text bytes.now) ≤ vec_capacity text.old }

    ensures written { text.new.items ≡ text.old.items ++ stretches_text bytes.now }
    ensures len { vec_len text.new ≡ vec_len text.old + length (stretches_text bytes.now) }
    ensures capacity { vec_capacity text.old ≤ vec_capacity text.new }
{
    let mut rest = bytes;
    while !rest.is_empty() {
        rest = put_front(text, rest);
    }
}

/// Appends the text of some bytes: runs of one byte, joined by commas, as a read is told. Room is taken where the text
/// has too little.
///
/// # Errors
///
/// - `Memory`: there is none for it. The text is as it was.
pub fn add_stretches(text: &mut Vec<u8>, bytes: &[u8]) -> Result<(), Memory>
    ensures written { OnOk result (text.new.items ≡ text.old.items ++ stretches_text bytes.now) }

    ensures err { OnErr result (text.new.items ≡ text.old.items) }
{
    let Some(room) = bytes.len().checked_mul(MOST_FOR_A_BYTE) else {
        return Err(Memory);
    };
    text.reserve(room)?;
    put_stretches(text, bytes);
    Ok(())
}
