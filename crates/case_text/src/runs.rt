//! Bytes that a text says by runs.
use anyhow::{Result, bail};
use std::alloc::Global;

/// The most bytes, or numbers, of a run.
const MOST: u64 = 4096;

/// The bytes of runs that are joined by commas: bytes in hexadecimal; `aa*24`, a byte that comes so often; `7+64`, so
/// many numbers of 8 bytes, the lowest byte first, each one more than the one before; `7^64`, one that comes so often.
pub fn bytes_of_runs(alloc: Global, text: &str) -> Result<Vec<u8>> {
    let mut bytes = Vec::new(alloc);
    for run in text.split(',') {
        if let Some((byte, count)) = run.split_once('*') {
            let byte = u8::from_str_radix(byte, 16)?;
            for _ in 0..count.parse::<u64>()?.min(MOST) {
                bytes.push(byte)?;
            }
        } else if let Some((first, count)) = run.split_once('+') {
            push_numbers(&mut bytes, first.parse::<u64>()?, 1, count.parse::<u64>()?)?;
        } else if let Some((number, count)) = run.split_once('^') {
            push_numbers(&mut bytes, number.parse::<u64>()?, 0, count.parse::<u64>()?)?;
        } else {
            push_hex(alloc, &mut bytes, run)?;
        }
    }
    Ok(bytes)
}

/// Adds so many numbers of 8 bytes, the lowest byte first, each so much more than the one before.
fn push_numbers(bytes: &mut Vec<u8>, first: u64, by: u64, count: u64) -> Result<()> {
    let mut number = first;
    for _ in 0..count.min(MOST) {
        bytes.extend_from_slice(&number.to_le_bytes())?;
        number = number.wrapping_add(by);
    }
    Ok(())
}

/// Adds bytes that stand in hexadecimal.
fn push_hex(alloc: Global, bytes: &mut Vec<u8>, text: &str) -> Result<()> {
    let mut out = vec![in alloc; 0u8; text.len() / 2]?;
    if text.len() % 2 != 0 || hex::decode_to_slice(text, &mut out).is_err() {
        bail!("these are no bytes in hexadecimal");
    }
    bytes.extend_from_slice(&out)?;
    Ok(())
}
