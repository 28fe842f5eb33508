//! Appends pieces of lines to a text.
ghost use Rattle.std.specs.Prelude.{◌≡◌, ◌++◌, codes, OnOk};
ghost use Rattle.std.specs.Fmt.{decimal};
ghost use Rattle.hex.specs.Hex.{encode_lower};
ghost use Rattle.device_model.specs.Refusals.{hexadecimal};

use itoa::Buffer;
use sector_disk::Memory;
use std::alloc::Global;

/// Appends bytes.
///
/// # Errors
///
/// - `Memory`: there is none for them.
pub(crate) fn put(text: &mut Vec<u8>, bytes: &[u8]) -> Result<(), Memory>
    ensures { OnOk result (text.new.items ≡ text.old.items ++ bytes.now) }
{
    match text.extend_from_slice(bytes) {
        Ok(()) => Ok(()),
        Err(_) => Err(Memory),
    }
}

/// Appends a line: a name and what it has.
///
/// # Errors
///
/// - `Memory`: there is none for it.
pub(crate) fn put_line(text: &mut Vec<u8>, name: &[u8], value: &[u8]) -> Result<(), Memory>
    ensures { OnOk result (text.new.items ≡ text.old.items ++ (name.now ++ value.now ++ codes "\n")) }
{
    put(text, name)?;
    put(text, value)?;
    put(text, b"\n")
}

/// Appends a line: a name and a number, in decimal digits.
///
/// # Errors
///
/// - `Memory`: there is none for it.
pub(crate) fn put_number(text: &mut Vec<u8>, name: &[u8], number: u64) -> Result<(), Memory>
    ensures { OnOk result (text.new.items ≡ text.old.items ++ (name.now ++ decimal number ++ codes "\n")) }
{
    let mut digits = Buffer::new();
    put_line(text, name, digits.format(number).as_bytes())
}

/// Appends a line: a name and a number, and behind them another name and number.
///
/// # Errors
///
/// - `Memory`: there is none for it.
pub(crate) fn put_numbers(
    text: &mut Vec<u8>,
    name: &[u8],
    number: u64,
    other_name: &[u8],
    other: u64,
) -> Result<(), Memory>
    ensures { OnOk result (text.new.items ≡ text.old.items
        ++ (name.now ++ decimal number ++ other_name.now ++ decimal other ++ codes "\n")) }
{
    let mut digits = Buffer::new();
    put(text, name)?;
    put(text, digits.format(number).as_bytes())?;
    put_number(text, other_name, other)
}

/// Appends a line: a name and flags, in hexadecimal digits.
///
/// # Errors
///
/// - `Memory`: there is none for it.
pub(crate) fn put_flags(
    alloc: Global,
    text: &mut Vec<u8>,
    name: &[u8],
    flags: u32,
) -> Result<(), Memory>
    ensures { OnOk result (text.new.items
        ≡ text.old.items ++ (name.now ++ hexadecimal flags ++ codes "\n")) }
{
    match format!(in alloc; "0x{flags:x}") {
        Ok(digits) => put_line(text, name, digits.as_bytes()),
        Err(_) => Err(Memory),
    }
}

/// Appends a line: a name and bytes, each in two hexadecimal digits.
///
/// # Errors
///
/// - `Memory`: there is none for it.
pub(crate) fn put_bytes(
    alloc: Global,
    text: &mut Vec<u8>,
    name: &[u8],
    bytes: &[u8],
) -> Result<(), Memory>
    ensures { OnOk result (text.new.items
        ≡ text.old.items ++ (name.now ++ encode_lower bytes.now ++ codes "\n")) }
{
    match hex::encode(alloc, bytes) {
        Ok(digits) => put_line(text, name, digits.as_bytes()),
        Err(_) => Err(Memory),
    }
}
