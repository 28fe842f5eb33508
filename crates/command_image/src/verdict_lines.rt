//! The line of a block that is salvaged, in a text that is used again for each of them.
ghost use Rattle.std.specs.Prelude.{◌≡◌, ◌++◌, OnOk};
ghost use Rattle.std.specs.Fmt.{decimal};
ghost use Rattle.hex.specs.Hex.{encode_lower};
ghost use Rattle.image_salvage.specs.Telling.{as_verdict};
ghost use Rattle.salvage_model.specs.Salvaging.{verdict_text};

use command_ending::{MOST_DIGITS, tag_digits};
use hmac_tag::Tag;
use image_salvage::Verdict;
use itoa::Buffer;
use script_text::add_stretches;
use sector_disk::Memory;

/// Makes this text the line of a block with these bytes, in place of what it was.
///
/// # Errors
///
/// - `Memory`: there is none for the line.
pub(crate) fn write_verdict(
    line: &mut Vec<u8>,
    verdict: &Verdict,
    bytes: &[u8],
) -> Result<(), Memory>
    ensures { OnOk result (line.new.items ≡ verdict_text (as_verdict verdict.now) bytes.now) }
{
    line.clear();
    if verdict.is_good() {
        add(line, b"good ")?;
        add_number(line, verdict.block)?;
    } else {
        add(line, b"bad ")?;
        add_number(line, verdict.block)?;
        add(line, b" stored ")?;
        add_tag(line, &verdict.stored)?;
        add(line, b" computed ")?;
        add_tag(line, &verdict.computed)?;
    }
    add(line, b" ")?;
    add_stretches(line, bytes)?;
    add(line, b"\n")
}

/// Appends bytes.
///
/// # Errors
///
/// - `Memory`: there is none for them.
fn add(line: &mut Vec<u8>, bytes: &[u8]) -> Result<(), Memory>
    ensures { OnOk result (line.new.items ≡ line.old.items ++ bytes.now) }
{
    match line.extend_from_slice(bytes) {
        Ok(()) => Ok(()),
        Err(_) => Err(Memory),
    }
}

/// Appends a number, in decimal digits.
///
/// # Errors
///
/// - `Memory`: there is none for them.
fn add_number(line: &mut Vec<u8>, number: u64) -> Result<(), Memory>
    ensures { OnOk result (line.new.items ≡ line.old.items ++ decimal number) }
{
    let mut digits = Buffer::new();
    add(line, digits.format(number).as_bytes())
}

/// Appends a tag, in hexadecimal digits.
///
/// # Errors
///
/// - `Memory`: there is none for them.
fn add_tag(line: &mut Vec<u8>, tag: &Tag) -> Result<(), Memory>
    ensures { OnOk result (line.new.items ≡ line.old.items ++ encode_lower tag.now) }
{
    let mut digits = [0; MOST_DIGITS];
    add(line, tag_digits(tag, &mut digits))
}
