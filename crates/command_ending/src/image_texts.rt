//! The last line of a command whose image is refused, or the second image of its mirror.
ghost use Rattle.std.specs.Prelude.{◌≡◌, ◌++◌, codes};
ghost use Rattle.std.specs.Fmt.{decimal};
ghost use Rattle.disk_model.specs.Causes.{HasCause};
ghost use Rattle.device_model.specs.Refusals.{ByGeometry, ByJournal, BySuperblock, hexadecimal};
ghost use Rattle.image_model.specs.Openable.{JournalBlock, JournalTag, Scan};
ghost use Rattle.journal_reading.specs.Faults.{as_fault};
ghost use Rattle.command_ending.specs.Ended.{Puts, image_fault_of, rest_of_line, rest_of_image_line};

use crate::ImageFault;
use crate::hexadecimal::hexadecimal;
use crate::pieces::put_pieces;
use crate::tag_text::{MOST_DIGITS, tag_digits};
use hmac_tag::Tag;
use image_model::{GeomFault, ScanFault, SuperFault};
use itoa::Buffer;
use journal_reading::JournalFault;
use sector_disk::Failed;
use stream_io::{Sink, put_all};

/// Writes the line of an image that is refused, which begins with these words.
///
/// # Errors
///
/// - `Failed`: the sink failed. It has taken some of the line from the front, or none, and not all.
pub(crate) fn put_image_fault<O: Sink>(
    out: &mut O,
    words: &[u8],
    fault: ImageFault,
) -> Result<(), Failed>
    ensures line { Puts (words.now ++ rest_of_image_line (image_fault_of fault))
        (O.held out.old) (O.held out.new) result }
    ensures cause { HasCause (O.faults out.old) (O.faults out.new) result }
{
    put_all(out, words)?;
    put_fault(out, fault)
}

/// Writes the rest of the line of an image that is refused, behind its first words.
fn put_fault<O: Sink>(out: &mut O, fault: ImageFault) -> Result<(), Failed>
    ensures line { Puts (rest_of_image_line (image_fault_of fault)) (O.held out.old) (O.held out.new) result }
    ensures cause { HasCause (O.faults out.old) (O.faults out.new) result }
{
    match fault {
        ImageFault::Super(fault) => put_super_fault(out, fault),
        ImageFault::Geom(fault) => put_geom_fault(out, fault),
        ImageFault::Consent { flags } => put_flags(out, b"consent ", flags),
        ImageFault::Journal(fault) => put_journal_fault(out, fault),
    }
}

/// Writes the rest of the line of a superblock that is not accepted.
fn put_super_fault<O: Sink>(out: &mut O, fault: SuperFault) -> Result<(), Failed>
    ensures line { Puts (rest_of_image_line (BySuperblock fault)) (O.held out.old) (O.held out.new) result }
    ensures cause { HasCause (O.faults out.old) (O.faults out.new) result }
{
    match fault {
        SuperFault::Magic => put_text(out, b"magic"),
        SuperFault::Version { v } => put_number(out, b"version ", u64::from(v)),
        SuperFault::JournalMac { flags } => put_flags(out, b"journal mac ", flags),
        SuperFault::Inline { flags } => put_flags(out, b"inline ", flags),
        SuperFault::Flags { unknown } => put_flags(out, b"flags ", unknown),
        SuperFault::Interleave { v } => put_number(out, b"interleave ", u64::from(v)),
        SuperFault::BlockSize { v } => put_number(out, b"block size ", u64::from(v)),
        SuperFault::TagSize { v } => put_number(out, b"tag size ", u64::from(v)),
        SuperFault::Sections { v } => put_number(out, b"sections ", u64::from(v)),
        SuperFault::Provided { v } => put_number(out, b"provided ", v),
    }
}

/// Writes the rest of the line of a disk that has no room for what the superblock tells.
fn put_geom_fault<O: Sink>(out: &mut O, fault: GeomFault) -> Result<(), Failed>
    ensures line { Puts (rest_of_image_line (ByGeometry fault)) (O.held out.old) (O.held out.new) result }
    ensures cause { HasCause (O.faults out.old) (O.faults out.new) result }
{
    match fault {
        GeomFault::DeviceTooLarge { have } => put_number(out, b"device too large ", have),
        GeomFault::JournalTooLarge { sectors } => put_number(out, b"journal too large ", sectors),
        GeomFault::TooSmall { have, need } => put_numbers(out, b"too small ", have, need),
        GeomFault::BitmapTooLarge { need, have } => put_numbers(
            out,
            b"bitmap too large ",
            need,
            have,
        ),
    }
}

/// Writes the rest of the line of a journal that is refused.
fn put_journal_fault<O: Sink>(out: &mut O, fault: JournalFault) -> Result<(), Failed>
    ensures line { Puts (rest_of_image_line (ByJournal (as_fault fault))) (O.held out.old) (O.held out.new) result }
    ensures cause { HasCause (O.faults out.old) (O.faults out.new) result }
{
    match fault {
        JournalFault::Scan(fault) => put_scan_fault(out, fault),
        JournalFault::JournalBlock {
            section,
            entry,
            sector,
        } => put_entry_block(out, section, entry, sector),
        JournalFault::JournalTag {
            section,
            entry,
            stored,
            computed,
        } => put_entry_tag(out, section, entry, &stored, &computed),
    }
}

/// Writes the rest of the line of an entry that is of no block of the device.
fn put_entry_block<O: Sink>(
    out: &mut O,
    section: u64,
    entry: u64,
    sector: u64,
) -> Result<(), Failed>
    ensures line { Puts (rest_of_image_line (ByJournal (JournalBlock section entry sector)))
        (O.held out.old) (O.held out.new) result }
    ensures cause { HasCause (O.faults out.old) (O.faults out.new) result }
{
    let mut sections = Buffer::new();
    let mut entries = Buffer::new();
    let mut sectors = Buffer::new();
    let section = sections.format(section).as_bytes();
    let entry = entries.format(entry).as_bytes();
    let sector = sectors.format(sector).as_bytes();
    put_pieces(
        out,
        &[b"journal block ", section, b" ", entry, b" ", sector, b"\n"],
    )
}

/// Writes the rest of the line of an entry whose tag is not that of its block.
fn put_entry_tag<O: Sink>(
    out: &mut O,
    section: u64,
    entry: u64,
    stored: &Tag,
    computed: &Tag,
) -> Result<(), Failed>
    ensures line { Puts (rest_of_image_line (ByJournal (JournalTag section entry stored.now computed.now)))
        (O.held out.old) (O.held out.new) result }
    ensures cause { HasCause (O.faults out.old) (O.faults out.new) result }
{
    let mut sections = Buffer::new();
    let mut entries = Buffer::new();
    let mut stored_digits = [0; MOST_DIGITS];
    let mut computed_digits = [0; MOST_DIGITS];
    let section = sections.format(section).as_bytes();
    let entry = entries.format(entry).as_bytes();
    let stored = tag_digits(stored, &mut stored_digits);
    let computed = tag_digits(computed, &mut computed_digits);
    put_pieces(
        out,
        &[
            b"journal tag ",
            section,
            b" ",
            entry,
            b" stored ",
            stored,
            b" computed ",
            computed,
            b"\n",
        ],
    )
}

/// Writes the rest of the line of a journal whose commit numbers make no plan. Of four numbers it tells no place.
fn put_scan_fault<O: Sink>(out: &mut O, fault: ScanFault) -> Result<(), Failed>
    ensures line { Puts (rest_of_image_line (ByJournal (Scan fault))) (O.held out.old) (O.held out.new) result }
    ensures cause { HasCause (O.faults out.old) (O.faults out.new) result }
{
    match fault {
        ScanFault::NoNumber {
            section,
            sector,
            ..
        } => put_numbers(out, b"number ", section, sector),
        ScanFault::FourNumbers { .. } => put_text(out, b"four numbers"),
    }
}

/// Writes the rest of the line of a fault without a number.
fn put_text<O: Sink>(out: &mut O, text: &[u8]) -> Result<(), Failed>
    ensures line { Puts (rest_of_line text.now) (O.held out.old) (O.held out.new) result }
    ensures cause { HasCause (O.faults out.old) (O.faults out.new) result }
{
    put_pieces(out, &[text, b"\n"])
}

/// Writes the rest of the line of a fault with a number.
fn put_number<O: Sink>(out: &mut O, name: &[u8], number: u64) -> Result<(), Failed>
    ensures line { Puts (rest_of_line (name.now ++ decimal number)) (O.held out.old) (O.held out.new) result }
    ensures cause { HasCause (O.faults out.old) (O.faults out.new) result }
{
    let mut digits = Buffer::new();
    put_pieces(out, &[name, digits.format(number).as_bytes(), b"\n"])
}

/// Writes the rest of the line of a fault with two numbers.
fn put_numbers<O: Sink>(out: &mut O, name: &[u8], one: u64, other: u64) -> Result<(), Failed>
    ensures line { Puts (rest_of_line (name.now ++ decimal one ++ codes " " ++ decimal other))
        (O.held out.old) (O.held out.new) result }
    ensures cause { HasCause (O.faults out.old) (O.faults out.new) result }
{
    let mut digits = Buffer::new();
    let mut others = Buffer::new();
    let one = digits.format(one).as_bytes();
    let other = others.format(other).as_bytes();
    put_pieces(out, &[name, one, b" ", other, b"\n"])
}

/// Writes the rest of the line of a fault with flags.
fn put_flags<O: Sink>(out: &mut O, name: &[u8], flags: u32) -> Result<(), Failed>
    ensures line { Puts (rest_of_line (name.now ++ hexadecimal flags)) (O.held out.old)
        (O.held out.new) result }
    ensures cause { HasCause (O.faults out.old) (O.faults out.new) result }
{
    let mut digits = [0; 8];
    put_pieces(out, &[name, b"0x", hexadecimal(flags, &mut digits), b"\n"])
}
