//! The text of a dump, line by line.
ghost use Rattle.std.specs.Prelude.{◌≡◌, ◌*◌, ◌^◌, ◌<◌, ◌≤◌, [], ◌∷◌, ◌++◌, IfOk, OnOk};
ghost use Rattle.image_model.specs.Superblock.{IsAccepted};
ghost use Rattle.dump_model.specs.Lines.{dump_lines, joined_lines, journal_lines, layout_lines, state_text, superblock_lines};

use crate::pieces::{put, put_bytes, put_flags, put_number, put_numbers};
use crate::{Dump, DumpJournal};
use image_model::{SECTOR_SIZE, State};
use layout::Geometry;
use sector_disk::Memory;
use std::alloc::Global;
use superblock::Super;

/// The room that is taken for a text, in bytes: more than its names and its largest numbers have.
const ROOM: usize = 512;

/// The text of a dump: 16 lines, each with its newline.
///
/// # Errors
///
/// - `Memory`: there is none for the text.
///
/// Own: the lines.
pub fn dump_text(alloc: Global, dump: &Dump) -> Result<Vec<u8>, Memory>
    requires { IsAccepted dump.now.format.fields }

    ensures text { IfOk result (λ text. text.items ≡ joined_lines (dump_lines dump.now)) }
{
    let mut text = Vec::with_capacity(alloc, ROOM)?;
    put_superblock(alloc, &mut text, &dump.format.fields)?;
    put_layout(&mut text, &dump.format.geometry)?;
    put_journal(&mut text, dump.journal)?;
    Ok(text)
}

/// Appends a line for each field of a superblock.
///
/// # Errors
///
/// - `Memory`: there is none for them.
fn put_superblock(alloc: Global, text: &mut Vec<u8>, fields: &Super) -> Result<(), Memory>
    requires { IsAccepted fields.now }

    ensures { OnOk result (text.new.items ≡ text.old.items ++ joined_lines (superblock_lines fields.now)) }
{
    put_number(text, b"version ", fields.version as u64)?;
    put_number(text, b"interleave ", power_of_two(fields.log2_interleave))?;
    put_number(text, b"tag ", fields.tag_size as u64)?;
    put_number(text, b"sections ", fields.sections as u64)?;
    put_number(text, b"provided ", fields.provided)?;
    put_flags(alloc, text, b"flags ", fields.flags)?;
    put_number(text, b"block ", block_size(fields.log2_spb))?;
    put_number(text, b"log2 blocks per bit ", fields.log2_region as u64)?;
    put_number(text, b"recalculate ", fields.recalc_sector)?;
    put_bytes(alloc, text, b"salt ", &fields.salt)?;
    Ok(())
}

/// 2^`log2`.
fn power_of_two(log2: u8) -> u64
    requires { log2 < 64 }

    ensures { result ≡ 2 ^ log2 }
{
    1 << log2
}

/// The size of a block of 2^`log2_spb` sectors, in bytes.
fn block_size(log2_spb: u8) -> u64
    requires { log2_spb ≤ 3 }

    ensures { result ≡ 512 * 2 ^ log2_spb }
{
    SECTOR_SIZE as u64 * (1 << log2_spb)
}

/// Appends a line for each number of a layout.
///
/// # Errors
///
/// - `Memory`: there is none for them.
fn put_layout(text: &mut Vec<u8>, geometry: &Geometry) -> Result<(), Memory>
    ensures { OnOk result (text.new.items ≡ text.old.items ++ joined_lines (layout_lines geometry.now)) }
{
    let shape = geometry.shape();
    put_number(text, b"initial ", geometry.initial())?;
    put_number(text, b"tag run ", geometry.tag_run())?;
    put_number(text, b"section entries ", shape.entries)?;
    put_number(text, b"section sectors ", shape.sectors)?;
    put_number(text, b"blocks ", geometry.blocks())?;
    Ok(())
}

/// Appends a line for a journal, or for a bitmap.
///
/// # Errors
///
/// - `Memory`: there is none for it.
fn put_journal(text: &mut Vec<u8>, journal: DumpJournal) -> Result<(), Memory>
    ensures { OnOk result (text.new.items ≡ text.old.items ++ joined_lines (journal_lines journal)) }
{
    match journal {
        DumpJournal::State(state) => {
            put(text, b"journal ")?;
            put_state(text, state)
        }
        DumpJournal::Bitmap { set } => put_number(text, b"journal bitmap set ", set),
    }
}

/// Appends what the line of a journal says behind its first word.
///
/// # Errors
///
/// - `Memory`: there is none for it.
fn put_state(text: &mut Vec<u8>, state: State) -> Result<(), Memory>
    ensures { OnOk result (text.new.items ≡ text.old.items ++ joined_lines (state_text state ∷ [])) }
{
    match state {
        State::Rest { next, number } => put_numbers(
            text,
            b"rest next ",
            next,
            b" number ",
            number as u64,
        ),
        State::Mixed { newest } => put_number(text, b"mixed newest ", newest as u64),
        State::Erasing { newest } => put_number(text, b"erasing newest ", newest as u64),
        State::Blank { number } => put_number(text, b"blank number ", number as u64),
    }
}
