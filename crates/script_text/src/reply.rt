//! What a script is told, as a line of text.
ghost use Rattle.std.specs.Prelude.{◌≡◌, ◌+◌, ◌≤◌, [], ◌∷◌, ◌++◌, length, vec_len, vec_capacity, IfOk, IfSome};
ghost use Rattle.std.specs.Fmt.{decimal};
ghost use Rattle.device_model.specs.Reply.{Bytes, TagFault};
ghost use Rattle.device_model.specs.Transcript.{read_text, write_text};
ghost use Rattle.script_text.specs.Told.{mirror_fault_text, told_text};

use crate::pieces::{put_bytes, put_hex, put_number};
use crate::stretches::{MOST_FOR_A_BYTE, put_stretches};
use crate::told::Told;
use sector_disk::Memory;
use std::alloc::Global;

/// The most bytes of a text beside the runs of a read and the digits of tags: two numbers of 20 digits, and words.
const MOST_BESIDE: usize = 72;

/// The words by which the fault of a mirror tells the tags of its second leg.
const MOST_OF_SECOND: usize = 25;

/// The line that is printed of this, with its newline. The runs of a read are the longest ones.
///
/// # Errors
///
/// - `Memory`: there is none for the text.
///
/// Own: the texts, `docs/COMMANDS.md`.
pub fn reply_text(alloc: Global, told: &Told) -> Result<Vec<u8>, Memory>
    ensures text { IfOk result (λ text. text.items ≡ told_text told.now) }
{
    let Some(room) = room_for(told) else {
        return Err(Memory);
    };
    let mut text = Vec::with_capacity(alloc, room)?;
    put_told(&mut text, told);
    Ok(text)
}

/// Room for the text, in bytes. None where that many cannot be had.
fn room_for(told: &Told) -> Option<usize>
    ensures { IfSome result (λ room. length (told_text told.now) ≤ room) }
{
    match *told {
        Told::Write { first, count } => room_beside(first, count, 0),
        Told::Read {
            first,
            count,
            bytes,
        } => {
            let runs = bytes.len().checked_mul(MOST_FOR_A_BYTE)?;
            room_beside(first, count, runs)
        }
        Told::Fault {
            block,
            stored,
            computed,
        } => {
            let digits = stored.len().checked_add(computed.len())?.checked_mul(2)?;
            room_beside(block, 0, digits)
        }
        Told::MirrorFault {
            block,
            stored,
            computed,
            second_stored,
            second_computed,
        } => {
            let first = stored.len().checked_add(computed.len())?;
            let second = second_stored.len().checked_add(second_computed.len())?;
            let digits = first.checked_add(second)?.checked_mul(2)?;
            let more = digits.checked_add(MOST_OF_SECOND)?;
            room_beside(block, 0, more)
        }
        Told::Level { written } => room_beside(written, 0, 0),
        Told::Ticket { ticket } => room_beside(ticket, 0, 0),
        Told::HeldBy { by } => room_beside(by, 0, 0),
        Told::Flush
        | Told::Did
        | Told::Done
        | Told::NoRoom
        | Told::NotDone
        | Told::Idle
        | Told::SlotsFull
        | Told::ReadOnly
        | Told::Closed => Some(MOST_BESIDE),
    }
}

/// Room for two numbers, the words beside them, and `more` bytes.
fn room_beside(one: u64, other: u64, more: usize) -> Option<usize>
    ensures { IfSome result (λ room. 32 + length (decimal one) + length (decimal other) + more ≤ room) }
{
    // The numbers are bound, since that tells that each has 20 digits at most.
    let _ = (one, other);
    more.checked_add(MOST_BESIDE)
}

/// Appends the text of what is told.
fn put_told(text: &mut Vec<u8>, told: &Told)
    requires room { vec_len text.old + length (told_text told.now) ≤ vec_capacity text.old }

    ensures written { text.new.items ≡ text.old.items ++ told_text told.now }
{
    match *told {
        Told::Write { first, count } => put_write(text, first, count),
        Told::Read {
            first,
            count,
            bytes,
        } => put_read(text, first, count, bytes),
        Told::Flush => put_bytes(text, b"ok flush\n"),
        Told::Fault {
            block,
            stored,
            computed,
        } => put_fault(text, block, stored, computed),
        Told::MirrorFault {
            block,
            stored,
            computed,
            second_stored,
            second_computed,
        } => put_mirror_fault(
            text,
            block,
            stored,
            computed,
            second_stored,
            second_computed,
        ),
        Told::Level { written } => put_numbered(text, b"level ", written),
        Told::Ticket { ticket } => put_numbered(text, b"ticket ", ticket),
        Told::Did => put_bytes(text, b"did\n"),
        Told::Done => put_bytes(text, b"done\n"),
        Told::HeldBy { by } => put_numbered(text, b"held by ", by),
        Told::NoRoom => put_bytes(text, b"no room\n"),
        Told::NotDone => put_bytes(text, b"not done\n"),
        Told::Idle => put_bytes(text, b"idle\n"),
        Told::SlotsFull => put_bytes(text, b"slots full\n"),
        Told::ReadOnly => put_bytes(text, b"read only\n"),
        Told::Closed => put_bytes(text, b"closed\n"),
    }
}

/// Appends the text of a write.
fn put_write(text: &mut Vec<u8>, first: u64, count: u64)
    requires room { vec_len text.old + length (write_text first count) ≤ vec_capacity text.old }

    ensures written { text.new.items ≡ text.old.items ++ write_text first count }
{
    put_bytes(text, b"ok write ");
    put_number(text, first);
    put_bytes(text, b" ");
    put_number(text, count);
    put_bytes(text, b"\n");
}

/// Appends the text of a read in which each block's stored tag was that of its bytes.
fn put_read(text: &mut Vec<u8>, first: u64, count: u64, bytes: &[u8])
    requires room { vec_len text.old + length (read_text first count (Bytes bytes.now))
        ≤ vec_capacity text.old }

    ensures written { text.new.items ≡ text.old.items ++ read_text first count (Bytes bytes.now) }
{
    put_bytes(text, b"ok read ");
    put_number(text, first);
    put_bytes(text, b" ");
    put_number(text, count);
    put_bytes(text, b" ");
    put_stretches(text, bytes);
    put_bytes(text, b"\n");
}

/// Appends the text of a read that found a block whose stored tag is not that of its bytes.
fn put_fault(text: &mut Vec<u8>, block: u64, stored: &[u8], computed: &[u8])
    requires room { vec_len text.old + length (read_text 0 0 (TagFault block stored.now computed.now))
        ≤ vec_capacity text.old }

    // Which blocks were to be read does not show in it, so 0 and 0 stand for any.
    ensures written { text.new.items
        ≡ text.old.items ++ read_text 0 0 (TagFault block stored.now computed.now) }
{
    put_bytes(text, b"fault block ");
    put_number(text, block);
    put_bytes(text, b" stored ");
    put_hex(text, stored);
    put_bytes(text, b" computed ");
    put_hex(text, computed);
    put_bytes(text, b"\n");
}

/// Appends the text of a read that found a block of a mirror whose stored tag is on neither leg that of its bytes.
fn put_mirror_fault(
    text: &mut Vec<u8>,
    block: u64,
    stored: &[u8],
    computed: &[u8],
    second_stored: &[u8],
    second_computed: &[u8],
)
    requires room { vec_len text.old + length (mirror_fault_text block stored.now computed.now second_stored.now
        second_computed.now) ≤ vec_capacity text.old }

    ensures written { text.new.items ≡ text.old.items ++ mirror_fault_text block stored.now computed.now
        second_stored.now second_computed.now }
{
    put_bytes(text, b"fault block ");
    put_number(text, block);
    put_bytes(text, b" stored ");
    put_hex(text, stored);
    put_bytes(text, b" computed ");
    put_hex(text, computed);
    put_bytes(text, b" second stored ");
    put_hex(text, second_stored);
    put_bytes(text, b" computed ");
    put_hex(text, second_computed);
    put_bytes(text, b"\n");
}

/// Appends a line of these words and a number.
fn put_numbered(text: &mut Vec<u8>, words: &[u8], number: u64)
    requires room { vec_len text.old + length (words.now ++ decimal number ++ 10 ∷ [])
        ≤ vec_capacity text.old }

    ensures written { text.new.items ≡ text.old.items ++ (words.now ++ decimal number ++ 10 ∷ []) }
{
    put_bytes(text, words);
    put_number(text, number);
    put_bytes(text, b"\n");
}
