//! Judges the meaning of a line, before anything is done of it.
ghost use Rattle.std.specs.Prelude.{◌≡◌, ◌<◌, ◌%◌, ◌/◌, ◌==◌, if◌then◌else◌, Some};
ghost use Rattle.std.specs.Option.{option_map};
ghost use Rattle.device_model.specs.Script.{WrongLength, range_fault};
ghost use Rattle.script_text.specs.Line.{ask_of, line_of};
ghost use Rattle.script_session.specs.Meaning.{ask_fault_on, fault_on, ticket_fault_among};
ghost use Rattle.script_text.specs.Meaning.{meaning_of};
ghost use Rattle.script_session.specs.Tickets.{numbers_of};

use crate::Tickets;
use script_text::{Ask, Line, MeaningFault};

/// How many blocks a line may move.
///
/// Own: 1024.
const MOST_BLOCKS: u128 = 1024;

/// Why a line is refused on a device of `blocks` blocks of `block_size` bytes, if it is, where these tickets are
/// in flight.
pub(crate) fn fault_of(
    line: &Line<'_>,
    blocks: u64,
    block_size: usize,
    tickets: &Tickets,
) -> Option<MeaningFault>
    requires { 0 < block_size }

    ensures { option_map meaning_of result
        ≡ fault_on blocks block_size (numbers_of tickets.now) (line_of line.now) }
{
    match *line {
        Line::Skip | Line::Step { .. } => None,
        Line::Ask { start: _, ask } => ask_fault(&ask, blocks, block_size),
        Line::Serve { ticket } | Line::Take { ticket } => ticket_fault(ticket, tickets),
    }
}

/// Why a ticket is refused, if it is.
fn ticket_fault(ticket: u64, tickets: &Tickets) -> Option<MeaningFault>
    ensures { option_map meaning_of result ≡ ticket_fault_among (numbers_of tickets.now) ticket }
{
    if tickets.holds(ticket) {
        return None;
    }
    Some(MeaningFault::Ticket { ticket })
}

/// Why a request is refused, if it is.
pub fn ask_fault(ask: &Ask<'_>, blocks: u64, block_size: usize) -> Option<MeaningFault>
    requires { 0 < block_size }

    ensures { option_map meaning_of result ≡ ask_fault_on blocks block_size (ask_of ask.now) }
{
    match *ask {
        Ask::Fill { first, count, .. } | Ask::Read { first, count } => {
            range_fault(blocks, first, u128::from(count))
        }
        Ask::Write { first, runs, .. } => length_fault(blocks, block_size, first, runs.total()),
        Ask::Flush => None,
    }
}

/// Why bytes from block `first` on are refused, if they are.
fn length_fault(blocks: u64, block_size: usize, first: u64, length: u128) -> Option<MeaningFault>
    requires { 0 < block_size }

    ensures { option_map meaning_of result ≡ (if length % block_size == 0
        then range_fault blocks first (length / block_size) else Some (WrongLength length)) }
{
    let size = block_size as u128;
    if length % size != 0 {
        return Some(MeaningFault::Length { length });
    }
    range_fault(blocks, first, length / size)
}

/// Why blocks are refused, if they are.
fn range_fault(blocks: u64, first: u64, count: u128) -> Option<MeaningFault>
    ensures { option_map meaning_of result ≡ range_fault blocks first count }
{
    if count > MOST_BLOCKS {
        return Some(MeaningFault::Count { count });
    }
    if count == 0 || u128::from(first) + count > u128::from(blocks) {
        let count = count as u64;
        return Some(MeaningFault::Range { first, count });
    }
    None
}
