//! The last line of a command whose legs are no mirror.
ghost use Rattle.disk_model.specs.Causes.{HasCause};
ghost use Rattle.run_model.specs.Ending.{ByLegs, refusal_line};
ghost use Rattle.command_ending.specs.Ended.{Puts};

use crate::pieces::put_pieces;
use itoa::Buffer;
use sector_disk::Failed;
use stream_io::Sink;

/// Writes the line of two legs that differ in their blocks, or in the bytes of a block. It tells both of each.
///
/// # Errors
///
/// - `Failed`: the sink failed. It has taken some of the line from the front, or none, and not all.
pub(crate) fn put_legs<O: Sink>(
    out: &mut O,
    a_blocks: u64,
    a_size: usize,
    b_blocks: u64,
    b_size: usize,
) -> Result<(), Failed>
    ensures line { Puts (refusal_line (ByLegs a_blocks a_size b_blocks b_size))
        (O.held out.old) (O.held out.new) result }
    ensures cause { HasCause (O.faults out.old) (O.faults out.new) result }
{
    let mut blocks = Buffer::new();
    let mut sizes = Buffer::new();
    let mut other_blocks = Buffer::new();
    let mut other_sizes = Buffer::new();
    let a_blocks = blocks.format(a_blocks).as_bytes();
    let a_size = sizes.format(a_size).as_bytes();
    let b_blocks = other_blocks.format(b_blocks).as_bytes();
    let b_size = other_sizes.format(b_size).as_bytes();
    put_pieces(
        out,
        &[
            b"fault legs ",
            a_blocks,
            b" ",
            a_size,
            b" ",
            b_blocks,
            b" ",
            b_size,
            b"\n",
        ],
    )
}
