//! Takes requests out of the pieces of a stream.
ghost use Rattle.std.specs.Prelude.{◌≡◌, ◌<◌, ◌≤◌, [], IfOk, None, Option, length};
ghost use Rattle.nbd_model.specs.Message.{bytes_behind};
ghost use Rattle.nbd_model.specs.Stream.{Message};
ghost use Rattle.nbd_wire.specs.Splitting.{InHead};
ghost use Rattle.nbd_incoming.specs.Incoming.{BeginsSo, GoesOnSo, HasTaken, Keeps, WaitsSo};

use crate::Taken;
use nbd_flight::{Asked, Buffers, Whole, judge};
use nbd_wire::{Event, NbdRequest, Splitter, WRITE};
use sector_disk::Memory;

/// A write, `left` of whose bytes are to come.
#[derive(Drop)]
struct Coming {
    write: Whole,
    left: usize,
}

/// Takes requests out of the pieces of a stream, for a device of so many blocks of so many bytes. Of the bytes of a
/// write that is refused it keeps none.
#[derive(Drop)]
pub struct Incoming {
    splitter: Splitter,
    coming: Option<Coming>,
    blocks: u64,
    block_size: u64,
}

impl Incoming {
    /// Stands at the beginning of a stream.
    pub fn new(blocks: u64, block_size: u64) -> Incoming
        ensures keeps { Keeps result None }
        ensures place { result.splitter ≡ InHead [] }
        ensures blocks { result.blocks ≡ blocks }
        ensures block_size { result.block_size ≡ block_size }
    {
        Incoming {
            splitter: Splitter::new(),
            coming: None,
            blocks,
            block_size,
        }
    }

    /// Takes bytes from the front of a piece, up to the end of a request or of the piece, or a wrong magic: one at least,
    /// where there is one. It tells how many, and what came of them.
    ///
    /// # Errors
    ///
    /// - `Memory`: there is none for the bytes of a write. The stream can't be taken on then.
    pub fn take(&mut self, buffers: &mut Buffers, piece: &[u8]) -> Result<(usize, Taken), Memory>
        requires { 0 < self.old.block_size }

        ensures taken { IfOk result (λ told. HasTaken self.old self.new piece.now told.0 told.1) }
        ensures within { IfOk result (λ told. told.0 ≤ length piece.now) }
        ensures some { IfOk result (λ told. (coming : Option Message) → Keeps self.old coming
            → 0 < length piece.now → 0 < told.0) }

        ensures blocks { self.new.blocks ≡ self.old.blocks }
        ensures block_size { self.new.block_size ≡ self.old.block_size }
    {
        let (count, event) = self.splitter.take(piece);
        let taken = match event {
            Event::More => Taken::Part,
            Event::Ask(request) => {
                begin(
                    buffers,
                    &mut self.coming,
                    request,
                    self.blocks,
                    self.block_size,
                )?
            }
            Event::Bytes { .. } => go_on(&mut self.coming, &piece[..count])?,
            Event::Wrong { magic } => Taken::Wrong { magic },
        };
        Ok((count, taken))
    }
}

/// Takes the head of a request.
///
/// # Errors
///
/// - `Memory`: there is none for the bytes of a write.
fn begin(
    buffers: &mut Buffers,
    coming: &mut Option<Coming>,
    request: NbdRequest,
    blocks: u64,
    block_size: u64,
) -> Result<Taken, Memory>
    requires { 0 < block_size }

    ensures { IfOk result (λ taken. BeginsSo blocks block_size coming.old coming.new request taken) }
{
    let asked = judge(&request, blocks, block_size);
    if let Asked::Disconnect = asked {
        return Ok(Taken::Disconnected);
    }
    let bytes = room_for(buffers, asked, request.length)?;
    let whole = Whole {
        request,
        asked,
        bytes,
    };
    Ok(wait_for(coming, whole, behind(&request)))
}

/// Takes bytes of the write that is coming. A splitter gives no more of them than are left.
///
/// # Errors
///
/// - `Memory`: there is none for them.
fn go_on(coming: &mut Option<Coming>, piece: &[u8]) -> Result<Taken, Memory>
    ensures { IfOk result (λ taken. GoesOnSo coming.old coming.new piece.now taken) }
{
    let Some(Coming { mut write, left }) = coming.take() else {
        return Ok(Taken::Part);
    };
    if let Asked::Write { .. } = write.asked {
        if write.bytes.extend_from_slice(piece).is_err() {
            return Err(Memory);
        }
    }
    Ok(wait_for(coming, write, left.saturating_sub(piece.len())))
}

/// The request is whole where no byte of it is to come.
fn wait_for(coming: &mut Option<Coming>, whole: Whole, left: usize) -> Taken
    ensures { WaitsSo coming.old coming.new whole left result }
{
    if left == 0 {
        return Taken::Whole(whole);
    }
    *coming = Some(Coming { write: whole, left });
    Taken::Part
}

/// No bytes yet: with room for so many, where they are to be kept.
///
/// # Errors
///
/// - `Memory`: there is none for them.
fn room_for(buffers: &mut Buffers, asked: Asked, length: u32) -> Result<Vec<u8>, Memory>
    ensures { IfOk result (λ bytes. bytes.items ≡ []) }
{
    match asked {
        Asked::Write { .. } => buffers.next(length as usize),
        _ => Ok(buffers.none()),
    }
}

/// How many bytes stand behind the head of a request.
fn behind(request: &NbdRequest) -> usize
    ensures { result ≡ bytes_behind request.now }
{
    if request.kind == WRITE {
        request.length as usize
    } else {
        0
    }
}
