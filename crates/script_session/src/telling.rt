//! Tells what a line was answered.
ghost use Rattle.std.specs.Prelude.{◌≡◌, ◌≢◌, ◌≤◌, [], Err, IfOk, IfErr, MatchOption, OnOk, OnErr, Result};
ghost use Rattle.disk_model.specs.Causes.{Rose};
ghost use Rattle.stream_io.specs.Stream.{AddsPrefix, held_with};
ghost use Rattle.script_text.specs.Told.{told_text};
ghost use Rattle.script_session.specs.Told.{answer_found, answer_told, reply_found, reply_told};

use crate::line_answer::LineAnswer;
use request_slots::Reply;
use script_text::{TagsFound, Told, reply_text};
use sector_disk::Memory;
use std::alloc::Global;
use stream_io::{Sink, put_all};

/// Why a text is not told, or not all of it.
#[derive(Clone, Copy, Debug, PartialEq, Eq)]
pub(crate) enum TellFault {
    /// There is no memory for it: nothing is told.
    Memory,
    /// The sink failed: the first of it is told, not all.
    Sink,
}

/// Tells an answer as a line of text, or nothing.
///
/// # Errors
///
/// - `Memory`: there is none for the text.
/// - `Sink`: the sink failed.
pub(crate) fn tell<O: Sink>(
    alloc: Global,
    answer: &LineAnswer,
    out: &mut O,
) -> Result<(), TellFault>
    ensures told { OnOk result (O.held out.new ≡ held_with (answer_told answer.now) (O.held out.old)) }

    ensures memory { result ≡ Err TellFault.Memory → O.held out.new ≡ O.held out.old }
    ensures sink { result ≡ Err TellFault.Sink
        → AddsPrefix (answer_told answer.now) (O.held out.old) (O.held out.new) }
    ensures cause { result ≡ Err TellFault.Sink → Rose (O.faults out.old) (O.faults out.new) }

    ensures later { O.faults out.old ≤ O.faults out.new }
    ensures passed { result ≢ Err TellFault.Sink → O.faults out.new ≡ O.faults out.old }
{
    let Ok(text) = text_of(alloc, answer) else {
        return Err(TellFault::Memory);
    };
    match put_all(out, text.as_slice()) {
        Ok(()) => Ok(()),
        Err(_) => Err(TellFault::Sink),
    }
}

/// Whether an answer tells a block whose stored tag is not the tag of its bytes.
pub(crate) fn tags_found(answer: &LineAnswer) -> TagsFound
    ensures { result ≡ answer_found answer.now }
{
    match answer {
        LineAnswer::Replied {
            reply: Reply::TagFault { .. },
            ..
        } => TagsFound::Differing,
        _ => TagsFound::Matching,
    }
}

/// The text of an answer.
fn text_of(alloc: Global, answer: &LineAnswer) -> Result<Vec<u8>, Memory>
    ensures { IfOk result (λ text. text.items ≡ answer_told answer.now) }
{
    match told_of(answer) {
        None => Ok(Vec::new(alloc)),
        Some(told) => reply_text(alloc, &told),
    }
}

/// What is told of an answer, if anything is.
fn told_of(answer: &LineAnswer) -> Option<Told<'_>>
    ensures { MatchOption result (answer_told answer.now ≡ [])
        (λ told. told_text told ≡ answer_told answer.now) }
{
    Some(match answer {
        LineAnswer::Nothing => return None,
        LineAnswer::Ticket { ticket } => Told::Ticket { ticket: *ticket },
        LineAnswer::SlotsFull => Told::SlotsFull,
        LineAnswer::ReadOnly => Told::ReadOnly,
        LineAnswer::HeldBy { by } => Told::HeldBy { by: *by },
        LineAnswer::NoRoom => Told::NoRoom,
        LineAnswer::Did => Told::Did,
        LineAnswer::Done => Told::Done,
        LineAnswer::Idle => Told::Idle,
        LineAnswer::NotDone => Told::NotDone,
        LineAnswer::Replied {
            first,
            count,
            reply,
        } => told_of_reply(*first, *count, reply),
    })
}

/// What is told of a reply to a request for `count` blocks from block `first` on.
fn told_of_reply(first: u64, count: u64, reply: &Reply) -> Told<'_>
    ensures { told_text result ≡ reply_told first count reply.now }
{
    match reply {
        Reply::Read { buffer } => Told::Read {
            first,
            count,
            bytes: buffer.as_slice(),
        },
        Reply::TagFault {
            block,
            stored,
            computed,
            ..
        } => Told::Fault {
            block: *block,
            stored: stored.bytes(),
            computed: computed.bytes(),
        },
        Reply::Written { .. } => Told::Write { first, count },
        Reply::Flushed => Told::Flush,
    }
}
