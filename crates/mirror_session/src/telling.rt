//! Tells what a mirror has answered.
ghost use Rattle.std.specs.Prelude.{◌≡◌, ◌≢◌, ◌≤◌, Err, OnOk};
ghost use Rattle.disk_model.specs.Causes.{Rose};
ghost use Rattle.stream_io.specs.Stream.{AddsPrefix};
ghost use Rattle.mirror_model.specs.Script.{mirror_read_text};
ghost use Rattle.mirror_calls.specs.Given.{reply_as};
ghost use Rattle.script_text.specs.Told.{told_text};
ghost use Rattle.mirror_session.specs.AskRun.{held_with};
ghost use Rattle.mirror_session.specs.Told.{answer_found, answer_text};

use crate::answer::MirrorAnswer;
use mirror_calls::MirrorReply;
use script_text::{TagsFound, Told, reply_text};
use std::alloc::Global;
use stream_io::{Sink, put_all};

/// Why a text is not told, or not all of it.
#[derive(Clone, Copy, Debug, PartialEq, Eq)]
pub(crate) enum TellFault {
    /// There is no memory for it: nothing is told.
    Memory,
    /// The sink failed: the first of it is told, not all.
    Sink,
}

/// Tells this as a line of text.
///
/// # Errors
///
/// - `Memory`: there is none for the text.
/// - `Sink`: the sink failed.
pub(crate) fn tell<O: Sink>(alloc: Global, told: &Told<'_>, out: &mut O) -> Result<(), TellFault>
    ensures told { OnOk result (O.held out.new ≡ held_with (told_text told.now) (O.held out.old)) }

    ensures memory { result ≡ Err TellFault.Memory → out.new ≡ out.old }
    ensures sink { result ≡ Err TellFault.Sink
        → AddsPrefix (told_text told.now) (O.held out.old) (O.held out.new) }
    ensures cause { result ≡ Err TellFault.Sink → Rose (O.faults out.old) (O.faults out.new) }

    ensures later { O.faults out.old ≤ O.faults out.new }
    ensures passed { result ≢ Err TellFault.Sink → O.faults out.new ≡ O.faults out.old }
{
    let Ok(text) = reply_text(alloc, told) else {
        return Err(TellFault::Memory);
    };
    match put_all(out, text.as_slice()) {
        Ok(()) => Ok(()),
        Err(_) => Err(TellFault::Sink),
    }
}

/// What is told of an answer.
pub(crate) fn told_of(answer: &MirrorAnswer) -> Told<'_>
    ensures { told_text result ≡ answer_text answer.now }
{
    match answer {
        MirrorAnswer::Read {
            first,
            count,
            reply,
        } => told_of_reply(*first, *count, reply),
        MirrorAnswer::Written { first, count } => Told::Write {
            first: *first,
            count: *count,
        },
        MirrorAnswer::Flushed => Told::Flush,
    }
}

/// What is told of a read of `count` blocks from block `first` on.
fn told_of_reply(first: u64, count: u64, reply: &MirrorReply) -> Told<'_>
    ensures { told_text result ≡ mirror_read_text first count (reply_as reply.now) }
{
    match reply {
        MirrorReply::Read { buffer } => Told::Read {
            first,
            count,
            bytes: buffer.as_slice(),
        },
        MirrorReply::TagFault { block, a, b } => Told::MirrorFault {
            block: *block,
            stored: a.stored.bytes(),
            computed: a.computed.bytes(),
            second_stored: b.stored.bytes(),
            second_computed: b.computed.bytes(),
        },
    }
}

/// Whether an answer tells a block that matches on neither leg.
pub(crate) fn tags_found(answer: &MirrorAnswer) -> TagsFound
    ensures { result ≡ answer_found answer.now }
{
    match answer {
        MirrorAnswer::Read {
            reply: MirrorReply::TagFault { .. },
            ..
        } => TagsFound::Differing,
        _ => TagsFound::Matching,
    }
}
