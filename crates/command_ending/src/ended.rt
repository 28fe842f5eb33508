//! What ends a command early: its status, and the line that it prints last.
ghost use Rattle.std.specs.Prelude.{◌≡◌, ◌≤◌, OnOk, OnErr};
ghost use Rattle.std.specs.Option.{option_map};
ghost use Rattle.disk_model.specs.Causes.{HasCause};
ghost use Rattle.stream_io.specs.Stream.{with_bytes, AddsPrefix};
ghost use Rattle.run_model.specs.Ending.{ByKey, NoMemory, failed_line, refusal_line, status_of, fault_text};
ghost use Rattle.command_ending.specs.Ended.{IsPut, Puts, ending_of, refusal_of};

use crate::Refusal;
use crate::image_texts::put_image_fault;
use crate::leg_texts::put_legs;
use crate::line_texts::put_line_fault;
use crate::pieces::put_pieces;
use run_model::{KeyRefusal, Outer};
use sector_disk::Failed;
use stream_io::{Sink, put_all};

/// What ended a command early.
#[derive(Debug, Drop)]
pub enum Ended {
    /// It is refused.
    Refused(Refusal),
    /// What lies outside the program failed.
    Failed(Outer),
    /// There was no memory.
    Memory,
}

impl Ended {
    /// The status that the program ends with.
    pub fn status(&self) -> u8
        ensures { result ≡ status_of (ending_of self.now) }
    {
        match self {
            Ended::Refused(Refusal::Image(_) | Refusal::Second(_) | Refusal::Legs { .. }) => 3,
            Ended::Refused(
                Refusal::Words | Refusal::Key(_) | Refusal::Line { .. } | Refusal::Length,
            ) => 2,
            Ended::Failed(Outer::Disk) => 4,
            Ended::Failed(Outer::Key | Outer::Script) => 5,
            Ended::Failed(Outer::Sink) => 6,
            Ended::Memory => 7,
        }
    }

    /// Writes the last line of the command, and nothing where the sink has failed already. It takes no memory.
    ///
    /// # Errors
    ///
    /// - `Failed`: the sink failed. It has taken some of the line from the front, or none, and not all.
    pub fn put_last_line<O: Sink>(&self, out: &mut O) -> Result<(), Failed>
        ensures written { OnOk result (O.held out.new
            ≡ option_map (with_bytes (fault_text (ending_of self.now))) (O.held out.old)) }

        ensures cause { HasCause (O.faults out.old) (O.faults out.new) result }
        ensures err { OnErr result (AddsPrefix (fault_text (ending_of self.now))
            (O.held out.old) (O.held out.new)) }
    {
        match self {
            Ended::Refused(refusal) => put_refusal(out, refusal),
            Ended::Failed(Outer::Sink) => Ok(()),
            Ended::Failed(outer) => put_all(out, failed_line(*outer)),
            Ended::Memory => put_all(out, b"fault memory\n"),
        }
    }
}

/// Ends a command whose words found no memory: writes its last line, and answers its status, 7. Where the sink
/// fails, it has taken some of the line from the front, or none, and not all. It takes no memory.
pub fn end_without_memory<O: Sink>(out: &mut O) -> u8
    ensures status { result ≡ status_of NoMemory }
    ensures told { IsPut O.held O.faults (fault_text NoMemory) out.old out.new }
    ensures later { O.faults out.old ≤ O.faults out.new }
{
    let _ = Ended::Memory.put_last_line(out);
    Ended::Memory.status()
}

/// Writes the last line of a command that is refused.
///
/// # Errors
///
/// - `Failed`: the sink failed. It has taken some of the line from the front, or none, and not all.
fn put_refusal<O: Sink>(out: &mut O, refusal: &Refusal) -> Result<(), Failed>
    ensures line { Puts (refusal_line (refusal_of refusal.now)) (O.held out.old) (O.held out.new) result }
    ensures cause { HasCause (O.faults out.old) (O.faults out.new) result }
{
    match refusal {
        Refusal::Words => put_pieces(out, &[b"fault words\n"]),
        Refusal::Key(refusal) => put_pieces(out, &[key_line(*refusal)]),
        Refusal::Image(fault) => put_image_fault(out, b"fault image ", *fault),
        Refusal::Second(fault) => put_image_fault(out, b"fault second ", *fault),
        Refusal::Legs {
            a_blocks,
            a_size,
            b_blocks,
            b_size,
        } => put_legs(out, *a_blocks, *a_size, *b_blocks, *b_size),
        Refusal::Line { number, refusal } => put_line_fault(out, *number, refusal),
        Refusal::Length => put_pieces(out, &[b"fault script long\n"]),
    }
}

/// The last line of a command whose key file holds no key.
fn key_line(refusal: KeyRefusal) -> &'static [u8]
    ensures { result.now ≡ refusal_line (ByKey refusal) }
{
    match refusal {
        KeyRefusal::Empty => b"fault key empty\n",
        KeyRefusal::Long => b"fault key long\n",
    }
}

/// The last line of a command whose outside failed, and no bytes where it was the sink.
fn failed_line(outer: Outer) -> &'static [u8]
    ensures { result.now ≡ failed_line outer }
{
    match outer {
        Outer::Disk => b"fault disk\n",
        Outer::Key => b"fault key\n",
        Outer::Script => b"fault script\n",
        Outer::Sink => b"",
    }
}
