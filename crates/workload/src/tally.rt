//! What an exercise counts.
ghost use Rattle.std.specs.Prelude.{◌≡◌, ◌+◌, ◌%◌, ◌<◌, ◌≤◌, ◌^◌, ◌++◌, IfOk, IsTrue, OnOk, sum, true};
ghost use Rattle.std.specs.Fmt.{decimal};
ghost use Rattle.workload_model.specs.Exercise.{exercise_text, finds_faults};
ghost use Rattle.request_slots.specs.InFlight.{as_reply};
ghost use Rattle.script_text.specs.Line.{ask_of};
ghost use Rattle.workload.specs.Tally.{lines_in, no_tally, with_ask, with_reply};

use itoa::Buffer;
use request_slots::Reply;
use script_text::Ask;
use sector_disk::Memory;
use std::alloc::Global;
use std::marker::Model;

/// How many requests of a workload fill, read and flush, how many replies tell a block whose stored tag differs, and
/// the sum of all bytes that the other replies read, modulo 2^64.
#[derive(Drop)]
pub struct Tally {
    fills: u64,
    reads: u64,
    flushes: u64,
    faults: u64,
    sum_read: u64,
}

impl Model for Tally {
    ghost use Rattle.workload_model.specs.Exercise as exercise;

    ghost Value = { exercise.Tally };

    ghost view = { λ t. record {
      fills = t.fills;
      reads = t.reads;
      flushes = t.flushes;
      faults = t.faults;
      sum_read = t.sum_read;
    } };
}

impl Tally {
    /// Nothing is counted yet.
    pub fn new() -> Tally
        ensures { result ≡ no_tally }
    {
        Tally {
            fills: 0,
            reads: 0,
            flushes: 0,
            faults: 0,
            sum_read: 0,
        }
    }

    /// Counts a request of the workload. A write of other bytes than those of a fill is none of them, and not counted.
    pub fn add_ask(&mut self, ask: &Ask<'_>)
        requires { lines_in self.old + 1 < 2 ^ 64 }

        ensures counted { self.new ≡ with_ask (ask_of ask.now) self.old }

        ensures lines { lines_in self.new ≤ lines_in self.old + 1 }
        ensures faults { self.new.faults ≡ self.old.faults }
    {
        match *ask {
            Ask::Fill { .. } => self.fills += 1,
            Ask::Read { .. } => self.reads += 1,
            Ask::Flush => self.flushes += 1,
            Ask::Write { .. } => {}
        }
    }

    /// Adds what a reply has read: the sum of its bytes, or a block whose stored tag differs. Of a reply with such a
    /// block no byte is added.
    pub fn add_reply(&mut self, reply: &Reply)
        requires { self.old.faults + 1 < 2 ^ 64 }

        ensures added { self.new ≡ with_reply (as_reply reply.now) self.old }

        ensures lines { lines_in self.new ≡ lines_in self.old }
        ensures faults { self.new.faults ≤ self.old.faults + 1 }
    {
        match reply {
            Reply::Read { buffer } => self.sum_read = sum_with(self.sum_read, buffer.as_slice()),
            Reply::TagFault { .. } => self.faults += 1,
            Reply::Written { .. } | Reply::Flushed => {}
        }
    }

    /// Whether a reply told a block whose stored tag differs.
    pub fn finds_fault(&self) -> bool
        ensures { result ≡ finds_faults self.now }
    {
        self.faults > 0
    }

    /// The line that is printed of it, with its newline.
    ///
    /// # Errors
    ///
    /// - `Memory`: there is none for the text.
    ///
    /// Own: the text, `docs/COMMANDS.md`.
    pub fn text(&self, alloc: Global) -> Result<Vec<u8>, Memory>
        ensures { IfOk result (λ text. text.items ≡ exercise_text self.now) }
    {
        let mut text = Vec::new(alloc);
        put_counted(&mut text, b"fills ", self.fills)?;
        put_counted(&mut text, b" reads ", self.reads)?;
        put_counted(&mut text, b" flushes ", self.flushes)?;
        put_counted(&mut text, b" faults ", self.faults)?;
        put_counted(&mut text, b" sum ", self.sum_read)?;
        put(&mut text, b"\n")?;
        Ok(text)
    }
}

/// The sum of a number and of bytes, modulo 2^64.
fn sum_with(number: u64, bytes: &[u8]) -> u64
    ensures { result ≡ (number + sum bytes.now) % 2 ^ 64 }
{
    let mut total = number;
    for byte in bytes {
        total = total.wrapping_add(u64::from(*byte));
    }
    total
}

/// Appends what is counted, and the number of it in decimal digits.
///
/// # Errors
///
/// - `Memory`: there is none for them.
fn put_counted(text: &mut Vec<u8>, words: &[u8], number: u64) -> Result<(), Memory>
    ensures { OnOk result (text.new.items ≡ text.old.items ++ (words.now ++ decimal number)) }
{
    let mut digits = Buffer::new();
    put(text, words)?;
    put(text, digits.format(number).as_bytes())
}

/// Appends bytes.
///
/// # Errors
///
/// - `Memory`: there is none for them.
fn put(text: &mut Vec<u8>, bytes: &[u8]) -> Result<(), Memory>
    ensures { OnOk result (text.new.items ≡ text.old.items ++ bytes.now) }
{
    match text.extend_from_slice(bytes) {
        Ok(()) => Ok(()),
        Err(_) => Err(Memory),
    }
}
