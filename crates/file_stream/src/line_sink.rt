//! A sink that writes whole lines to a file.
ghost use Rattle.std.specs.Prelude.{◌≡◌, ◌↔◌, ◌⊎◌, ◌+◌, ◌-◌, ◌<◌, ◌≤◌, ◌++◌, [], length, min, take, IfOk, IsErr, IsNone, IsOk, IsSome, IsTrue, None, OnErr};
ghost use Rattle.std.specs.List.{Contains};
ghost use Rattle.std.specs.Option.{option_map};
ghost use Rattle.arrayvec.specs.ArrayVec.{array_vec_len};
ghost use Rattle.disk_model.specs.Causes.{HasCause, Rose};
ghost use Rattle.file_stream.specs.Streams.{most_held, IsRestOf};
ghost use Rattle.stream_io.specs.Stream.{with_bytes};

use crate::OutputFile;
use crate::transfer::write_most;
use arrayvec::ArrayVec;
use sector_disk::{Counted, Failed};
use stream_io::Sink;

/// The most bytes of a line that are held back: the text of a block of 4096 bytes, of which none is like the next, has
/// 20,660.
const ROOM: usize = 32768;

/// Writes to a file what it takes, and holds back a line until it is whole, or its room is full. So a line goes out by
/// one call, where the file takes it so.
///
/// Where the file fails after it took some of the new bytes, these are told, and the next call fails. What is held back
/// when the sink is dropped is never written.
#[derive(Drop)]
pub struct LineSink<F: OutputFile + Drop> {
    file: F,
    held_back: ArrayVec<u8, ROOM>,
    /// A failure of the file that is to be told by the next call.
    untold: Option<Failed>,
    /// How many failures were told. It stays at 2^64 - 1.
    faults: u64,
    ghost has_room: { array_vec_len held_back < most_held },
    ghost unended: { ¬ Contains held_back.items 10 },
}

impl<F: OutputFile + Drop> LineSink<F> {
    /// Makes a sink of a file. It writes nothing.
    pub fn new(file: F) -> LineSink<F>
        ensures file { result.file ≡ file }
        ensures held { result.held_back.items ≡ [] }
        ensures untold { result.untold ≡ None }
        ensures faults { result.faults ≡ 0 }
    {
        LineSink {
            file,
            held_back: ArrayVec::new(),
            untold: None,
            faults: 0,
        }
    }

    /// The file, as it is after what was written to it so far.
    pub fn file(&self) -> &F
        ensures { result.now ≡ self.now.file }
    {
        &self.file
    }

    /// Counts a fault that is told.
    fn tell(&mut self) -> Failed
        ensures faults { Rose self.old.faults self.new.faults }
        ensures later { self.old.faults ≤ self.new.faults }
        ensures file { self.new.file ≡ self.old.file }
        ensures held { self.new.held_back ≡ self.old.held_back }
        ensures untold { self.new.untold ≡ None }
    {
        self.untold = None;
        self.faults = self.faults.saturating_add(1);
        Failed
    }
}

impl<F: OutputFile + Drop> Counted for LineSink<F> {
    ghost faults = { λ sink. sink.faults };
}

impl<F: OutputFile + Drop> Sink for LineSink<F> {
    ghost held = { λ sink. option_map (with_bytes sink.held_back.items) (F.held sink.file) };

    fn write(&mut self, bytes: &[u8]) -> Result<usize, Failed>
        ensures count { IfOk result (λ n. n ≤ length bytes.now) }
        ensures some { IfOk result (λ n. 0 < length bytes.now → 0 < n) }
        ensures written { IfOk result (λ n.
            option_map (with_bytes self.new.held_back.items) (F.held self.new.file)
            ≡ option_map (with_bytes (take n bytes.now))
            (option_map (with_bytes self.old.held_back.items) (F.held self.old.file))) }
        ensures whole { IfOk result (λ n. IsNone self.new.untold
            → n ≡ min (length bytes.now) (most_held - array_vec_len self.old.held_back)) }

        ensures waits { ¬ Contains bytes.now 10
            → length bytes.now < most_held - array_vec_len self.old.held_back
            → self.new.file ≡ self.old.file }

        ensures told { IsSome self.old.untold → IsErr result }
        ensures fails { OnErr result (IsSome self.old.untold
            ⊎ Rose (F.faults self.old.file) (F.faults self.new.file)) }
        ensures cause { HasCause self.old.faults self.new.faults result }
        ensures err { OnErr result (option_map (with_bytes self.new.held_back.items) (F.held self.new.file)
            ≡ option_map (with_bytes self.old.held_back.items) (F.held self.old.file)) }

        ensures untold { IsSome self.new.untold
            → IsOk result × Rose (F.faults self.old.file) (F.faults self.new.file) }
    {
        if self.untold.is_some() {
            return Err(self.tell());
        }
        let room = self.held_back.remaining_capacity();
        if is_part_of_line(bytes, room) {
            hold_back(&mut self.held_back, bytes);
            return Ok(bytes.len());
        }
        let piece = &bytes[..bytes.len().min(room)];
        let count = write_out(&mut self.file, &mut self.held_back, piece);
        if count == 0 {
            return Err(self.tell());
        }
        if count < piece.len() {
            self.untold = Some(Failed);
        }
        Ok(count)
    }
}

/// Whether these bytes end no line, and leave some of this room.
fn is_part_of_line(bytes: &[u8], room: usize) -> bool
    ensures { IsTrue result ↔ ((length bytes.now < room) × ¬ Contains bytes.now 10) }
{
    bytes.len() < room && !bytes.contains(&b'\n')
}

/// Holds back a piece of a line too.
fn hold_back(held_back: &mut ArrayVec<u8, ROOM>, piece: &[u8])
    requires room { array_vec_len held_back.old + length piece.now < most_held }

    ensures held { held_back.new.items ≡ held_back.old.items ++ piece.now }
{
    let _ = held_back.try_extend_from_slice(piece);
}

/// Writes what is held back, and then a piece, and tells how many bytes of the piece were written. Where the file
/// fails, what it did not take of the bytes that were held back stays held back, and no byte of the piece.
fn write_out<F: OutputFile>(file: &mut F, held_back: &mut ArrayVec<u8, ROOM>, piece: &[u8]) -> usize
    requires room { array_vec_len held_back.old + length piece.now ≤ most_held }

    ensures within { result ≤ length piece.now }
    ensures written { option_map (with_bytes held_back.new.items) (F.held file.new)
        ≡ option_map (with_bytes (take result piece.now))
        (option_map (with_bytes held_back.old.items) (F.held file.old)) }
    ensures held { IsRestOf held_back.old.items held_back.new.items }

    ensures short { result < length piece.now → Rose (F.faults file.old) (F.faults file.new) }
    ensures later { F.faults file.old ≤ F.faults file.new }
{
    let before = held_back.len();
    let _ = held_back.try_extend_from_slice(piece);
    let done = write_most(file, held_back.as_slice());
    if done < before {
        held_back.as_mut_slice().rotate_left(done);
        held_back.truncate(before - done);
        return 0;
    }
    held_back.clear();
    done - before
}
