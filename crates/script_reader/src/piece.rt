//! The bytes that were read from a source and are not taken yet.
ghost use Rattle.std.specs.Prelude.{◌≡◌, ◌<◌, ◌≤◌, ℕ, List, [], ◌++◌, length, take, drop, IfOk, OnOk, OnErr};
ghost use Rattle.std.specs.Option.{ForSome, IsSomeAnd};
ghost use Rattle.disk_model.specs.Causes.{HasCause};

use sector_disk::{Failed, Memory};
use std::alloc::Global;
use std::marker::Model;
use stream_io::Source;

/// How many bytes of a source are read at a time, at most: `most_piece` of `device_model`, `specs/ScriptBytes.antt`.
pub const PIECE: usize = 65_536;

/// The bytes of one read that are not taken yet. All its memory is taken when it is made.
#[derive(Drop)]
pub struct Piece {
    bytes: Vec<u8>,
    begin: usize,
    end: usize,
}

impl Model for Piece {
    ghost use Rattle.std.specs.Prelude.{◌≡◌, ◌≤◌, ℕ, List, length, take, drop};
    ghost use Rattle.device_model.specs.ScriptBytes.{most_piece};

    ghost Value = { List ℕ };

    ghost view = { λ piece. drop piece.begin (take piece.end piece.bytes.items) };

    ghost invariant = { λ piece. (piece.begin ≤ piece.end) × (piece.end ≤ length piece.bytes.items)
        × (length piece.bytes.items ≡ most_piece) };
}

impl Piece {
    ghost use Rattle.device_model.specs.ScriptBytes.{most_piece};

    /// No byte is read yet.
    ///
    /// # Errors
    ///
    /// - `Memory`: there is none for a piece.
    pub fn new(alloc: Global) -> Result<Piece, Memory>
        ensures { IfOk result (λ piece. piece ≡ []) }
    {
        let bytes = vec![in alloc; 0; PIECE]?;
        Ok(Piece {
            bytes,
            begin: 0,
            end: 0,
        })
    }

    /// The bytes that are not taken yet.
    pub fn unread(&self) -> &[u8]
        ensures { result.now ≡ self.now }
    {
        &self.bytes[self.begin..self.end]
    }

    /// Takes the first bytes.
    pub fn skip(&mut self, count: usize)
        requires { count ≤ length self.old }

        ensures { self.new ≡ drop count self.old }
    {
        self.begin += count;
    }

    /// Reads the next bytes of the source, `most` of them at most: none only at its end.
    ///
    /// # Errors
    ///
    /// - `Failed`: the source failed. Nothing is read.
    pub fn fill<S: Source>(&mut self, source: &mut S, most: usize) -> Result<(), Failed>
        requires all { self.old ≡ [] }
        requires some { 0 < most }
        requires fits { most ≤ most_piece }

        ensures read { OnOk result (ForSome (S.left source.old) (λ left. IsSomeAnd (S.left source.new)
            (λ later. (left ≡ self.new ++ later) × (self.new ≡ [] → later ≡ [])))) }

        ensures cause { HasCause (S.faults source.old) (S.faults source.new) result }
        ensures err { OnErr result ((self.new ≡ []) × (S.left source.new ≡ S.left source.old)) }

        ensures within { length self.new ≤ most }
    {
        self.begin = 0;
        self.end = 0;
        self.end = read_front(source, &mut self.bytes, most)?;
        Ok(())
    }
}

/// Reads the next bytes of the source, `most` of them at most, into the front of the buffer. It tells how many:
/// none only at its end.
///
/// # Errors
///
/// - `Failed`: the source failed. It has the same bytes left.
fn read_front<S: Source>(source: &mut S, buffer: &mut [u8], most: usize) -> Result<usize, Failed>
    requires some { 0 < most }
    requires fits { most ≤ length buffer.old }

    ensures count { IfOk result (λ n. n ≤ most) }
    ensures read { IfOk result (λ n. ForSome (S.left source.old) (λ left. IsSomeAnd (S.left source.new)
        (λ later. (left ≡ take n buffer.new ++ later) × (n ≡ 0 → later ≡ [])))) }

    ensures cause { HasCause (S.faults source.old) (S.faults source.new) result }
    ensures err { OnErr result (S.left source.new ≡ S.left source.old) }
{
    source.read(&mut buffer[..most])
}
