//! Takes the lines of a script out of a source.
//!
//! The source is read a piece at a time, and a run of its bytes up to a newline goes into the line at once. One
//! byte beyond the bound of a script is read, and no more: it tells a longer script from one that ends there.
ghost use Rattle.std.specs.Prelude.{◌≡◌, ◌≢◌, ◌+◌, ◌<◌, ◌≤◌, ℕ, List, [], ◌∷◌, ◌++◌, length, take, drop, slice_index, IsTrue, ◌↔◌, IfOk, OnOk, OnErr, IfSome, IfNone};
ghost use Rattle.std.specs.Option.{ForSome, IsSomeAnd};
ghost use Rattle.disk_model.specs.Causes.{HasCause};
ghost use Rattle.device_model.specs.ScriptBytes.{HasNoNewline};

use crate::NextLine;
use crate::piece::{PIECE, Piece};
use memchr::memchr;
use script_text::MOST_LINE;
use sector_disk::{Failed, Memory};
use std::alloc::Global;
use std::marker::Model;
use stream_io::Source;

/// The most bytes of a script that are run: `most_script` of `device_model`, `specs/ScriptBytes.antt`.
pub const MOST_SCRIPT: u64 = 16_777_216;

/// Takes lines out of a script. All its memory is taken when it is made.
#[derive(Drop)]
pub struct LineReader {
    piece: Piece,
    line: Vec<u8>,
    taken: u64,
}

impl Model for LineReader {
    ghost use Rattle.std.specs.Prelude.{◌+◌, ◌≤◌, vec_capacity};
    ghost use Rattle.script_reader.specs.Reading.{Reading, IsWithin};
    ghost use Rattle.device_model.specs.Grammar.{most_line};

    ghost Value = { Reading };

    ghost view = { λ reader. record { unread = reader.piece; line = reader.line.items; taken = reader.taken } };

    ghost invariant = { λ reader. (most_line + 1 ≤ vec_capacity reader.line)
        × IsWithin (record { unread = reader.piece; line = reader.line.items; taken = reader.taken }) };
}

impl LineReader {
    ghost use Rattle.device_model.specs.Grammar.{most_line};
    ghost use Rattle.device_model.specs.ScriptBytes.{most_script};
    ghost use Rattle.script_reader.specs.Reading.{IsWithin, IsSettled, TakesLine, BeginsLine};
    ghost use Rattle.script_reader.specs.Lines.{FindsLine};
    ghost use Rattle.script_reader.specs.Run.{EndsRun};

    /// Nothing is read yet.
    ///
    /// # Errors
    ///
    /// - `Memory`: there is none for a piece and a line.
    pub fn new(alloc: Global) -> Result<LineReader, Memory>
        ensures { IfOk result (λ reader. reader ≡ record { unread = []; line = []; taken = 0 }) }
    {
        let piece = Piece::new(alloc)?;
        let line = Vec::with_capacity(alloc, MOST_LINE + 1)?;
        Ok(LineReader {
            piece,
            line,
            taken: 0,
        })
    }

    /// The bytes of the line that `next_line` took last, without its newline.
    pub fn line(&self) -> &[u8]
        ensures { result.now ≡ self.now.line }
    {
        &self.line
    }

    /// Takes the next line, and its newline. Over all calls it takes `MOST_SCRIPT` bytes at most, newlines
    /// included, and reads one byte more at most. Of a line it takes one byte more than `MOST_LINE` at most. It
    /// reads on only where all bytes that it has read are taken. Once it told something else than a line, it is
    /// not to be asked again: what it tells then is of the bytes that are left.
    ///
    /// # Errors
    ///
    /// - `Failed`: the source failed. What was taken stands in the line, and all that was read is taken.
    pub fn next_line<S: Source>(&mut self, script: &mut S) -> Result<NextLine, Failed>
        ensures found { IfOk result (λ next. ForSome (S.left script.old) (λ left. IsSomeAnd (S.left script.new)
            (λ later. FindsLine next self.old self.new (self.old.unread ++ left) (self.new.unread ++ later)))) }
        ensures taken { IfOk result (λ next. next ≡ NextLine.Line → self.old.taken < self.new.taken) }
        ensures short { IfOk result (λ next. next ≡ NextLine.Line → length self.new.line ≤ most_line) }

        ensures cause { HasCause (S.faults script.old) (S.faults script.new) result }
        ensures err { OnErr result (ForSome (S.left script.old) (λ left. IsSomeAnd (S.left script.new)
            (λ later. BeginsLine self.old self.new (self.old.unread ++ left) (self.new.unread ++ later)))) }
        // Any call of the source may fail. So it is called only where all that was read is taken, and no newline is in
        // that: no line that has come whole waits for what comes behind it.
        ensures asked { OnErr result (self.new.unread ≡ []) }

        ensures bytes { ForSome (S.left script.old) (λ left. IsSomeAnd (S.left script.new)
            (λ later. TakesLine self.old self.new (self.old.unread ++ left) (self.new.unread ++ later))) }
        ensures within { IsWithin self.new }
        ensures one { self.new.taken ≤ self.old.taken + (most_line + 1) }
        // The source is not called where what was read tells what is next.
        ensures script { IsSettled self.old → script.new ≡ script.old }
    {
        self.line.clear();
        while self.has_more(script)? {
            if let Some(next) = self.take_run() {
                return Ok(next);
            }
        }
        Ok(self.at_end())
    }

    /// Whether more bytes are to come. It reads on where all bytes that were read are taken.
    ///
    /// # Errors
    ///
    /// - `Failed`: the source failed. Nothing has changed.
    fn has_more<S: Source>(&mut self, script: &mut S) -> Result<bool, Failed>
        ensures more { IfOk result (λ more. IsTrue more ↔ (0 < length self.new.unread)) }
        ensures read { OnOk result (ForSome (S.left script.old) (λ left. IsSomeAnd (S.left script.new)
            (λ later. (self.old.unread ++ left ≡ self.new.unread ++ later)
            × (self.new.unread ≡ [] → later ≡ [])))) }

        ensures cause { HasCause (S.faults script.old) (S.faults script.new) result }
        ensures err { OnErr result ((self.new ≡ self.old) × (S.left script.new ≡ S.left script.old)) }
        ensures asked { OnErr result (self.new.unread ≡ []) }

        ensures same { self.new ≡ record self.old { unread = self.new.unread } }
        ensures within { IsWithin self.new }
        ensures unasked { 0 < length self.old.unread → (self.new ≡ self.old) × (script.new ≡ script.old) }
    {
        if self.piece.unread().is_empty() {
            let most = (MOST_SCRIPT + 1 - self.taken).min(PIECE as u64) as usize;
            self.piece.fill(script, most)?;
        }
        Ok(!self.piece.unread().is_empty())
    }

    /// What the script's end ends.
    fn at_end(&self) -> NextLine
        ensures line { self.now.line ≢ [] → result ≡ NextLine.Line }
        ensures end { self.now.line ≡ [] → result ≡ NextLine.End }
    {
        if self.line.is_empty() {
            NextLine::End
        } else {
            NextLine::Line
        }
    }

    /// Takes the unread bytes of the line, and its newline where it stands among them.
    fn take_run(&mut self) -> Option<NextLine>
        requires unread { 0 < length self.old.unread }
        requires line { length self.old.line ≤ most_line }

        ensures run { EndsRun result self.old self.new }
        ensures within { IsWithin self.new }
    {
        if self.taken == MOST_SCRIPT {
            return Some(NextLine::LongScript);
        }
        let unread = self.piece.unread();
        let most = unread
            .len()
            .min(MOST_LINE + 1 - self.line.len())
            .min((MOST_SCRIPT - self.taken) as usize);
        if let Some(count) = newline_at(&unread[..most]) {
            self.take(count);
            self.piece.skip(1);
            self.taken += 1;
            return Some(NextLine::Line);
        }
        self.take(most);
        if self.line.len() > MOST_LINE {
            return Some(NextLine::LongLine);
        }
        None
    }

    /// Takes the next bytes into the line.
    fn take(&mut self, count: usize)
        requires unread { count ≤ length self.old.unread }
        requires line { length self.old.line + count ≤ most_line + 1 }
        requires taken { self.old.taken + count ≤ most_script }

        ensures { self.new ≡ record {
          unread = drop count self.old.unread;
          line = self.old.line ++ take count self.old.unread;
          taken = self.old.taken + count;
        } }
    {
        self.line
            .extend_from_slice(&self.piece.unread()[..count])
            .unwrap();
        self.piece.skip(count);
        self.taken += count as u64;
    }
}

/// Where the first newline stands.
fn newline_at(bytes: &[u8]) -> Option<usize>
    ensures found { IfSome result (λ at. (at < length bytes.now) × (slice_index bytes.now at ≡ 10)
        × HasNoNewline (take at bytes.now)) }

    ensures none { IfNone result (HasNoNewline bytes.now) }
{
    memchr(b'\n', bytes)
}
