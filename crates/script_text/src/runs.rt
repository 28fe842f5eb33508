//! Runs of bytes, as a line of a script writes them: `00*512,ff*3`.
//!
//! They are a place in the line. Their bytes are made only where a caller asks for them.
ghost use Rattle.std.specs.Prelude.{◌≡◌, ◌≢◌, ◌∷◌, [], ◌<◌, ◌==◌, IfSome, IfNone, IsTrue, All, ◌↔◌, length, replicate};
ghost use Rattle.std.specs.List.{after_first, before_first};
ghost use Rattle.device_model.specs.Grammar.{AreStretches, Fits, StretchesPlace, stretches_word};
ghost use Rattle.device_model.specs.Stretches.{Stretch, stretch_text};
ghost use Rattle.device_model.specs.Script.{stretches_length, bytes_of_stretches};
ghost use Rattle.script_text.specs.Runs.{AreRuns, IsRunText, IsStretch, parts_in, stretch_of, stretches_in};
ghost use Rattle.std.proofs.Props.{props};

use crate::values::{read_byte, read_number};
use memchr::memchr;

/// A byte, and how often it comes.
#[derive(Clone, Copy, Debug, PartialEq, Eq)]
pub struct Run {
    pub byte: u8,
    /// At least 1 in the runs of a line.
    pub count: u64,
}

/// Runs, joined by commas.
#[derive(Clone, Copy, Debug, PartialEq, Eq)]
pub struct Runs<'a> {
    word: &'a [u8],
    ghost runs: { AreRuns word.now } by { Prim.hlevel props },
}

impl<'a> Runs<'a> {
    ghost use Rattle.script_text.specs.Line.{stretches_of};

    /// The runs of a word. None where it is not one run or more.
    pub(crate) fn read(word: &'a [u8]) -> Option<Runs<'a>>
        ensures some { IfSome result (λ runs. (runs.word.now ≡ word.now)
            × AreStretches (stretches_in word.now) × (word.now ≡ stretches_word (stretches_in word.now))) }
        ensures none { IfNone result (¬ Fits StretchesPlace word.now) }
    {
        if !are_runs(word) {
            return None;
        }
        Some(Runs { word })
    }

    /// Takes the next run. None where no run is left.
    pub fn take_run(&mut self) -> Option<Run>
        ensures some { IfSome result (λ run. stretches_of self.old
            ≡ stretch_of run ∷ stretches_of self.new) }
        ensures none { IfNone result (stretches_of self.old ≡ []) }
    {
        let (part, rest) = first_part(self.word);
        let run = read_run(part)?;
        self.word = rest;
        Some(run)
    }

    /// How many bytes they are. Each run has fewer than 2^64, and a line has few runs, so the number does not overflow.
    pub fn total(&self) -> u128
        ensures { result ≡ stretches_length (stretches_of self.now) }
    {
        let mut rest = *self;
        let mut total = 0;
        while let Some(run) = rest.take_run() {
            total += u128::from(run.count);
        }
        total
    }

    /// Writes their bytes to `out`, which is as long as they are.
    pub fn fill(&self, out: &mut [u8])
        requires length { length out.old ≡ stretches_length (stretches_of self.now) }

        ensures bytes { out.new ≡ bytes_of_stretches (stretches_of self.now) }
    {
        let mut rest = *self;
        let mut from = 0;
        while let Some(run) = rest.take_run() {
            let count = run.count as usize;
            set_all(&mut out[from..from + count], run.byte);
            from += count;
        }
    }
}

/// Makes each byte this one.
fn set_all(bytes: &mut [u8], byte: u8)
    ensures { bytes.new ≡ replicate (length bytes.old) byte }
{
    bytes.fill(byte);
}

/// What stands before the first comma, and what behind it: none where there is no comma.
fn first_part(word: &[u8]) -> (&[u8], &[u8])
    ensures part { result.0.now ≡ before_first (λ byte. byte == 44) word.now }
    ensures rest { result.1.now ≡ after_first (λ byte. byte == 44) word.now }
    ensures shorter { word.now ≢ [] → length result.1.now < length word.now }
{
    match memchr(b',', word) {
        Some(end) => (&word[..end], &word[end + 1..]),
        None => (word, &[]),
    }
}

/// Whether the word is one run or more.
fn are_runs(word: &[u8]) -> bool
    ensures { IsTrue result ↔ All IsRunText (parts_in word.now) }
{
    word.split(|byte| *byte == b',').all(|part| is_run(part))
}

/// Whether these bytes are a run.
fn is_run(text: &[u8]) -> bool
    ensures { IsTrue result ↔ IsRunText text.now }
{
    read_run(text).is_some()
}

/// The run that these bytes are.
fn read_run(text: &[u8]) -> Option<Run>
    ensures some { IfSome result (λ run. text.now ≡ stretch_text (stretch_of run)) }
    ensures positive { IfSome result (λ run. IsStretch (stretch_of run)) }
    ensures none { IfNone result ((stretch : Stretch) → IsStretch stretch → text.now ≢ stretch_text stretch) }
{
    if text.len() < 3 || text[2] != b'*' {
        return None;
    }
    let byte = read_byte(&text[..2])?;
    let count = read_number(&text[3..])?;
    (count > 0).then_some(Run { byte, count })
}
