//! What may stand at a place of a line, read from its next word.
//!
//! The clauses say of what is left whether the words fit from there on, so that each form of a line is one reader after
//! the other.
ghost use Rattle.std.specs.Prelude.{◌≡◌, ◌≢◌, ◌^◌, ◌<◌, [], ◌∷◌, List, IfOk, IfErr, IfSome, IfNone};
ghost use Rattle.std.specs.Fmt.{decimal};
ghost use Rattle.hex.specs.Hex.{encode_lower};
ghost use Rattle.device_model.specs.Actors.{actor_of};
ghost use Rattle.device_model.specs.Grammar.{Fits, WordPlace, NumberPlace, BytePlace, StretchesPlace, ActorPlace, FuaPlace, IsFaultAt, words_in, fua_words, actor_word, stretches_word, AreStretches};
ghost use Rattle.script_text.specs.Line.{fault_of};
ghost use Rattle.script_text.specs.Runs.{stretches_in};

use crate::line::LineFault;
use crate::runs::Runs;
use crate::values::{read_byte, read_number};
use crate::words::Words;
use device_model::Actor;

/// The next word, as a number.
pub fn take_number<'a>(words: &mut Words<'a>) -> Result<u64, LineFault<'a>>
    ensures number { IfOk result (λ number. (number < 2 ^ 64)
        × (words_in words.old.rest.now ≡ decimal number ∷ words_in words.new.rest.now)) }
    ensures fault { IfErr result (λ fault. (places : List WordPlace)
        → IsFaultAt (NumberPlace ∷ places) (words_in words.old.rest.now) (fault_of fault)) }
{
    let Some(word) = words.take_word() else {
        return Err(LineFault::MissingWord);
    };
    read_number(word).ok_or(LineFault::WrongNumber { word })
}

/// The next word, as a byte.
pub fn take_byte<'a>(words: &mut Words<'a>) -> Result<u8, LineFault<'a>>
    ensures byte { IfOk result (λ byte. (byte < 256)
        × (words_in words.old.rest.now ≡ encode_lower (byte ∷ []) ∷ words_in words.new.rest.now)) }
    ensures fault { IfErr result (λ fault. (places : List WordPlace)
        → IsFaultAt (BytePlace ∷ places) (words_in words.old.rest.now) (fault_of fault)) }
{
    let Some(word) = words.take_word() else {
        return Err(LineFault::MissingWord);
    };
    read_byte(word).ok_or(LineFault::WrongByte { word })
}

/// The next word, as runs.
pub fn take_runs<'a>(words: &mut Words<'a>) -> Result<Runs<'a>, LineFault<'a>>
    ensures runs { IfOk result (λ runs.
        AreStretches (stretches_in runs.word.now) × (words_in words.old.rest.now
        ≡ stretches_word (stretches_in runs.word.now) ∷ words_in words.new.rest.now)) }
    ensures fault { IfErr result (λ fault. (places : List WordPlace)
        → IsFaultAt (StretchesPlace ∷ places) (words_in words.old.rest.now) (fault_of fault)) }
{
    let Some(word) = words.take_word() else {
        return Err(LineFault::MissingWord);
    };
    Runs::read(word).ok_or(LineFault::WrongRuns { word })
}

/// The next word, as an actor.
pub fn take_actor<'a>(words: &mut Words<'a>) -> Result<Actor, LineFault<'a>>
    ensures actor { IfOk result (λ actor. words_in words.old.rest.now
        ≡ actor_word (actor_of actor) ∷ words_in words.new.rest.now) }
    ensures fault { IfErr result (λ fault. (places : List WordPlace)
        → IsFaultAt (ActorPlace ∷ places) (words_in words.old.rest.now) (fault_of fault)) }
{
    let Some(word) = words.take_word() else {
        return Err(LineFault::MissingWord);
    };
    actor_by_word(word).ok_or(LineFault::WrongWord { word })
}

/// Whether `fua` is the last word. It may be left out.
pub fn take_last_fua<'a>(words: &mut Words<'a>) -> Result<bool, LineFault<'a>>
    ensures fua { IfOk result (λ fua. words_in words.old.rest.now ≡ fua_words fua) }
    ensures fault { IfErr result (λ fault.
        IsFaultAt (FuaPlace ∷ []) (words_in words.old.rest.now) (fault_of fault)) }
{
    let Some(word) = words.take_word() else {
        return Ok(false);
    };
    if word != b"fua".as_slice() {
        return Err(LineFault::WrongWord { word });
    }
    take_end(words)?;
    Ok(true)
}

/// The end of the line.
pub fn take_end<'a>(words: &mut Words<'a>) -> Result<(), LineFault<'a>>
    ensures end { IfOk result (λ _. words_in words.old.rest.now ≡ []) }
    ensures fault { IfErr result (λ fault. IsFaultAt [] (words_in words.old.rest.now) (fault_of fault)) }
{
    match words.take_word() {
        None => Ok(()),
        Some(word) => Err(LineFault::ExtraWord { word }),
    }
}

/// The actor that a word names.
fn actor_by_word(word: &[u8]) -> Option<Actor>
    ensures some { IfSome result (λ actor. word.now ≡ actor_word (actor_of actor)) }
    ensures none { IfNone result (¬ Fits ActorPlace word.now) }
{
    match word {
        b"commit" => Some(Actor::Commit),
        b"place" => Some(Actor::Place),
        b"settle" => Some(Actor::Settle),
        b"clean" => Some(Actor::Clean),
        b"recalc" => Some(Actor::Recalc),
        _ => None,
    }
}
