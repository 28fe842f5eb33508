//! The line that bytes are, or why they are none.
//!
//! The words are read from left to right, each at its place, so that the first that does not fit is the first that
//! is told.
ghost use Rattle.std.specs.Prelude.{◌≡◌, ◌^◌, ◌<◌, ◌≤◌, [], ◌∷◌, IfOk, IfErr, IsTrue, ◌↔◌, codes};
ghost use Rattle.std.specs.Fmt.{decimal};
ghost use Rattle.device_model.specs.Grammar.{HasValues, IsFaultAt, IsFaultOf, IsFaultOfStart, IsFaultOfWords, IsLine, IsReadAs, IsText, IsWritable, ReadLine, ask_words, line_words, places_of, verb_word, words_in, NumberPlace, FillVerb, WriteVerb, ReadVerb};
ghost use Rattle.script_text.specs.AskLine.{AreAskWords, AskReading, HasAskFault, IsAskFaultOf, IsAskLine};
ghost use Rattle.script_text.specs.AskLine.{IsAskReading, ask_reading_of, asks_of};
ghost use Rattle.script_text.specs.Line.{ask_of, fault_of, line_of, read_of};
ghost use Rattle.script_text.specs.Verb.{ask_verb_of, verb_of};

use crate::line::{Ask, Line, LineFault};
use crate::places::{take_actor, take_byte, take_end, take_last_fua, take_number, take_runs};
use crate::verb::{AskVerb, Verb, ask_verb_by_word, verb_by_word};
use crate::words::Words;

/// A line has at most so many bytes.
pub const MOST_LINE: usize = 65536;

/// The line that these bytes are. It takes no memory: runs, and the word of a fault, are places in the line.
///
/// # Errors
///
/// Those of `LineFault`: the first that holds.
///
/// Own: the grammar of scripts, `docs/COMMANDS.md`.
pub fn read_line(bytes: &[u8]) -> Result<Line<'_>, LineFault<'_>>
    ensures line { IfOk result (λ line. IsLine bytes.now (line_of line)) }
    ensures fault { IfErr result (λ fault. IsFaultOf bytes.now (fault_of fault)) }
    ensures exact { (read : ReadLine) → IsReadAs bytes.now read → read ≡ read_of result }
{
    if bytes.len() > MOST_LINE {
        return Err(LineFault::TooLong);
    }
    if !is_text(bytes) {
        return Err(LineFault::NotText);
    }
    if bytes.starts_with(b"#") {
        return Ok(Line::Skip);
    }
    read_words(Words::new(bytes))
}

/// The request that a line without `start` asks for, or none where the line is skipped. It takes no memory, as
/// `read_line`, and what is read is all that the grammar says of the bytes.
///
/// # Errors
///
/// Those of `LineFault`: the first that holds. A word with which no request begins, `start` among them, is wrong.
///
/// Own: of the grammar of scripts, `docs/COMMANDS.md`, the requests alone.
pub fn read_ask_line(bytes: &[u8]) -> Result<Option<Ask<'_>>, LineFault<'_>>
    ensures asks { IfOk result (λ asks. IsAskLine bytes.now (asks_of asks)) }
    ensures fault { IfErr result (λ fault. IsAskFaultOf bytes.now (fault_of fault)) }
    ensures exact { (read : AskReading) → IsAskReading bytes.now read → read ≡ ask_reading_of result }
{
    if bytes.len() > MOST_LINE {
        return Err(LineFault::TooLong);
    }
    if !is_text(bytes) {
        return Err(LineFault::NotText);
    }
    if bytes.starts_with(b"#") {
        return Ok(None);
    }
    read_ask_words(Words::new(bytes))
}

/// Whether each byte is a space or one that may be printed.
fn is_text(bytes: &[u8]) -> bool
    ensures { IsTrue result ↔ IsText bytes.now }
{
    bytes.iter().all(|byte| *byte >= 0x20 && *byte <= 0x7e)
}

/// The line of these words.
fn read_words<'a>(mut words: Words<'a>) -> Result<Line<'a>, LineFault<'a>>
    ensures line { IfOk result (λ line.
        (words_in words.entry.rest.now ≡ line_words (line_of line)) × IsWritable (line_of line)) }
    ensures fault { IfErr result (λ fault. IsFaultOfWords (words_in words.entry.rest.now) (fault_of fault)) }
{
    let Some(word) = words.take_word() else {
        return Ok(Line::Skip);
    };
    if word == b"start".as_slice() {
        let ask = read_started(&mut words)?;
        return Ok(Line::Ask { start: true, ask });
    }
    let Some(verb) = verb_by_word(word) else {
        return Err(LineFault::WrongWord { word });
    };
    read_behind(verb, &mut words)
}

/// The request of these words, or none where there are none.
fn read_ask_words<'a>(mut words: Words<'a>) -> Result<Option<Ask<'a>>, LineFault<'a>>
    ensures asks { IfOk result (λ asks. AreAskWords (words_in words.entry.rest.now) (asks_of asks)) }
    ensures fault { IfErr result (λ fault. HasAskFault (words_in words.entry.rest.now) (fault_of fault)) }
{
    let Some(word) = words.take_word() else {
        return Ok(None);
    };
    let Some(verb) = ask_verb_by_word(word) else {
        return Err(LineFault::WrongWord { word });
    };
    let ask = read_ask(verb, &mut words)?;
    Ok(Some(ask))
}

/// The request behind `start`.
fn read_started<'a>(words: &mut Words<'a>) -> Result<Ask<'a>, LineFault<'a>>
    ensures ask { IfOk result (λ ask.
        (words_in words.old.rest.now ≡ ask_words (ask_of ask)) × HasValues (ask_of ask)) }
    ensures fault { IfErr result (λ fault. IsFaultOfStart (words_in words.old.rest.now) (fault_of fault)) }
{
    let Some(word) = words.take_word() else {
        return Err(LineFault::MissingWord);
    };
    let Some(verb) = ask_verb_by_word(word) else {
        return Err(LineFault::WrongWord { word });
    };
    read_ask(verb, words)
}

/// The line that goes on behind this.
fn read_behind<'a>(verb: Verb, words: &mut Words<'a>) -> Result<Line<'a>, LineFault<'a>>
    ensures line { IfOk result (λ line.
        (verb_word (verb_of verb) ∷ words_in words.old.rest.now ≡ line_words (line_of line))
        × IsWritable (line_of line)) }
    ensures fault { IfErr result (λ fault.
        IsFaultAt (places_of (verb_of verb)) (words_in words.old.rest.now) (fault_of fault)) }
{
    match verb {
        Verb::Ask(verb) => {
            let ask = read_ask(verb, words)?;
            Ok(Line::Ask { start: false, ask })
        }
        Verb::Serve => {
            let ticket = read_ticket(words)?;
            Ok(Line::Serve { ticket })
        }
        Verb::Take => {
            let ticket = read_ticket(words)?;
            Ok(Line::Take { ticket })
        }
        Verb::Step => {
            let actor = take_actor(words)?;
            take_end(words)?;
            Ok(Line::Step { actor })
        }
    }
}

/// The last word, as a ticket.
fn read_ticket<'a>(words: &mut Words<'a>) -> Result<u64, LineFault<'a>>
    ensures ticket { IfOk result (λ ticket.
        (ticket < 2 ^ 64) × (words_in words.old.rest.now ≡ decimal ticket ∷ [])) }
    ensures fault { IfErr result (λ fault.
        IsFaultAt (NumberPlace ∷ []) (words_in words.old.rest.now) (fault_of fault)) }
{
    let ticket = take_number(words)?;
    take_end(words)?;
    Ok(ticket)
}

/// The request that goes on behind this.
fn read_ask<'a>(verb: AskVerb, words: &mut Words<'a>) -> Result<Ask<'a>, LineFault<'a>>
    ensures ask { IfOk result (λ ask.
        (verb_word (ask_verb_of verb) ∷ words_in words.old.rest.now ≡ ask_words (ask_of ask))
        × HasValues (ask_of ask)) }
    ensures fault { IfErr result (λ fault.
        IsFaultAt (places_of (ask_verb_of verb)) (words_in words.old.rest.now) (fault_of fault)) }
{
    match verb {
        AskVerb::Fill => read_fill(words),
        AskVerb::Write => read_write(words),
        AskVerb::Read => read_read(words),
        AskVerb::Flush => {
            take_end(words)?;
            Ok(Ask::Flush)
        }
    }
}

/// What stands behind `fill`.
fn read_fill<'a>(words: &mut Words<'a>) -> Result<Ask<'a>, LineFault<'a>>
    ensures ask { IfOk result (λ ask.
        (codes "fill" ∷ words_in words.old.rest.now ≡ ask_words (ask_of ask)) × HasValues (ask_of ask)) }
    ensures fault { IfErr result (λ fault.
        IsFaultAt (places_of FillVerb) (words_in words.old.rest.now) (fault_of fault)) }
{
    let first = take_number(words)?;
    let count = take_number(words)?;
    let byte = take_byte(words)?;
    let fua = take_last_fua(words)?;
    Ok(Ask::Fill {
        first,
        count,
        byte,
        fua,
    })
}

/// What stands behind `write`.
fn read_write<'a>(words: &mut Words<'a>) -> Result<Ask<'a>, LineFault<'a>>
    ensures ask { IfOk result (λ ask.
        (codes "write" ∷ words_in words.old.rest.now ≡ ask_words (ask_of ask)) × HasValues (ask_of ask)) }
    ensures fault { IfErr result (λ fault.
        IsFaultAt (places_of WriteVerb) (words_in words.old.rest.now) (fault_of fault)) }
{
    let first = take_number(words)?;
    let runs = take_runs(words)?;
    let fua = take_last_fua(words)?;
    Ok(Ask::Write { first, runs, fua })
}

/// What stands behind `read`.
fn read_read<'a>(words: &mut Words<'a>) -> Result<Ask<'a>, LineFault<'a>>
    ensures ask { IfOk result (λ ask.
        (codes "read" ∷ words_in words.old.rest.now ≡ ask_words (ask_of ask)) × HasValues (ask_of ask)) }
    ensures fault { IfErr result (λ fault.
        IsFaultAt (places_of ReadVerb) (words_in words.old.rest.now) (fault_of fault)) }
{
    let first = take_number(words)?;
    let count = take_number(words)?;
    take_end(words)?;
    Ok(Ask::Read { first, count })
}
