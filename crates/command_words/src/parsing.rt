//! The words of a program, and the command that they are.
ghost use Rattle.std.specs.Prelude.{◌≡◌, IfOk, IsErrOf, None, Some, map, drop};
ghost use Rattle.std.specs.List.{list_any};
ghost use Rattle.std.specs.String.{string_bytes};
ghost use Rattle.command_words.specs.Commands.{asks_for_help, begins_with_help, command_of, is_question};

use crate::command::Command;
use crate::given::Given;
use crate::judging::command_named;
use crate::words_fault::WordsFault;
use std::alloc::Global;

/// The command that the words are. The first is the program's name, and may be any.
///
/// # Errors
///
/// - `Refused`: they are no command.
/// - `Memory`: memory ran out.
pub fn parse(alloc: Global, words: &[String]) -> Result<Command, WordsFault>
    ensures command { IfOk result (λ command. command_of (map string_bytes words.now) ≡ Some command) }

    ensures refused { IsErrOf result WordsFault.Refused → command_of (map string_bytes words.now) ≡ None }
{
    if asks_for_help(words) {
        return Err(WordsFault::Refused);
    }
    let given = Given::read(alloc, words)?;
    command_named(alloc, given.name(), &given)
}

/// Whether the words behind the program's name ask for help or for the version.
///
/// Own: it is judged before `clap` reads them, since no command does that.
fn asks_for_help(words: &[String]) -> bool
    ensures { result ≡ asks_for_help (drop 1 (map string_bytes words.now)) }
{
    match words.split_first() {
        Some((_program, words)) => has_question(words) || begins_with_help(words),
        None => false,
    }
}

/// Whether a word asks for help or for the version.
fn has_question(words: &[String]) -> bool
    ensures { result ≡ list_any (λ word. is_question (string_bytes word)) words.now }
{
    words.iter().any(|word| is_question(word.as_str()))
}

/// Whether the word asks for help or for the version.
fn is_question(word: &str) -> bool
    ensures { result ≡ is_question word.now }
{
    word == "-h" || word == "--help" || word == "-V" || word == "--version"
}

/// Whether the first word is `help`.
fn begins_with_help(words: &[String]) -> bool
    ensures { result ≡ begins_with_help (map string_bytes words.now) }
{
    match words.first() {
        Some(word) => word.as_str() == "help",
        None => false,
    }
}
