//! What the words give a command, as `clap` reads them.
ghost use Rattle.std.specs.Prelude.{◌≡◌, IfOk, IsErrOf, None, Some, map, option_map};
ghost use Rattle.std.specs.String.{string_bytes};
ghost use Rattle.command_words.specs.Commands.{reading_of};
ghost use Rattle.command_words.specs.Given.{has};
ghost use Rattle.command_words.specs.Found.{given_in, reading_in};

use crate::line::program;
use crate::words_fault::WordsFault;
use clap::ArgMatches;
use std::alloc::Global;

/// What the words give a command.
#[derive(Drop)]
pub(crate) struct Given<'w> {
    name: &'w str,
    matches: ArgMatches<'w>,
}

impl<'w> Given<'w> {
    /// Reads the words. The first is the program's name.
    ///
    /// # Errors
    ///
    /// - `Refused`: `clap` refuses them.
    /// - `Memory`: memory ran out.
    pub(crate) fn read(alloc: Global, words: &'w [String]) -> Result<Given<'w>, WordsFault>
        ensures given { IfOk result (λ given.
            reading_of (map string_bytes words.entry.now) ≡ Some (reading_in given)) }

        ensures refused { IsErrOf result WordsFault.Refused
            → reading_of (map string_bytes words.entry.now) ≡ None }
    {
        let mut matches = program(alloc)?.try_get_matches_from(words)?;
        match matches.remove_subcommand() {
            Some((name, matches)) => Ok(Given { name, matches }),
            None => Err(WordsFault::Refused),
        }
    }

    /// The command's word.
    pub(crate) fn name(&self) -> &'w str
        ensures { result.now ≡ self.now.name.now }
    {
        self.name
    }

    /// The text of a place or an option, if it has one.
    pub(crate) fn value(&self, name: &str) -> Option<&'w str>
        ensures { option_map (λ text. text.now) result ≡ given_in self.now name.now }
    {
        self.matches.get_str(name)
    }

    /// Whether the flag stands in the words.
    pub(crate) fn has(&self, flag: &str) -> bool
        ensures { result ≡ has (given_in self.now) flag.now }
    {
        self.value(flag).is_some_and(|text| text == "true")
    }
}
