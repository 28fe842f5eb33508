//! What holds of words in plain form: the law is the contract of a function that does nothing.
ghost use Rattle.command_words.specs.PlainForm.{PlainLaw};

/// Words in plain form are the command that their values are: the command's word, a word for each place, and then
/// options as `--name value` and flags as `--name`, each at most once. No place and no value begins with `-`.
pub fn plain_words_are_their_command()
    ensures { PlainLaw }
{}
