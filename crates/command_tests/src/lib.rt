//! Tests of the words of a command and how it ends.
#![tactic(auto)]

#[cfg(test)]
mod command_ending_tests;
#[cfg(test)]
mod command_words_tests;
