//! Which words are which command: read by `clap`, and judged by a table of commands and options.
//!
//! A contract sees a `FileName` as the list of its bytes, a `Within` and an `Interleave` as their number. Which words
//! are which command is `command_of` in `specs/Commands.antt`, the file to read first; `specs/Table.antt` has the
//! table, and `specs/PlainForm.antt` words whose command is told without a word on `clap`. `line.rt` and `given.rt`
//! alone see `clap`.
#![tactic(auto)]

mod command;
mod given;
mod judging;
mod line;
mod numbers;
mod parsing;
mod plain_law;
mod table;
mod values;
mod words_fault;

pub use command::{Check, Command, Dump, Exercise, Format, Mirror, Nbd, Resize, Run, Salvage};
pub use parsing::parse;
pub use plain_law::plain_words_are_their_command;
pub use values::{
    BlockSize, Consent, FileName, HashChoice, Interleave, Log2BlocksPerBit, Mode, NbdMode,
    RequestCount, SectionCount, TagSize, Within,
};
pub use words_fault::WordsFault;
