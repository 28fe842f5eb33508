//! What `clap` is told of the table: a command a row, which has no help and no version to show.
ghost use Rattle.std.specs.Prelude.{◌≡◌, IfOk, false, true, fold};
ghost use Rattle.clap.specs.Words.{app_of, rule_of, is_simple_and_free, is_simple};
ghost use Rattle.clap.specs.declared.builder.Command.TheViews.{out-Command};
ghost use Rattle.command_words.specs.ByClap.{option_rule, place_rule, entry_app, app};
ghost use Rattle.command_words.specs.Rows.{as_entry, as_option};

use crate::table::{CommandRow, OptionRow, Takes, commands};
use clap::{Arg, ArgAction, Command};
use std::alloc::{AllocError, Global};

/// A word that is no option. It is required.
fn place<'w>(alloc: Global, name: &'static str) -> Arg<'w>
    ensures rule { rule_of result ≡ place_rule name.entry.now }
    ensures local { result.global ≡ false }
{
    Arg::new(alloc, name).action(ArgAction::Set).required(true)
}

/// An option of one value, or a flag.
fn option<'w>(alloc: Global, row: &'static OptionRow) -> Arg<'w>
    ensures rule { rule_of result ≡ option_rule (as_option row.entry.now) }
    ensures local { result.global ≡ false }
{
    let action = match row.takes {
        Takes::Value => ArgAction::Set,
        Takes::Nothing => ArgAction::SetTrue,
    };
    Arg::new(alloc, row.name).long(row.name).action(action)
}

/// A command, with its places and its options.
fn command<'w>(alloc: Global, row: &'static CommandRow) -> Result<Command<'w>, AllocError>
    ensures app { IfOk result (λ c. app_of c ≡ entry_app (as_entry row.entry.now)) }
    ensures local { IfOk result (λ c. (out-Command c).has_globals ≡ false) }
{
    let mut command = Command::new(alloc, row.name);
    for name in row.places {
        command = command.arg(place(alloc, *name))?;
    }
    for row in row.options {
        command = command.arg(option(alloc, row))?;
    }
    Ok(command)
}

/// The program, with all its commands. One of them is required.
pub(crate) fn program<'w>(alloc: Global) -> Result<Command<'w>, AllocError>
    ensures app { IfOk result (λ c. app_of c ≡ app) }
{
    let mut program = Command::new(alloc, "integrity")
        .disable_help_flag(true)
        .disable_help_subcommand(true)
        .subcommand_required(true);
    for row in commands() {
        program = program.subcommand(command(alloc, row)?)?;
    }
    Ok(program)
}
