//! Parses arguments with `clap`, as the table of a program's commands and options defines.
ghost use Rattle.std.specs.Prelude.{◌≡◌, IfOk, true};
ghost use Rattle.clap.specs.Words.{is_simple_and_free};
ghost use Rattle.command_words.specs.ClapTable.Table.{Fails, IsFound, program_app};

use crate::clap_table::clap_command::command;
use crate::clap_table::tables::ProgramText;
use clap::{ArgMatches, Error};
use std::alloc::Global;

/// Parses the arguments after the program's name with `clap`, as the table of the program's
/// commands and options defines.
pub fn matches_of<'a>(
    alloc: Global,
    program: ProgramText<'a>,
    words: &'a [&'a str],
) -> Result<ArgMatches<'a>, Error>
    requires { is_simple_and_free (program_app program) ≡ true }
    ensures found { IfOk result (IsFound program.entry words.entry.now) }
    ensures fails { Fails program.entry words.entry.now result }
{
    let command = command(alloc, program)?;
    command.try_get_matches_from(words)
}
