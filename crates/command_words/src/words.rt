//! Parses the arguments of `sunreg` into a command line.
ghost use Rattle.std.specs.Prelude.{IfErr, IfOk};
ghost use Rattle.clap.specs.Words.{FailsBy, kind_of};
ghost use Rattle.command_words.specs.ClapTable.Table.{texts};
ghost use Rattle.command_words.specs.Faults.{IsMisreading, IsRefusal};
ghost use Rattle.command_words.specs.Words.{IsFaultOf, IsFound, Spells, errors_of};

use crate::clap_table::matches_of;
use crate::faults::{ValueFault, WordsFault};
use crate::line::CommandLine;
use crate::lines::line_in;
use crate::table::program;
use clap::error::ErrorKind;
use clap::{ArgMatches, Error};
use std::alloc::Global;

// Parses the arguments with `clap`, according to the table of commands and options.
fn found_in<'a>(alloc: Global, words: &'a [&'a str]) -> Result<ArgMatches<'a>, Error>
    ensures found { IfOk result (IsFound words.entry.now) }
    ensures fails { FailsBy (errors_of (texts words.entry.now)) result }
{
    matches_of(alloc, program(), words)
}

// Converts a `clap` error to the program's own fault type, with the error text of `clap`.
fn refusal(alloc: Global, error: &Error) -> WordsFault
    ensures { IsRefusal (kind_of error.now) result }
{
    if error.kind() == ErrorKind::OutOfMemory {
        return WordsFault::Memory;
    }
    if error.kind() == ErrorKind::DisplayVersion {
        return WordsFault::Version;
    }
    let Ok(text) = format!(in alloc; "{error}") else {
        return WordsFault::Memory;
    };
    if error.kind() == ErrorKind::DisplayHelp {
        WordsFault::Help(text)
    } else {
        WordsFault::Wrong(text)
    }
}

// Returns the fault for an option value that is missing or invalid, with its error message.
fn wrong_value(alloc: Global, fault: &ValueFault) -> WordsFault
    ensures { IsMisreading fault.now result }
{
    if let ValueFault::Memory = fault {
        return WordsFault::Memory;
    }
    match format!(in alloc; "{fault}") {
        Ok(text) => WordsFault::Wrong(text),
        Err(_) => WordsFault::Memory,
    }
}

/// Parses the arguments after the program's name. Option texts are returned unchanged. Without
/// arguments, the command is `replay`.
pub fn command_of<'a>(alloc: Global, words: &'a [&'a str]) -> Result<CommandLine<'a>, WordsFault>
    ensures line { IfOk result (Spells words.entry.now) }
    ensures fault { IfErr result (IsFaultOf words.entry.now) }
{
    let found = match found_in(alloc, words) {
        Ok(found) => found,
        Err(error) => return Err(refusal(alloc, &error)),
    };
    match line_in(alloc, &found) {
        Ok(line) => Ok(line),
        Err(fault) => Err(wrong_value(alloc, &fault)),
    }
}
