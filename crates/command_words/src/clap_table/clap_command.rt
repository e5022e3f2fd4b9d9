//! Builds a `clap` command from tables of commands and options.
ghost use Rattle.std.specs.Prelude.{◌≡◌, IfOk, false};
ghost use Rattle.clap.specs.Words.{app_of, rule_of};
ghost use Rattle.clap.specs.declared.builder.command.Command.TheViews.{out-Command as fields_of};
ghost use Rattle.command_words.specs.ClapTable.Table.{command_app, option_rule, program_app, with_command};
ghost use Rattle.command_words.specs.ClapTable.Table.{with_commands, with_option, with_options};

use crate::clap_table::tables::{CommandText, OptionText, ProgramText, Value};
use clap::{Arg, ArgAction, Command};
use std::alloc::{AllocError, Global};

// Builds the `clap` argument for an option that is described in the table of a program's commands
// and options.
fn argument<'a>(alloc: Global, option: OptionText<'a>) -> Arg<'a>
    ensures rule { rule_of result ≡ option_rule option.entry }
    ensures local { result.global ≡ false }
{
    let argument = Arg::new(alloc, option.name).help(option.help);
    match option.value {
        Value::Required(shown) => argument.long(option.name).value_name(shown).required(true),
        Value::Optional(shown) => argument.long(option.name).value_name(shown),
        Value::Chosen { shown, .. } => argument.long(option.name).value_name(shown),
        Value::Repeated(shown) => argument
            .long(option.name)
            .value_name(shown)
            .action(ArgAction::Append),
        Value::Several(shown) => argument
            .long(option.name)
            .value_name(shown)
            .action(ArgAction::Append)
            .required(true),
        Value::Absent => argument.long(option.name).action(ArgAction::SetTrue),
        Value::Letter(letter) => argument
            .long(option.name)
            .short(letter)
            .action(ArgAction::SetTrue),
        Value::Word { shown, .. } => argument.value_name(shown).required(true),
    }
}

// Adds an option from the table of a program's commands and options to a `clap` command.
fn with_option<'a>(
    alloc: Global,
    command: Command<'a>,
    option: OptionText<'a>,
) -> Result<Command<'a>, AllocError>
    requires local { (fields_of command).has_globals ≡ false }
    ensures app { IfOk result (λ c. app_of c ≡ with_option (app_of command.entry) option.entry) }
    ensures local { IfOk result (λ c. (fields_of c).has_globals ≡ false) }
{
    let argument = argument(alloc, option);
    command.arg(argument)
}

// Adds several options from the table of a program's commands and options to a `clap` command.
fn with_options<'a>(
    alloc: Global,
    command: Command<'a>,
    options: &'a [OptionText<'a>],
) -> Result<Command<'a>, AllocError>
    requires local { (fields_of command).has_globals ≡ false }
    ensures app { IfOk result
        (λ c. app_of c ≡ with_options (app_of command.entry) options.entry.now) }
    ensures local { IfOk result (λ c. (fields_of c).has_globals ≡ false) }
{
    let mut command = command;
    for option in options {
        command = with_option(alloc, command, *option)?;
    }
    Ok(command)
}

// Builds the `clap` command for a command that is described in the table of a program's commands
// and options.
fn leaf_command<'a>(alloc: Global, text: CommandText<'a>) -> Result<Command<'a>, AllocError>
    ensures app { IfOk result (λ c. app_of c ≡ command_app text.entry) }
    ensures local { IfOk result (λ c. (fields_of c).has_globals ≡ false) }
{
    let command = Command::new(alloc, text.name)
        .about(text.about)
        .after_help(text.after);
    with_options(alloc, command, text.options)
}

// Adds a subcommand from the table of a program's commands and options to the `clap` command of
// this program.
fn with_command<'a>(
    alloc: Global,
    program: Command<'a>,
    text: CommandText<'a>,
) -> Result<Command<'a>, AllocError>
    ensures { IfOk result (λ c. app_of c ≡ with_command (app_of program.entry) text.entry) }
{
    let command = leaf_command(alloc, text)?;
    program.subcommand(command)
}

// Adds several subcommands from the table of a program's commands and options to the `clap` command
// of this program.
fn with_commands<'a>(
    alloc: Global,
    program: Command<'a>,
    commands: &'a [CommandText<'a>],
) -> Result<Command<'a>, AllocError>
    ensures { IfOk result
        (λ c. app_of c ≡ with_commands (app_of program.entry) commands.entry.now) }
{
    let mut program = program;
    for command in commands {
        program = with_command(alloc, program, *command)?;
    }
    Ok(program)
}

/// Builds the `clap` command of the program that a table of commands and options describes. The
/// arguments to parse must not begin with the program's name.
pub(crate) fn command<'a>(alloc: Global, text: ProgramText<'a>) -> Result<Command<'a>, AllocError>
    ensures { IfOk result (λ c. app_of c ≡ program_app text.entry) }
{
    let program = Command::new(alloc, text.name)
        .about(text.about)
        .after_help(text.after);
    let program = with_commands(alloc, program, text.commands)?;
    let program = with_commands(alloc, program, text.later)?;
    let program = program.no_binary_name(true);
    let program = program.version(text.version);
    program.bin_name(text.name)
}
