//! Prints the bash completion script, which is generated from the table of commands.
use command_io::Buffered;
use command_words::{CommandText, OptionText, ProgramText, Value, program};
use std::io::{self, Write};
use stored_files::{Ending, Failure};

const HEAD: &str = "\
# The words of sunreg, for bash. Have them now by: source <(sunreg completions bash)
_sunreg() {
    local word=${COMP_WORDS[COMP_CWORD]} words=
    COMPREPLY=()
";

const TAIL: &str = "\
    while IFS= read -r word; do
        COMPREPLY+=(\"$word\")
    done < <(compgen -W \"$words\" -- \"$word\")
}
complete -F _sunreg sunreg
";

// Returns the placeholder, such as `FILE`, that the help text shows for an option's value. Returns
// `None` for a flag and for a value that is one of a few fixed words.
fn value_of<'a>(value: Value<'a>) -> Option<&'a str> {
    match value {
        Value::Required(shown)
        | Value::Optional(shown)
        | Value::Repeated(shown)
        | Value::Several(shown) => Some(shown),
        Value::Absent | Value::Letter(_) | Value::Chosen { .. } | Value::Word { .. } => None,
    }
}

fn is_file(shown: &str) -> bool {
    shown == "FILE" || shown == "COPY" || shown == "SEAL"
}

fn write_names<W: Write>(commands: &[CommandText<'_>], output: &mut W) -> io::Result<()> {
    for command in commands {
        write!(output, "{} ", command.name)?;
    }
    Ok(())
}

// Writes the names of all commands to the completion script, followed by `help`.
fn write_all_names<W: Write>(program: &ProgramText<'_>, output: &mut W) -> io::Result<()> {
    write_names(program.commands, output)?;
    write_names(program.later, output)?;
    output.write_all(b"help")
}

// Writes to the completion script the fixed words that an option accepts as its value.
fn write_chosen<W: Write>(
    command: &str,
    option: &str,
    choices: &[&str],
    output: &mut W,
) -> io::Result<()> {
    write!(output, "    '{command} --{option}') words='")?;
    write_choices(choices, output)?;
    output.write_all(b"' ;;\n")
}

// Writes how bash completes the value of an option: with one of several fixed words, with a file
// name, or not at all.
fn write_value<W: Write>(command: &str, option: &OptionText<'_>, output: &mut W) -> io::Result<()> {
    if let Value::Chosen { choices, .. } = option.value {
        return write_chosen(command, option.name, choices, output);
    }
    match value_of(option.value) {
        Some(shown) if is_file(shown) => write!(
            output,
            "    '{command} --{}') compopt -o default; return ;;\n",
            option.name
        ),
        Some(_) => write!(output, "    '{command} --{}') return ;;\n", option.name),
        None => Ok(()),
    }
}

fn write_values<W: Write>(commands: &[CommandText<'_>], output: &mut W) -> io::Result<()> {
    for command in commands {
        for option in command.options {
            write_value(command.name, option, output)?;
        }
    }
    Ok(())
}

fn write_choices<W: Write>(choices: &[&str], output: &mut W) -> io::Result<()> {
    for choice in choices {
        write!(output, "{choice} ")?;
    }
    Ok(())
}

fn write_option<W: Write>(option: &OptionText<'_>, output: &mut W) -> io::Result<()> {
    match option.value {
        Value::Word { choices, .. } => write_choices(choices, output),
        Value::Letter(letter) => write!(output, "-{letter} --{} ", option.name),
        Value::Required(_)
        | Value::Optional(_)
        | Value::Chosen { .. }
        | Value::Repeated(_)
        | Value::Several(_)
        | Value::Absent => write!(output, "--{} ", option.name),
    }
}

fn write_options<W: Write>(commands: &[CommandText<'_>], output: &mut W) -> io::Result<()> {
    for command in commands {
        write!(output, "    {}) words='", command.name)?;
        for option in command.options {
            write_option(option, output)?;
        }
        output.write_all(b"--help' ;;\n")?;
    }
    Ok(())
}

// Writes to the completion script how the values of each command's options are completed.
fn write_all_values<W: Write>(program: &ProgramText<'_>, output: &mut W) -> io::Result<()> {
    output.write_all(b"    *) case ${COMP_WORDS[1]}\" \"${COMP_WORDS[COMP_CWORD - 1]} in\n")?;
    write_values(program.commands, output)?;
    write_values(program.later, output)?;
    output.write_all(b"    *) case ${COMP_WORDS[1]} in\n")
}

// Writes to the completion script, for each command, its options and the fixed words of its
// positional arguments.
fn write_all_options<W: Write>(program: &ProgramText<'_>, output: &mut W) -> io::Result<()> {
    write_options(program.commands, output)?;
    write_options(program.later, output)?;
    output.write_all(b"    help) words='")?;
    write_all_names(program, output)?;
    output.write_all(b"' ;;\n    esac ;;\n    esac ;;\n")
}

fn write_script<W: Write>(program: &ProgramText<'_>, output: &mut W) -> io::Result<()> {
    output.write_all(HEAD.as_bytes())?;
    output.write_all(b"    case $COMP_CWORD in\n    1) words='")?;
    write_all_names(program, output)?;
    output.write_all(b" --help --version' ;;\n")?;
    write_all_values(program, output)?;
    write_all_options(program, output)?;
    output.write_all(b"    esac\n")?;
    output.write_all(TAIL.as_bytes())
}

/// Prints the bash completion script.
pub(crate) fn completions(rt: &HostRuntime) -> Ending<'static> {
    let mut output = Buffered::new(io::writer(rt));
    let written = write_script(&program(), &mut output);
    match (written, output.flush()) {
        (Ok(()), Ok(())) => Ending::Fine,
        _ => Ending::Failed(Failure::Streams),
    }
}
