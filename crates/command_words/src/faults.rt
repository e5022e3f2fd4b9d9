//! The reasons why the program rejects its arguments, with their error messages.
use crate::table::NumberOption;
use crate::values::DeviceFault;
use std::error::Error;
use std::fmt;
use std::fmt::{Display, Formatter};

/// A reason why the program rejects the value of a command's option.
#[derive(Clone, Copy, Drop)]
pub enum ValueFault<'a> {
    /// The required option `option` has no value.
    Missing {
        option: &'a str,
    },
    /// The option's value `word` is not a number from 1 to the option's maximum.
    Number {
        option: NumberOption<'a>,
        word: &'a str,
    },
    /// The options `one` and `other` are both given, although they exclude each other.
    Both {
        one: &'a str,
        other: &'a str,
    },
    /// The option's value is not one of the allowed words.
    Choice {
        option: &'a str,
        value: &'a str,
        choices: &'a [&'a str],
        word: &'a str,
    },
    /// No command has the name `name`.
    Command {
        name: &'a str,
    },
    /// No completions exist for the shell `word`.
    Shell {
        word: &'a str,
    },
    /// The option `option` is given together with several values of the option `other`. Several
    /// values exclude `option`.
    Alone {
        option: &'a str,
        other: &'a str,
    },
    /// The option `option` is given, but it requires the option `other`, which is not given.
    Without {
        option: &'a str,
        other: &'a str,
    },
    /// The part `part` of a device list is not a valid device.
    Device {
        part: &'a str,
        fault: DeviceFault,
    },
    /// The value `word` of `--host-name` is not a host name.
    HostName {
        word: &'a str,
    },
    Memory,
}

/// The reason why the program executes no command: invalid arguments, out of memory, or a request
/// for help or for the version.
#[derive(Debug, Drop)]
pub enum WordsFault {
    /// The arguments are invalid. The text for standard error states the reason.
    Wrong(String),
    /// The user requested help. The text is for standard output.
    Help(String),
    /// The user requested the program's version.
    Version,
    Memory,
}

// Writes a list of words, separated by commas.
fn write_words<W: fmt::Write>(f: &mut Formatter<W>, words: &[&str]) -> fmt::Result {
    let mut before = "";
    for word in words {
        write!(f, "{before} {word}")?;
        before = ",";
    }
    Ok(())
}

// Error messages for invalid option values, in the format of the messages that `clap` itself
// prints.
impl<'a> Display for ValueFault<'a> {
    fn fmt<W: fmt::Write>(&self, f: &mut Formatter<W>) -> fmt::Result {
        match self {
            ValueFault::Missing { option } => write!(
                f,
                "error: the option '--{option}' is missing"
            )?,
            ValueFault::Number { option, word } => write!(
                f,
                "error: invalid value '{word}' for '--{} <{}>': not a number from 1 to {}",
                option.name, option.value, option.most
            )?,
            ValueFault::Both { one, other } => write!(
                f,
                "error: the argument '--{one}' cannot be used with '--{other}'"
            )?,
            ValueFault::Choice {
                option,
                value,
                choices,
                word,
            } => {
                write!(
                    f,
                    "error: invalid value '{word}' for '--{option} <{value}>': expected one of"
                )?;
                write_words(f, choices)?
            }
            ValueFault::Command { name } => write!(f, "error: unrecognized subcommand '{name}'")?,
            ValueFault::Shell { word } => write!(
                f,
                "error: invalid value '{word}' for '<SHELL>': only bash has completions"
            )?,
            ValueFault::Alone { option, other } => write!(
                f,
                "error: the argument '--{option}' cannot be used with more than one '--{other}'"
            )?,
            ValueFault::Without { option, other } => write!(
                f,
                "error: the argument '--{option}' cannot be used without '--{other}'"
            )?,
            ValueFault::Device { part, fault } => {
                write!(
                    f,
                    "error: invalid value '{part}' for '--devices <LIST>': {fault}"
                )?
            }
            ValueFault::HostName { word } => write!(
                f,
                "error: invalid value '{word}' for '--host-name <NAME>': not a host name"
            )?,
            ValueFault::Memory => write!(f, "error: out of memory")?,
        }
        write!(f, "\n\nFor more information, try '--help'.\n")
    }
}

// Writes the message for the user. For invalid arguments and requests for help, `clap` or the
// rejected option value supplies the message.
impl Display for WordsFault {
    fn fmt<W: fmt::Write>(&self, f: &mut Formatter<W>) -> fmt::Result {
        match self {
            WordsFault::Wrong(text) => write!(f, "{text}"),
            WordsFault::Help(text) => write!(f, "{text}"),
            WordsFault::Version => write!(f, "the version was requested"),
            WordsFault::Memory => write!(f, "out of memory"),
        }
    }
}

impl Error for WordsFault {}
