//! The types of the tables that describe a program's commands and options.

/// The kind of an option, with the placeholder that the help text shows for its value.
#[derive(Clone, Copy)]
pub enum Value<'a> {
    /// A required option with a value.
    Required(&'a str),
    /// An option that need not be given, and that has a value if it is given.
    Optional(&'a str),
    /// An option that need not be given, and whose value is one of the words in `choices`.
    Chosen {
        shown: &'a str,
        choices: &'a [&'a str],
    },
    /// An option with a value that need not be given, and may be given several times.
    Repeated(&'a str),
    /// A required option with a value, which may be given several times.
    Several(&'a str),
    /// A flag: an option without a value, which need not be given.
    Absent,
    /// A flag that also has a short form of one letter, such as `-n`.
    Letter(char),
    /// A required positional argument. If only a few words are accepted, `choices` lists them.
    Word {
        shown: &'a str,
        choices: &'a [&'a str],
    },
}

/// An option `--name` or a positional argument, with its help text.
#[derive(Clone, Copy)]
pub struct OptionText<'a> {
    pub name: &'a str,
    pub value: Value<'a>,
    pub help: &'a str,
}

/// A command with its options. Its help text begins with `about`, and ends with `after` below the
/// options.
#[derive(Clone, Copy)]
pub struct CommandText<'a> {
    pub name: &'a str,
    pub about: &'a str,
    pub after: &'a str,
    pub options: &'a [OptionText<'a>],
}

/// A program with its version and its commands. The commands are in two tables, because a proof
/// about one long table takes too many steps.
#[derive(Clone, Copy)]
pub struct ProgramText<'a> {
    pub name: &'a str,
    pub version: &'a str,
    pub about: &'a str,
    pub after: &'a str,
    pub commands: &'a [CommandText<'a>],
    /// Further commands, after the commands of the field `commands`.
    pub later: &'a [CommandText<'a>],
}
