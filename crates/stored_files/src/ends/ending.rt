//! Defines how commands end, with their exit statuses and messages.
ghost use Rattle.std.specs.Prelude.{◌≡◌, ◌⊎◌};
ghost use Rattle.stored_files.specs.Ends.Endings.{IsReported, ending_number, ending_of};

use crate::ends::failure::Failure;
use crate::ends::named::Named;
use command_io::ExitStatus;
use std::io::Write;

/// How a command ended. The exit status and the message of the command follow from this value.
#[derive(Drop)]
pub enum Ending<'a> {
    Fine,
    /// The command's input is wrong, or the program's rules refused the input. The output of the
    /// command states the reason.
    Refused,
    /// The arguments of the command are wrong. The text is the message with the reason.
    Wrong(String),
    /// The command line arguments are not valid UTF-8.
    NoText,
    /// The value of the option `--zone` is not a time zone.
    NoZone(&'a str),
    /// The value `word` of the option `option` is not a calendar date.
    NoDay { option: &'a str, word: &'a str },
    /// The requested range of days ends before it begins.
    Backward,
    /// The file in the option `--against` does not have the text of a seal, which has digests of a
    /// database's records.
    NoSeal(&'a str),
    /// The same database file, with this name, was given twice.
    Twice(&'a str),
    Failed(Failure<'a>),
}

impl<'a> Ending<'a> {
    /// Returns the exit status, from 0 to 3, of the process whose command has this ending.
    pub fn number(&self) -> u8
        ensures { result ≡ ending_number self.now }
    {
        match self {
            Ending::Fine => 0,
            Ending::Refused => 1,
            Ending::Wrong(_) | Ending::NoText | Ending::NoZone(_) => 2,
            Ending::NoDay { .. } | Ending::Backward | Ending::NoSeal(_) => 2,
            Ending::Twice(_) => 2,
            Ending::Failed(_) => 3,
        }
    }
}

/// Returns how a command ended (with success, a refusal or a failure), by the command's exit
/// status. The status `Failed` means that standard input or output failed, or that memory ran out.
pub fn ending_of(status: ExitStatus) -> Ending<'static>
    ensures { result ≡ ending_of status }
{
    match status {
        ExitStatus::Fine => Ending::Fine,
        ExitStatus::Refused => Ending::Refused,
        ExitStatus::Failed => Ending::Failed(Failure::Streams),
    }
}

/// Writes the error message of a command to `errors`. Writes nothing after success or a refusal,
/// because standard output reports these endings. Ignores a failure to write.
pub fn say<W: Write>(ending: &Ending<'_>, errors: &mut W)
    ensures { IsReported ending.now ⊎ (errors.new ≡ errors.old) }
{
    let _said = match ending {
        Ending::Fine | Ending::Refused => Ok(()),
        Ending::Wrong(text) => errors.write_all(text.as_bytes()),
        Ending::NoText => errors.write_all(b"error: the arguments are not valid UTF-8\n"),
        Ending::NoZone(zone) => write!(
            errors,
            "error: invalid value '{zone}' for '--zone <TEXT>': not a POSIX time zone; Berlin is CET-1CEST,M3.5.0,M10.5.0/3\n"
        ),
        Ending::NoDay { option, word } => write!(
            errors,
            "error: invalid value '{word}' for '--{option} <DAY>': not a calendar date (like 2026-11-25)\n"
        ),
        Ending::Backward => errors.write_all(b"error: '--till <DAY>' is before '--from <DAY>'\n"),
        Ending::NoSeal(file) => write!(
            errors,
            "error: invalid value '{}' for '--against <SEAL>': not a seal of this version: make a new one with sunreg audit --seal\n",
            Named(*file)
        ),
        Ending::Twice(file) => write!(
            errors,
            "error: invalid value '{}' for '--db <FILE>': given twice\n",
            Named(*file)
        ),
        Ending::Failed(failure) => write!(errors, "failed\nsunreg: {failure}\n"),
    };
}
