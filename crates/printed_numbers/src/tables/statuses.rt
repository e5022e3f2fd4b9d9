//! The meanings of the program's exit statuses.
ghost use Rattle.printed_numbers.specs.Numbers.{Answers};
ghost use Rattle.printed_numbers.specs.declared.kind.Kind.TheVariants.{Status};

use crate::kind::Kind;
use crate::meaning::Meaning;

static FINE: Meaning = Meaning {
    kind: Kind::Status,
    number: 0,
    means: "success",
    cause: "valid arguments and valid input",
    remedy: "nothing; a script may still have refused lines, which its output shows",
};

static REFUSED_INPUT: Meaning = Meaning {
    kind: Kind::Status,
    number: 1,
    means: "a line is invalid, the input is too long, a point list or the chain of an image or device has a fault, enter doubts a line or can't read its counter, an audit finds differences, files named together don't join, or the office refused (refused N): its opening, or a request of round, report or carry",
    cause: "a mistyped line, or a name that the office doesn't have",
    remedy: "pass the number on the last line of standard output to sunreg explain; if nothing is printed, read standard error",
};

static WRONG_WORDS: Meaning = Meaning {
    kind: Kind::Status,
    number: 2,
    means: "invalid arguments, or a text that is not a POSIX time zone",
    cause: "a misspelt command or option, or a value that is out of range",
    remedy: "read the message on standard error, and sunreg help COMMAND",
};

static FAILED: Meaning = Meaning {
    kind: Kind::Status,
    number: 3,
    means: "a file, stream or socket failed, or memory ran out outside the office (failed on standard error, and a line that says more)",
    cause: "a missing file, a port in use, or a device that can't be reached",
    remedy: "read the second line on standard error",
};

/// Returns the meaning of an exit status of the program.
pub fn exit_status(number: u32) -> Option<&'static Meaning>
    ensures { Answers Status number result }
{
    match number {
        0 => Some(&FINE),
        1 => Some(&REFUSED_INPUT),
        2 => Some(&WRONG_WORDS),
        3 => Some(&FAILED),
        _ => None,
    }
}
