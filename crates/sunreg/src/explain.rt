//! Prints the meaning of a numeric code that the program printed.
use command_io::Buffered;
use printed_numbers::{Kind, Meaning, kinds, meaning_of};
use std::io::{self, Write};
use stored_files::{Ending, Failure};

/// An upper bound of the numeric codes that the program prints after a word such as `held`.
const MOST_NUMBER: u32 = 999;

// Returns a phrase that says what the numeric codes of a kind belong to, such as ` of an HTTP
// request`. Codes of several kinds are printed after the same word, such as `fault`.
fn owner(kind: Kind) -> &'static str {
    match kind {
        Kind::RowFault => " of a point list row",
        Kind::ChainFault => " of a model chain",
        Kind::HttpFault => " of an HTTP request",
        Kind::Refused
        | Kind::Held
        | Kind::Lost
        | Kind::Malformed
        | Kind::Exception
        | Kind::Status => "",
    }
}

// Returns the meaning of a numeric code of the kind `kind`. Returns `None` if the program never
// prints codes of this kind after the word `what`, or if the kind has no such code.
fn meaning_at(kind: Kind, what: &str, number: u32) -> Option<&'static Meaning> {
    if kind.word() == what {
        meaning_of(kind, number)
    } else {
        None
    }
}

fn write_meaning<W: Write>(meaning: &Meaning, output: &mut W) -> io::Result<()> {
    let Meaning {
        kind,
        number,
        means,
        cause,
        remedy,
    } = meaning;
    write!(
        output,
        "{} {number}{}: {means}\n",
        kind.word(),
        owner(*kind)
    )?;
    write!(output, "Usual cause: {cause}.\n")?;
    write!(output, "What to do: {remedy}.\n")
}

// Writes each meaning that the numeric code `number` has after the word `what`, with an empty line
// between two meanings. Returns how many meanings it wrote.
fn write_meanings<W: Write>(what: &str, number: u32, output: &mut W) -> io::Result<u32> {
    let mut count: u32 = 0;
    for kind in kinds() {
        if let Some(meaning) = meaning_at(*kind, what, number) {
            if count > 0 {
                output.write_all(b"\n")?;
            }
            write_meaning(meaning, output)?;
            count = count.saturating_add(1);
        }
    }
    Ok(count)
}

fn is_word(what: &str) -> bool {
    kinds().iter().any(|kind| kind.word() == what)
}

fn has_number(what: &str, number: u32) -> bool {
    kinds()
        .iter()
        .any(|kind| meaning_at(*kind, what, number).is_some())
}

// Writes all numeric codes that the program can print after the word `what`, such as `held`.
fn write_numbers<W: Write>(what: &str, output: &mut W) -> io::Result<()> {
    for number in 0..=MOST_NUMBER {
        if has_number(what, number) {
            write!(output, " {number}")?;
        }
    }
    Ok(())
}

// Writes which argument of the command `explain` is wrong, and which words or numeric codes are
// allowed.
fn write_fault<W: Write>(what: &str, number: &str, output: &mut W) -> io::Result<()> {
    if is_word(what) {
        write!(
            output,
            "error: invalid value '{number}' for '<NUMBER>': {what} has the numbers"
        )?;
        write_numbers(what, output)?;
        if what == Kind::Exception.word() {
            output.write_all(b"; a device may have others: see its manual")?;
        }
    } else {
        write!(
            output,
            "error: invalid value '{what}' for '<WHAT>': expected refused, held, lost, malformed, exception, fault or status"
        )?;
    }
    output.write_all(b"\n\nFor more information, try '--help'.\n")
}

fn wrong(rt: &HostRuntime, what: &str, number: &str) -> Ending<'static> {
    let mut text = Vec::new(rt.alloc());
    match write_fault(what, number, &mut text) {
        Ok(()) => match String::from_utf8(text) {
            Ok(text) => Ending::Wrong(text),
            Err(_) => Ending::Failed(Failure::Memory),
        },
        Err(_) => Ending::Failed(Failure::Memory),
    }
}

/// Prints the meaning of a numeric code that the program printed after the word `what`. If no such
/// code exists, returns an error text that lists the valid codes.
pub(crate) fn explain(rt: &HostRuntime, what: &str, number: &str) -> Ending<'static> {
    let Ok(value) = number.parse::<u32>() else {
        return wrong(rt, what, number);
    };
    let mut output = Buffered::new(io::writer(rt));
    let written = write_meanings(what, value, &mut output);
    let flushed = output.flush();
    match (written, flushed) {
        (Ok(0), Ok(())) => wrong(rt, what, number),
        (Ok(_), Ok(())) => Ending::Fine,
        _ => Ending::Failed(Failure::Streams),
    }
}
