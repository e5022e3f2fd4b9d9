//! Explains why the command `enter` did not accept lines of its input, such as meter readings.
use crate::advice::remarks::{Remark, remark_in};
use command_io::{InputLine, InputLines};
use printed_numbers::{Kind, meaning_of};
use std::io::{self, Write};

/// The number of bytes of an input line that a message repeats. An input line with a point list can
/// be much longer.
const SHOWN: usize = 60;

const DOUBTED: &[u8] =
    b": more energy than the meter's ceiling allows; to confirm it, add ! to the line, and enter the line again";

const UNREAD: &[u8] = b": the counter was not read, or no register has this name";

const BAD: &[u8] =
    b": it has the form of no line, or names a file that can't be read; the lines after it were not executed";

// Returns the beginning of an input line, at most as many bytes as a message repeats.
fn beginning(line: &[u8]) -> &[u8] {
    line.get(..SHOWN).unwrap_or(line)
}

// Writes what the answer to an input line (such as a refusal) means, and what the user can do.
fn write_meaning<E: Write>(answer: &[u8], errors: &mut E) -> io::Result<()> {
    if let Some(Remark::Refused(number)) = remark_in(answer) {
        return match meaning_of(Kind::Refused, number) {
            Some(meaning) => write!(errors, ": {}; {}", meaning.means, meaning.remedy),
            None => Ok(()),
        };
    }
    if answer.starts_with(b"doubted ") {
        errors.write_all(DOUBTED)
    } else if answer.starts_with(b"bad line ") {
        errors.write_all(BAD)
    } else {
        errors.write_all(UNREAD)
    }
}

// Writes an input line of the command `enter`, the answer to this line, and what the answer means.
fn write_line<E: Write>(line: InputLine<'_>, answer: &[u8], errors: &mut E) -> io::Result<()> {
    write!(errors, "sunreg: line {}: ", line.number)?;
    errors.write_all(beginning(line.text))?;
    errors.write_all(b": ")?;
    errors.write_all(answer)?;
    write_meaning(answer, errors)?;
    errors.write_all(b"\n")
}

/// Explains each line of the input `text` that was not accepted. `printed` is the output of the
/// command `enter`: an answer for each input line, after the faulty rows of the line's point list.
/// Ignores a failure to write.
pub fn say_unaccepted<E: Write>(text: &[u8], printed: &[u8], errors: &mut E) {
    let mut lines = InputLines::new(text);
    let mut answers = InputLines::new(printed);
    while let Some(answer) = answers.next_line() {
        let answer = answer.text;
        if !answer.starts_with(b"row ") {
            let Some(line) = lines.next_line() else {
                return;
            };
            if answer != b"ok".as_slice() {
                let _said = write_line(line, answer, errors);
            }
        }
    }
}
