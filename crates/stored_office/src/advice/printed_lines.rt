//! Writes explanations of the lines that a round of polls printed.
ghost use Rattle.std.specs.Prelude.{◌≡◌, OnOk, false};
ghost use Rattle.command_io.specs.Lines.{speaking_lines};
ghost use Rattle.stored_office.specs.Advice.Ends.{has_messages};
ghost use Rattle.stored_office.specs.Advice.PrintedLines as printing;
ghost use Rattle.stored_office.specs.Advice.PrintedLines.{Explains, ExplainsLine};

use crate::advice::ends::has_messages;
use crate::advice::remarks::{Remark, remark_in, write_remark};
use command_io::InputLines;
use office_events::Name;
use office_program::PollEnd;
use std::alloc::{AllocError, Global};
use std::io::Write;

// Returns whether the function `say_remarks` explains the printed refusal or rejected reading. This
// function explains all except refusal 1 (an unknown device or list), which the function
// `say_lacks` explains.
fn is_left(remark: &Remark) -> bool
    ensures { result ≡ printing.is_left remark.now }
{
    match remark {
        Remark::Refused(number) => *number != 1,
        Remark::Held(_, _) => true,
    }
}

// Appends to a text the explanation of a line that a polling round printed, such as `refused N`.
// Appends nothing for refusal 1, which the function `say_lacks` explains, and for lines without an
// explanation.
fn write_line(text: &mut Vec<u8>, device: &Option<Name>, line: &[u8]) -> Result<(), AllocError>
    ensures { OnOk result (ExplainsLine device.now line.now text.old.items text.new.items) }
{
    let Some(remark) = remark_in(line) else {
        return Ok(());
    };
    if is_left(&remark) {
        write_remark(text, device, remark)
    } else {
        Ok(())
    }
}

// Appends to a text the explanations of all lines that a round of polls printed.
fn write_remarks(
    text: &mut Vec<u8>,
    device: &Option<Name>,
    printed: &[u8],
) -> Result<(), AllocError>
    ensures { OnOk result (Explains device.now (speaking_lines printed.now)
        text.old.items text.new.items) }
{
    let mut lines = InputLines::new(printed);
    while let Some(line) = lines.next_line() {
        write_line(text, device, line.text)?;
    }
    Ok(())
}

/// Writes the meaning and the remedy of each refusal and rejected reading that a round of polls
/// printed. Writes nothing if the round failed without a refusal. If memory or the writer fails,
/// some lines may be missing.
pub fn say_remarks<E: Write>(
    alloc: Global,
    device: &str,
    end: PollEnd,
    printed: &[u8],
    errors: &mut E,
)
    ensures silent { has_messages end ≡ false → errors.new ≡ errors.old }
{
    if !has_messages(end) {
        return;
    }
    let mut text = Vec::new(alloc);
    let _put = write_remarks(&mut text, &Name::new(device.as_bytes()), printed);
    let _said = errors.write_all(&text);
}
