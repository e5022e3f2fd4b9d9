//! Runs the lines of a script (a text of commands, events and queries) in order over a store in
//! memory.
ghost use Rattle.script_run.specs.Replaying.TextRun.{InputRuns, TextRuns};
ghost use Rattle.std.specs.Prelude.{IfSome};

use crate::replaying::lines::run_line;
use command_io::{ExitStatus, InputLines, read_input};
use interval_core::Zone;
use memory_books::ListBooks;
use office_core::Office;
use script_text::write_refusal;
use std::alloc::Global;
use std::io::{Read, Write};

// Runs the lines of a script over a new store in memory. Timestamps begin at 0.
fn run_text<W: Write>(alloc: Global, zone: Zone, text: &[u8], output: &mut W) -> ExitStatus
    ensures { TextRuns zone text.now result (W.contents output.old) (W.contents output.new) }
{
    let mut office = match Office::open(alloc, ListBooks::new(alloc, zone), 0) {
        Ok(office) => office,
        Err((_, why)) => {
            return match write_refusal(why, output) {
                Ok(()) => ExitStatus::Refused,
                Err(_) => ExitStatus::Failed,
            };
        }
    };
    let mut lines = InputLines::new(text);
    while let Some(line) = lines.next_line() {
        match run_line(alloc, &mut office, line.number, line.text, output) {
            Ok(()) => {}
            Err(status) => return status,
        }
    }
    ExitStatus::Fine
}

/// Reads an input, and runs it as a script.
pub(crate) fn run_input<R: Read, W: Write>(
    alloc: Global,
    zone: Zone,
    input: &mut R,
    output: &mut W,
) -> ExitStatus
    ensures { IfSome (R.remaining input.old)
        (λ all. InputRuns zone all result (W.contents output.old) (W.contents output.new)) }
{
    match read_input(alloc, input, output) {
        Ok(text) => run_text(alloc, zone, &text, output),
        Err(status) => status,
    }
}
