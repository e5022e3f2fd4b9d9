//! Runs a script with simulated devices.
ghost use Rattle.std.specs.Prelude.{IfSome};
ghost use Rattle.script_run.specs.Bank.Settings as setting;
ghost use Rattle.script_run.specs.Looping.TextRun.{InputRuns, LinesRun, ReportsText, TextRuns};
ghost use Rattle.script_run.specs.Looping.Standings.{loop_state};
ghost use Rattle.script_text.specs.AnswerText.{bad_line, refused_line};

use crate::bank::empty_bank;
use crate::looping::lines::{Run, run_line};
use crate::looping::wires::{Connects, Wires};
use command_io::{ExitStatus, InputLines, read_input};
use interval_core::Zone;
use mb_device::{Bank, Trick};
use memory_books::ListBooks;
use office_core::Office;
use office_events::{Event, Refusal};
use script_text::{BankLine, LineFault, ScriptLine, write_bad_line, write_refusal};
use std::alloc::{AllocError, Global};
use std::io::{Read, Write};

/// Runs a script with a store in memory. All devices of the script are one simulator in this
/// process.
///
/// The function `loop_text` executes script lines as [`replay`](crate::replay) does without
/// simulated devices, with these differences:
///
/// - Lines that set up the simulator may come between script lines. They print `ok`, or `refused
///   12` if the register map refuses them. The lines `area` (addresses) and `trick` (an injected
///   fault) must precede the first line `connect`.
/// - A script line `connect`, which reports that a device is connected, also opens a connection
///   from the program to the simulator.
/// - A script line that starts Modbus reads sends the request frames to the simulator, and passes
///   the responses to the program at once. The notifications and `ok` follow the line `started`.
/// - A script line with bytes that a device sends is a bad line: it prints `bad line N` and ends
///   the run.
pub fn loop_text<R: Read, C: Connects, W: Write>(
    alloc: Global,
    zone: Zone,
    input: &mut R,
    connects: &mut C,
    output: &mut W,
) -> ExitStatus
    ensures { IfSome (R.remaining input.old)
        (λ all. InputRuns zone all result (W.contents output.old) (W.contents output.new)) }
{
    match read_input(alloc, input, output) {
        Ok(text) => run_text(alloc, zone, &text, connects, output),
        Err(status) => status,
    }
}

// Returns the faults to inject, from the lines of a text before the first line that connects a
// device.
fn tricks_in(alloc: Global, text: &[u8]) -> Result<Vec<(u64, Trick)>, AllocError> {
    let mut tricks = Vec::new(alloc);
    let mut lines = InputLines::new(text);
    while let Some(line) = lines.next_line() {
        match BankLine::read(line.text) {
            Some(BankLine::Trick { frame, trick }) => tricks.push((frame, trick))?,
            Some(BankLine::Area(_) | BankLine::Set(_)) => {}
            None => {
                if connects_device(alloc, line.text)? {
                    return Ok(tricks);
                }
            }
        }
    }
    Ok(tricks)
}

fn connects_device(alloc: Global, line: &[u8]) -> Result<bool, AllocError> {
    match ScriptLine::read(alloc, line) {
        Ok(ScriptLine::Event { event, .. }) => Ok(matches!(&event, Event::Connected(_))),
        Ok(_) | Err(LineFault::Bad) => Ok(false),
        Err(LineFault::Memory) => Err(AllocError),
    }
}

// Runs the lines of a loop (a script with simulated devices) over a new store in memory. Timestamps
// begin at 0.
fn run_text<C: Connects, W: Write>(
    alloc: Global,
    zone: Zone,
    text: &[u8],
    connects: &mut C,
    output: &mut W,
) -> ExitStatus
    ensures { TextRuns zone text.now result (W.contents output.old) (W.contents output.new) }
{
    let Ok(tricks) = tricks_in(alloc, text) else {
        return ExitStatus::Failed;
    };
    let Ok(bank) = empty_bank(alloc) else {
        return ExitStatus::Failed;
    };
    run_opened(alloc, zone, text, bank, &tricks, connects, output)
}

// Runs the lines of a loop (a script with simulated devices) over a new store in memory. The given
// register map must be empty.
fn run_opened<C: Connects, W: Write>(
    alloc: Global,
    zone: Zone,
    text: &[u8],
    bank: Bank,
    tricks: &[(u64, Trick)],
    connects: &mut C,
    output: &mut W,
) -> ExitStatus
    requires { setting.AreUnset bank }
    ensures { TextRuns zone text.now result (W.contents output.old) (W.contents output.new) }
{
    match Office::open(alloc, ListBooks::new(alloc, zone), 0) {
        Ok(office) => {
            let mut run = Run {
                office,
                bank,
                wires: Wires::new(alloc, tricks),
                connected: false,
            };
            run_lines(alloc, &mut run, text, connects, output)
        }
        Err((_, why)) => print_refused(why, output),
    }
}

// Prints the refusal that explains why a script could not start, such as `refused 14` (out of
// memory).
fn print_refused<W: Write>(why: Refusal, output: &mut W) -> ExitStatus
    ensures { ReportsText (refused_line why) result (W.contents output.old) (W.contents output.new) }
{
    match write_refusal(why, output) {
        Ok(()) => ExitStatus::Refused,
        Err(_) => ExitStatus::Failed,
    }
}

fn print_bad_line<W: Write>(number: u64, output: &mut W) -> ExitStatus
    ensures { ReportsText (bad_line number) result (W.contents output.old) (W.contents output.new) }
{
    match write_bad_line(number, output) {
        Ok(()) => ExitStatus::Refused,
        Err(_) => ExitStatus::Failed,
    }
}

fn run_lines<C: Connects, W: Write>(
    alloc: Global,
    run: &mut Run<'_, C::End>,
    text: &[u8],
    connects: &mut C,
    output: &mut W,
) -> ExitStatus
    ensures { LinesRun result text.now
        (loop_state run.old.office run.old.bank run.old.connected (W.contents output.old))
        (W.contents output.new) }
{
    let mut lines = InputLines::new(text);
    while let Some(line) = lines.next_line() {
        match run_line(alloc, run, line.text, connects, output) {
            Ok(fine) => {
                if !fine {
                    return print_bad_line(line.number, output);
                }
            }
            Err(_) => return ExitStatus::Failed,
        }
    }
    ExitStatus::Fine
}
