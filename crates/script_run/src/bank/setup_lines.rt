//! Executes the lines that set up a simulated device.
ghost use Rattle.script_run.specs.Bank.Running as running;

use crate::bank::setup::Setup;
use command_io::{ExitStatus, InputLines, read_input};
use office_events::Refusal;
use script_text::{BankLine, write_bad_line, write_refusal};
use std::alloc::Global;
use std::io::{Read, Write};

// Executes a setup line of a simulated device, and prints `refused 12` if the register map refuses
// the line.
fn carry_out<W: Write>(setup: &mut Setup, said: &BankLine, output: &mut W) -> Result<(), ExitStatus>
    ensures { running.Carries setup.old said.now result setup.new
        (W.contents output.old) (W.contents output.new) }
{
    match setup.carry_out(said) {
        Ok(true) => Ok(()),
        Ok(false) => match write_refusal(Refusal::Limit, output) {
            Ok(()) => Ok(()),
            Err(_) => Err(ExitStatus::Failed),
        },
        Err(_) => Err(ExitStatus::Failed),
    }
}

// Parses and executes a setup line of a simulated device, or returns the exit status that ends the
// run.
fn run_line<W: Write>(
    setup: &mut Setup,
    number: u64,
    line: &[u8],
    output: &mut W,
) -> Result<(), ExitStatus>
    ensures { running.LineRuns setup.old (record { number = number; text = line.now }) result
        setup.new (W.contents output.old) (W.contents output.new) }
{
    match BankLine::read(line) {
        Some(said) => carry_out(setup, &said, output),
        None => match write_bad_line(number, output) {
            Ok(()) => Err(ExitStatus::Refused),
            Err(_) => Err(ExitStatus::Failed),
        },
    }
}

fn run_text<W: Write>(setup: &mut Setup, text: &[u8], output: &mut W) -> Result<(), ExitStatus>
    ensures { running.TextRuns setup.old text.now result setup.new
        (W.contents output.old) (W.contents output.new) }
{
    let mut lines = InputLines::new(text);
    while let Some(line) = lines.next_line() {
        match run_line(setup, line.number, line.text, output) {
            Ok(()) => {}
            Err(status) => return Err(status),
        }
    }
    Ok(())
}

/// Sets up a simulated device by the lines of an input, and prints `refused 12` for each line that
/// the register map refuses.
///
/// Prints `bad line N` for a malformed line, and `too long` for an input of more than `MOST_BYTES`
/// bytes; both end the run as `Refused`. If the input or the output fails or memory runs out, the
/// run ends as `Failed`.
pub fn set_up<R: Read, W: Write>(
    alloc: Global,
    input: &mut R,
    output: &mut W,
) -> Result<Setup, ExitStatus>
    ensures { running.SetUp (R.remaining input.old) result
        (W.contents output.old) (W.contents output.new) }
{
    let Ok(mut setup) = Setup::new(alloc) else {
        return Err(ExitStatus::Failed);
    };
    match read_input(alloc, input, output) {
        Ok(text) => match run_text(&mut setup, &text, output) {
            Ok(()) => Ok(setup),
            Err(status) => Err(status),
        },
        Err(status) => Err(status),
    }
}
