//! Executes the lines of a script over a store in memory.
ghost use Rattle.memory_books.specs.Listed.{ledger_of};
ghost use Rattle.office_books.specs.History.{History};
ghost use Rattle.office_core.specs.Standing.{Stands};
ghost use Rattle.script_run.specs.Replaying.Lines.{LinePrints};
ghost use Rattle.script_run.specs.Replaying.TextRun.{LineRuns, MayCarryOut};

use crate::replaying::events::{feed, feed_list, feed_start};
use crate::replaying::questions::{append_meter_lines, print_days, print_intervals, print_poll};
use command_io::ExitStatus;
use memory_books::ListBooks;
use office_core::Office;
use script_text::{LineFault, ScriptLine, write_bad_line};
use std::alloc::Global;
use std::io::{self, Write};

/// Executes a parsed script line, and prints its output.
pub fn carry_out<W: Write>(
    alloc: Global,
    office: &mut Office<ListBooks>,
    said: ScriptLine,
    output: &mut W,
) -> io::Result<()>
    ensures { (past : History) → Stands ledger_of past office.old
        → MayCarryOut (λ now printed next. LinePrints now said printed next)
        past office.old office.new result (W.contents output.old) (W.contents output.new) }
{
    match said {
        ScriptLine::Event { at, event } => feed(office, at, &event, output),
        ScriptLine::List { at, list } => feed_list(alloc, office, at, &list, output),
        ScriptLine::Start { at, start } => feed_start(office, at, &start, output),
        ScriptLine::Meter { name } => append_meter_lines(office, &name, output),
        ScriptLine::Intervals { name } => print_intervals(office, &name, output),
        ScriptLine::Days { name } => print_days(office, &name, output),
        ScriptLine::Poll { number } => print_poll(office, number, output),
    }
}

/// Parses and executes a line of a script (a text of commands, events and queries). Returns the
/// exit status if the line ends the run.
pub(crate) fn run_line<W: Write>(
    alloc: Global,
    office: &mut Office<ListBooks>,
    number: u64,
    line: &[u8],
    output: &mut W,
) -> Result<(), ExitStatus>
    ensures { (past : History) → Stands ledger_of past office.old
        → LineRuns past (record { number = number; text = line.now })
        office.old office.new result (W.contents output.old) (W.contents output.new) }
{
    match ScriptLine::read(alloc, line) {
        Ok(said) => match carry_out(alloc, office, said, output) {
            Ok(()) => Ok(()),
            Err(_) => Err(ExitStatus::Failed),
        },
        Err(LineFault::Bad) => match write_bad_line(number, output) {
            Ok(()) => Err(ExitStatus::Refused),
            Err(_) => Err(ExitStatus::Failed),
        },
        Err(LineFault::Memory) => Err(ExitStatus::Failed),
    }
}
