//! Executes the queries in scripts, which ask for meters, polls and recorded energy.
ghost use Rattle.script_run.specs.Replaying.Asked.{DaysPrint, IntervalsPrint, MeterPrints, PollPrints};
ghost use Rattle.script_run.specs.Replaying.Asked.{last_line};
ghost use Rattle.script_run.specs.Replaying.TextRun.{CarriesOut};
ghost use Rattle.sun_points.specs.Writing.{GotText};

use energy_report::RowLines;
use memory_books::ListBooks;
use office_core::Office;
use office_events::{Name, Refusal};
use script_text::{write_end, write_meter, write_poll, write_refusal};
use std::io::{self, ErrorKind, Write};

/// Prints the line of a meter, with its last count, its total energy, and whether it was closed.
pub(crate) fn append_meter_lines<W: Write>(
    office: &mut Office<ListBooks>,
    name: &Option<Name>,
    output: &mut W,
) -> io::Result<()>
    ensures { CarriesOut (MeterPrints name.now)
        office.old office.new result (W.contents output.old) (W.contents output.new) }
{
    match office.meter(name) {
        Ok(row) => write_meter(&row, output),
        Err(why) => write_refusal(why, output),
    }
}

/// Prints the number and the outcome of a poll.
pub(crate) fn print_poll<W: Write>(
    office: &mut Office<ListBooks>,
    number: u64,
    output: &mut W,
) -> io::Result<()>
    ensures { CarriesOut (PollPrints number)
        office.old office.new result (W.contents output.old) (W.contents output.new) }
{
    match office.poll(number) {
        Ok(row) => write_poll(&row, output),
        Err(why) => write_refusal(why, output),
    }
}

/// Prints the energy of a meter in each quarter hour, in mWh.
pub(crate) fn print_intervals<W: Write>(
    office: &mut Office<ListBooks>,
    meter: &Option<Name>,
    output: &mut W,
) -> io::Result<()>
    ensures { CarriesOut (λ now printed next. IntervalsPrint now meter.now printed next)
        office.old office.new result (W.contents output.old) (W.contents output.new) }
{
    let mut rows = RowLines::to(output);
    let reported = office.intervals(meter, &mut rows);
    if rows.failed {
        return Err(io::Error::from(ErrorKind::Other));
    }
    write_last(reported, rows.count, rows.output)
}

/// Prints the energy of an accounting register (a named counter) on each civil day of the script's
/// time zone, in mWh.
pub(crate) fn print_days<W: Write>(
    office: &mut Office<ListBooks>,
    register: &Option<Name>,
    output: &mut W,
) -> io::Result<()>
    ensures { CarriesOut (λ now printed next. DaysPrint now register.now printed next)
        office.old office.new result (W.contents output.old) (W.contents output.new) }
{
    let mut rows = RowLines::to(output);
    let reported = office.days(register, &mut rows);
    if rows.failed {
        return Err(io::Error::from(ErrorKind::Other));
    }
    write_last(reported, rows.count, rows.output)
}

// Prints the last line of a query: `end N` with the number of rows, or the refusal that ended the
// query.
fn write_last<W: Write>(reported: Result<(), Refusal>, count: u64, output: &mut W) -> io::Result<()>
    ensures { GotText result (last_line count reported)
        (W.contents output.old) (W.contents output.new) }
{
    match reported {
        Ok(()) => write_end(count, output),
        Err(why) => write_refusal(why, output),
    }
}
