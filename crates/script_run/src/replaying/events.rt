//! Executes the events and commands of a script over a store in memory.
ghost use Rattle.std.specs.Prelude.{◌++◌, flat_map};
ghost use Rattle.office_events.specs.declared.refusals.Refusal.TheVariants as refusal;
ghost use Rattle.memory_books.specs.Listed.{ledger_of};
ghost use Rattle.office_books.specs.History.{History};
ghost use Rattle.office_core.specs.Standing.{Stands};
ghost use Rattle.script_run.specs.Replaying.Events.{EventPrints, ListPrints, StartPrints};
ghost use Rattle.script_run.specs.Replaying.TextRun.{CarriesOut, MayCarryOut};
ghost use Rattle.script_text.specs.AnswerText as text;
ghost use Rattle.sun_points.specs.Writing.{GotText};

use memory_books::ListBooks;
use office_core::Office;
use office_events::{Command, Event, PlannedList, PutList, Refusal, StartPoll};
use point_list::{FaultyRow, ListFault, read_list};
use script_text::{GivenList, GivenStart, write_accepted, write_faults, write_refusal};
use std::alloc::Global;
use std::io::{self, ErrorKind, Write};

/// Passes an event to the program (`Office`), and prints its answer or refusal.
pub fn feed<W: Write>(
    office: &mut Office<ListBooks>,
    at: u64,
    event: &Event,
    output: &mut W,
) -> io::Result<()>
    ensures { CarriesOut (λ now printed next. EventPrints now at event.now printed next)
        office.old office.new result (W.contents output.old) (W.contents output.new) }
{
    match office.feed(at, event) {
        Ok(answer) => write_accepted(&answer, office.notes(), office.outgoing(), output),
        Err(why) => write_refusal(why, output),
    }
}

/// Starts a Modbus read, or prints a refusal if one read request cannot cover the Modbus registers.
pub(crate) fn feed_start<W: Write>(
    office: &mut Office<ListBooks>,
    at: u64,
    start: &GivenStart,
    output: &mut W,
) -> io::Result<()>
    ensures { CarriesOut (λ now printed next. StartPrints now at start.now printed next)
        office.old office.new result (W.contents output.old) (W.contents output.new) }
{
    let device = start.device;
    match start.span() {
        Some(span) => {
            let poll = StartPoll { device, span };
            feed(
                office,
                at,
                &Event::Command(Command::StartPoll(poll)),
                output,
            )
        }
        None => write_refusal(Refusal::Limit, output),
    }
}

/// Stores a point list of a device, or prints the list's faulty rows.
pub(crate) fn feed_list<W: Write>(
    alloc: Global,
    office: &mut Office<ListBooks>,
    at: u64,
    list: &GivenList,
    output: &mut W,
) -> io::Result<()>
    ensures { (past : History) → Stands ledger_of past office.old
        → MayCarryOut (λ now printed next. ListPrints now at list.now printed next)
        past office.old office.new result (W.contents output.old) (W.contents output.new) }
{
    match read_list(alloc, list.text.as_slice()) {
        Ok(points) => {
            let Ok(planned) = PlannedList::new(alloc, points) else {
                return Err(io::Error::from(ErrorKind::OutOfMemory));
            };
            let put = PutList {
                device: list.device,
                list: planned,
            };
            feed(office, at, &Event::Command(Command::PutList(put)), output)
        }
        Err(ListFault::Faults(faults)) => refuse_list(faults.rows(), output),
        Err(ListFault::Memory) => Err(io::Error::from(ErrorKind::OutOfMemory)),
    }
}

// Prints one line for each faulty row of a point list, and then the line of the refusal `Limit`.
fn refuse_list<W: Write>(rows: &[FaultyRow], output: &mut W) -> io::Result<()>
    ensures { GotText result (flat_map text.fault_line rows.now ++ text.refused_line refusal.Limit)
        (W.contents output.old) (W.contents output.new) }
{
    write_faults(rows, output)?;
    write_refusal(Refusal::Limit, output)
}
