//! Runs scripts (texts of commands, events and queries) over any store.

use crate::replaying::Replayed;
use command_io::{Buffered, ExitStatus, InputLines, read_input};
use energy_report::RowLines;
use office_books::Books;
use office_core::Office;
use office_events::{Command, Event, PlannedList, PutList, Refusal, StartPoll};
use point_list::{ListFault, read_list};
use script_text::{
    GivenList, LineFault, ScriptLine, write_accepted, write_bad_line, write_end, write_faults,
    write_meter, write_poll, write_refusal,
};
use std::alloc::Global;
use std::io::{self, ErrorKind, Read, Write};

// Passes an event to the program (`Office`), which accepts or refuses the event, and writes the
// answer or refusal.
fn feed_event<B: Books, W: Write>(
    office: &mut Office<B>,
    at: u64,
    event: &Event,
    output: &mut W,
) -> io::Result<()> {
    match office.feed(at, event) {
        Ok(answer) => write_accepted(&answer, office.notes(), office.outgoing(), output),
        Err(why) => write_refusal(why, output),
    }
}

// Stores a point list of a device, or writes the list's faulty rows.
fn feed_rows<B: Books, W: Write>(
    alloc: Global,
    office: &mut Office<B>,
    at: u64,
    list: &GivenList,
    output: &mut W,
) -> io::Result<()> {
    let points = match read_list(alloc, list.text.as_slice()) {
        Ok(points) => points,
        Err(ListFault::Faults(faults)) => {
            write_faults(faults.rows(), output)?;
            return write_refusal(Refusal::Limit, output);
        }
        Err(ListFault::Memory) => return Err(io::Error::from(ErrorKind::OutOfMemory)),
    };
    let Ok(planned) = PlannedList::new(alloc, points) else {
        return Err(io::Error::from(ErrorKind::OutOfMemory));
    };
    let put = PutList {
        device: list.device,
        list: planned,
    };
    feed_event(office, at, &Event::Command(Command::PutList(put)), output)
}

// Writes the last line of a query: `end N` with the number of rows, or the refusal that ended the
// query.
fn write_count<W: Write>(
    answered: Result<(), Refusal>,
    failed: bool,
    count: u64,
    output: &mut W,
) -> io::Result<()> {
    match answered {
        _ if failed => Err(io::Error::from(ErrorKind::Other)),
        Ok(()) => write_end(count, output),
        Err(why) => write_refusal(why, output),
    }
}

// Executes a script line over any store, and writes its output.
fn play_line<B: Books, W: Write>(
    alloc: Global,
    office: &mut Office<B>,
    said: ScriptLine,
    output: &mut W,
) -> io::Result<()> {
    match said {
        ScriptLine::Event { at, event } => feed_event(office, at, &event, output),
        ScriptLine::List { at, list } => feed_rows(alloc, office, at, &list, output),
        ScriptLine::Start { at, start } => match start.span() {
            Some(span) => {
                let device = start.device;
                let poll = StartPoll { device, span };
                feed_event(
                    office,
                    at,
                    &Event::Command(Command::StartPoll(poll)),
                    output,
                )
            }
            None => write_refusal(Refusal::Limit, output),
        },
        ScriptLine::Meter { name } => match office.meter(&name) {
            Ok(row) => write_meter(&row, output),
            Err(why) => write_refusal(why, output),
        },
        ScriptLine::Poll { number } => match office.poll(number) {
            Ok(row) => write_poll(&row, output),
            Err(why) => write_refusal(why, output),
        },
        ScriptLine::Intervals { name } => {
            let mut rows = RowLines::to(output);
            let answered = office.intervals(&name, &mut rows);
            write_count(answered, rows.failed, rows.count, rows.output)
        }
        ScriptLine::Days { name } => {
            let mut rows = RowLines::to(output);
            let answered = office.days(&name, &mut rows);
            write_count(answered, rows.failed, rows.count, rows.output)
        }
    }
}

// Executes the lines of a script (a text of commands, events and queries) in order, up to the first
// line that cannot be parsed.
fn play_text<B: Books, W: Write>(
    alloc: Global,
    office: &mut Office<B>,
    text: &[u8],
    output: &mut W,
) -> Result<ExitStatus, io::Error> {
    let mut lines = InputLines::new(text);
    // A script (a text of commands, events and queries) has fewer than 2^64 - 1 lines, so the loop
    // always ends at the last line.
    for _ in 0..u64::MAX {
        let Some(line) = lines.next_line() else {
            break;
        };
        match ScriptLine::read(alloc, line.text) {
            Ok(said) => play_line(alloc, office, said, output)?,
            Err(LineFault::Bad) => {
                write_bad_line(line.number, output)?;
                return Ok(ExitStatus::Refused);
            }
            Err(LineFault::Memory) => return Err(io::Error::from(ErrorKind::OutOfMemory)),
        }
    }
    Ok(ExitStatus::Fine)
}

// Starts the program (`Office`) over a store. The program's time begins at the latest timestamp in
// the store.
fn open_office<B: Books>(alloc: Global, books: B) -> Result<Office<B>, Refusal> {
    let mut books = books;
    let moment = match books.latest() {
        Ok(moment) => moment,
        Err(fault) => return Err(Refusal::from(fault)),
    };
    match Office::open(alloc, books, moment) {
        Ok(office) => Ok(office),
        Err((_, why)) => Err(why),
    }
}

// Starts the program (`Office`) over a store, and executes the lines of a script.
fn play_books<B: Books, W: Write>(
    alloc: Global,
    books: B,
    text: &[u8],
    output: &mut W,
) -> Result<ExitStatus, io::Error> {
    match open_office(alloc, books) {
        Ok(office) => {
            let mut office = office;
            play_text(alloc, &mut office, text, output)
        }
        Err(why) => {
            write_refusal(why, output)?;
            Ok(ExitStatus::Refused)
        }
    }
}

/// Runs a script over any store, as [`replay`](crate::replay) does over a store in memory.
///
/// The script's time begins at the latest timestamp of the store, which is 0 in a new store. Days
/// are civil days in the store's time zone.
pub fn replay_books<B: Books, R: Read, W: Write>(
    alloc: Global,
    books: B,
    input: &mut R,
    output: W,
) -> Replayed<W> {
    let mut buffered = Buffered::new(output);
    let played = match read_input(alloc, input, &mut buffered) {
        Ok(text) => play_books(alloc, books, &text, &mut buffered).unwrap_or(ExitStatus::Failed),
        Err(status) => status,
    };
    let status = match buffered.flush() {
        Ok(()) => played,
        Err(_) => ExitStatus::Failed,
    };
    Replayed {
        status,
        output: buffered.into_output(),
    }
}
