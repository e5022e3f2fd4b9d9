//! Prints the answers of an office (the core of `sunreg`) to script lines, for tests.
use crate::offices::start_of;
use energy_report::RowLines;
use office_books::Books;
use office_core::Office;
use office_events::{Event, Refusal};
use script_text::{
    ScriptLine, write_accepted, write_end, write_meter, write_notes, write_poll, write_refusal,
};
use std::alloc::Global;
use std::io;
use std::process::Abort;

// Processes an event, and prints the notifications (outcomes of polls, and readings) that it
// caused, and the answer.
fn feed<B: Books>(
    office: &mut Office<B>,
    at: u64,
    event: &Event,
    output: &mut Vec<u8>,
) -> io::Result<()> {
    match office.feed(at, event) {
        Ok(answer) => write_accepted(&answer, office.notes(), office.outgoing(), output),
        Err(why) => {
            write_notes(office.notes(), output)?;
            write_refusal(why, output)
        }
    }
}

// Prints how many rows a query returned, or the reason why the query was refused.
fn write_count(answer: Result<(), Refusal>, count: u64, output: &mut Vec<u8>) -> io::Result<()> {
    match answer {
        Ok(()) => write_end(count, output),
        Err(why) => write_refusal(why, output),
    }
}

// Prints the answer of the office (the core of `sunreg`) to a query.
fn ask<B: Books>(
    office: &mut Office<B>,
    said: &ScriptLine,
    output: &mut Vec<u8>,
) -> io::Result<()> {
    match said {
        ScriptLine::Meter { name } => match office.meter(name) {
            Ok(row) => write_meter(&row, output),
            Err(why) => write_refusal(why, output),
        },
        ScriptLine::Poll { number } => match office.poll(*number) {
            Ok(row) => write_poll(&row, output),
            Err(why) => write_refusal(why, output),
        },
        ScriptLine::Intervals { name } => {
            let mut rows = RowLines::to(output);
            let answer = office.intervals(name, &mut rows);
            write_count(answer, rows.count, rows.output)
        }
        ScriptLine::Days { name } => {
            let mut rows = RowLines::to(output);
            let answer = office.days(name, &mut rows);
            write_count(answer, rows.count, rows.output)
        }
        _ => Ok(()),
    }
}

/// Returns the text that is printed for an event.
pub(crate) fn print_event<B: Books>(
    rt: &impl Abort,
    alloc: Global,
    office: &mut Office<B>,
    at: u64,
    event: &Event,
) -> Vec<u8> {
    let mut output = Vec::new(alloc);
    assert!(rt; feed(office, at, event, &mut output).is_ok());
    output
}

/// Executes a line of a script (a text of timed events, commands and queries) on an office (the
/// event engine). Returns the text that is printed for the line.
pub(crate) fn print_line<B: Books>(
    rt: &impl Abort,
    alloc: Global,
    office: &mut Office<B>,
    line: &str,
) -> Vec<u8> {
    let said = ScriptLine::read(alloc, line.as_bytes())
        .ok()
        .expect(rt, "a line");
    match &said {
        ScriptLine::Event { at, event } => print_event(rt, alloc, office, *at, event),
        ScriptLine::Start { at, start } => {
            print_event(rt, alloc, office, *at, &start_of(rt, start))
        }
        _ => {
            let mut output = Vec::new(alloc);
            assert!(rt; ask(office, &said, &mut output).is_ok());
            output
        }
    }
}
