//! Processes one input line: feeds the line's request to the office (the engine that records
//! energy) and prints the answer.
ghost use Rattle.std.specs.Prelude.{◌≡◌, IfOk, true};
ghost use Rattle.office_program.specs.Passing.{Lasts};
ghost use Rattle.sun_points.specs.Writing.{GotText};
ghost use Rattle.script_text.specs.AnswerText.{refused_line};
ghost use Rattle.office_program.specs.Entering.Asking.{AsksAt, AsksTimed, EntersAt, EntersEntry, EntersNext, ReportsFault, ReportsWhyNot, reported_text};
ghost use Rattle.command_io.specs.Lines.{seen_line};
ghost use Rattle.office_program.specs.Entering.Course as course;
ghost use Rattle.office_program.specs.Entering.Course.{IsAskedAt, faults_text};
ghost use Rattle.office_program.specs.Entering.Lines.{reporting_of};

use crate::entering::doubts::doubt_of;
use crate::entering::entries::{Entry, entry_in};
use crate::entering::files::NamedFiles;
use crate::entering::progress::Progress;
use crate::entering::read_line::ReadRequest;
use crate::entering::reading::shown_for;
use command_io::{ExitStatus, InputLine};
use mb_wire::sockets::Clock;
use office_books::Books;
use office_core::Office;
use office_events::{Answer, Asked, Event, Name, Refusal};
use point_list::FaultyRow;
use script_text::{Line, LineFault, write_accepted, write_bad_line, write_faults, write_refusal};
use std::alloc::Global;
use std::io::{self, Write};
use sun_points::Sink;

// Prints the event engine's answer to the last event. If the event was accepted, prints its
// notifications and `ok`. Otherwise prints `refused N`.
fn print_reply<B: Books, W: Write>(
    office: &Office<B>,
    reply: Result<Answer, Refusal>,
    output: &mut W,
) -> io::Result<()>
    ensures { GotText result (reported_text office.now reply)
        (W.contents output.old) (W.contents output.new) }
{
    match reply {
        Ok(answer) => write_accepted(&answer, office.notes(), office.outgoing(), output),
        Err(why) => write_refusal(why, output),
    }
}

// Feeds a request to the event engine at timestamp `at`, and prints the engine's answer.
fn ask_at<B: Books, W: Write>(
    office: &mut Office<B>,
    progress: Progress,
    at: u64,
    event: &Event,
    output: &mut W,
) -> io::Result<Progress>
    ensures asks { AsksAt B.Books W.Write at event.now progress office.old office.new
        output.old output.new result }
    ensures lasts { Lasts B.ledger office.old office.new }
{
    let reply = office.feed(at, event);
    match print_reply(office, reply, output) {
        Ok(()) => Ok(progress.asked(at, reply.is_err())),
        Err(error) => Err(error),
    }
}

fn doubted_line(mwh: u128) -> Line
    ensures { result ≡ course.doubted_line mwh }
{
    let mut line = Line::new();
    line.push_number(b"doubted ", mwh);
    line.push(b"\n");
    line
}

fn print_doubt<W: Write>(mwh: u128, output: &mut W) -> io::Result<()>
    ensures { GotText result (course.doubted_line mwh)
        (W.contents output.old) (W.contents output.new) }
{
    output.take_text(doubted_line(mwh).bytes())
}

// Prints that a manual entry needs a confirmation: it would record more energy than the meter's
// power limit allows. Returns the progress (latest timestamp, any refusal) after the input line
// with this entry.
fn print_doubted<W: Write>(mwh: u128, at: u64, output: &mut W) -> io::Result<Progress>
    ensures { ReportsWhyNot (course.doubted_line mwh) at
        (W.contents output.old) (W.contents output.new) result }
{
    match print_doubt(mwh, output) {
        Ok(()) => Ok(Progress::unasked(at)),
        Err(error) => Err(error),
    }
}

// Prints the refusal of a query that an input line needs, for example the query whether the line's
// manual entry needs a confirmation. Returns the progress (latest timestamp, any refusal) after
// this line.
fn print_undecided<W: Write>(why: Refusal, at: u64, output: &mut W) -> io::Result<Progress>
    ensures { ReportsWhyNot (refused_line why) at
        (W.contents output.old) (W.contents output.new) result }
{
    match write_refusal(why, output) {
        Ok(()) => Ok(Progress::unasked(at)),
        Err(error) => Err(error),
    }
}

fn print_unread<W: Write>(at: u64, output: &mut W) -> io::Result<Progress>
    ensures { ReportsWhyNot course.unread_line at
        (W.contents output.old) (W.contents output.new) result }
{
    match output.take_text(b"unread\n") {
        Ok(()) => Ok(Progress::unasked(at)),
        Err(error) => Err(error),
    }
}

// Returns the timestamp of the next input line. This is the clock's time, or the timestamp of the
// previous line if that timestamp is later.
fn moment<C: Clock>(progress: Progress, clock: &mut C) -> u64
    ensures { IsAskedAt progress.latest (C.moments clock.old) (C.moments clock.new) result }
{
    let reported = clock.now();
    progress.latest.max(reported)
}

// Feeds a request to the event engine and prints the engine's answer. If the request's manual entry
// needs a confirmation, feeds nothing and prints only the energy that the entry would record.
fn ask<B: Books, W: Write>(
    office: &mut Office<B>,
    progress: Progress,
    at: u64,
    asked: Asked,
    output: &mut W,
) -> io::Result<Progress>
    ensures enters { AsksTimed B.Books W.Write asked progress at
        office.old office.new output.old output.new result }
    ensures lasts { Lasts B.ledger office.old office.new }
{
    match doubt_of(office, at, &asked) {
        Ok(doubt) => match doubt {
            Some(mwh) => print_doubted(mwh, at, output),
            None => ask_at(office, progress, at, &Event::Asked(asked), output),
        },
        Err(why) => print_undecided(why, at, output),
    }
}

// Reads the meter's counter for an input line with `@read`, a placeholder for the reading. Then
// feeds the line's request to the event engine and prints the answer, as for a line without
// `@read`.
fn read_and_ask<B: Books, F: NamedFiles, W: Write>(
    office: &mut Office<B>,
    progress: Progress,
    at: u64,
    read: ReadRequest,
    files: &F,
    output: &mut W,
) -> io::Result<Progress>
    ensures enters { EntersAt B.Books W.Write (reporting_of F.NamedFiles files.now) (Entry.Read read)
        progress at office.old office.new output.old output.new result }
    ensures lasts { Lasts B.ledger office.old office.new }
{
    match shown_for(office, &read, files) {
        Ok(found) => match found {
            Some(shown) => ask(office, progress, at, read.asked(shown), output),
            None => print_unread(at, output),
        },
        Err(why) => print_undecided(why, at, output),
    }
}

/// Prints a line for each faulty row of a point list, followed by `refused N`.
pub(crate) fn print_faults<W: Write>(rows: &[FaultyRow], output: &mut W) -> io::Result<()>
    ensures { GotText result (faults_text rows.now)
        (W.contents output.old) (W.contents output.new) }
{
    write_faults(rows, output)?;
    write_refusal(Refusal::Limit, output)
}

// Prints the faulty rows of a point list. Returns the progress (latest timestamp, any refusal)
// after the input line with this list.
fn print_list_faults<W: Write>(
    rows: &[FaultyRow],
    progress: Progress,
    output: &mut W,
) -> io::Result<Progress>
    ensures text { GotText result (faults_text rows.now)
        (W.contents output.old) (W.contents output.new) }
    ensures next { IfOk result
        (λ next. next ≡ record { latest = progress.latest; refused = true }) }
{
    match print_faults(rows, output) {
        Ok(()) => Ok(progress.faulty()),
        Err(error) => Err(error),
    }
}

// Feeds the request of an input line to the event engine. If the line's point list has faulty rows,
// prints these rows instead. If the line's manual entry needs a confirmation, prints the entry's
// energy instead.
fn enter_entry<B: Books, C: Clock, F: NamedFiles, W: Write>(
    office: &mut Office<B>,
    progress: Progress,
    entry: Entry,
    files: &F,
    clock: &mut C,
    output: &mut W,
) -> io::Result<Progress>
    ensures enters { EntersEntry B.Books C.Clock W.Write (reporting_of F.NamedFiles files.now) entry
        progress office.old office.new clock.old clock.new output.old output.new result }
    ensures lasts { Lasts B.ledger office.old office.new }
{
    match entry {
        Entry::Ask(asked) => {
            let at = moment(progress, clock);
            ask(office, progress, at, asked, output)
        }
        Entry::Read(read) => {
            let at = moment(progress, clock);
            read_and_ask(office, progress, at, read, files, output)
        }
        Entry::Faulty(faults) => print_list_faults(faults.rows(), progress, output),
    }
}

// Prints a message if the input line is bad, and nothing if memory ran out. Returns the exit status
// of the command that enters the input.
fn print_one_fault<W: Write>(fault: LineFault, number: u64, output: &mut W) -> ExitStatus
    ensures { ReportsFault fault number result (W.contents output.old) (W.contents output.new) }
{
    match fault {
        LineFault::Bad => match write_bad_line(number, output) {
            Ok(()) => ExitStatus::Refused,
            Err(_) => ExitStatus::Failed,
        },
        LineFault::Memory => ExitStatus::Failed,
    }
}

/// Processes one input line. Feeds the line's request to the event engine and prints the answer, or
/// prints why the line makes no request.
pub(crate) fn enter_line<B: Books, C: Clock, F: NamedFiles, W: Write>(
    alloc: Global,
    office: &mut Office<B>,
    caller: &Option<Name>,
    progress: Progress,
    line: InputLine<'_>,
    files: &F,
    clock: &mut C,
    output: &mut W,
) -> Result<Progress, ExitStatus>
    ensures enters { EntersNext B.Books C.Clock W.Write (reporting_of F.NamedFiles files.now)
        caller.now (seen_line line.entry) progress office.old office.new clock.old clock.new
        output.old output.new result }
    ensures lasts { Lasts B.ledger office.old office.new }
{
    match entry_in(alloc, *caller, line.text, files) {
        Ok(entry) => match enter_entry(office, progress, entry, files, clock, output) {
            Ok(next) => Ok(next),
            Err(_) => Err(ExitStatus::Failed),
        },
        Err(fault) => Err(print_one_fault(fault, line.number, output)),
    }
}
