//! The tasks of commands that work on a database file, and their execution.
ghost use Rattle.std.specs.Prelude.{◌≡◌, Err, IfOk, IfErr};
ghost use Rattle.office_books.specs.History.{History};
ghost use Rattle.office_core.specs.Leaving.{BooksStand};
ghost use Rattle.store_tables.specs.declared.layouts.Layout.{Layout as TheLayout};
ghost use Rattle.store_tables.specs.Layouts.{IsNamedAs};
ghost use Rattle.office_program.specs.Entering.Lines.{reporting_of};
ghost use Rattle.stored_files.specs.BooksFound.{HasPast};
ghost use Rattle.stored_office.specs.Tasks.Tasks.{IsOf, Does, DoesOver};

use crate::advice::say_lacks;
use command_io::ExitStatus;
use energy_report::{ReportForm, StatementForm};
use mb_wire::sockets::Clock;
use memory_books::kept::CachedBooks;
use office_books::Books;
use office_program::{
    CommandEnd, NamedFiles, PollEnd, ServeEnd, enter_books, poll_books, report_books,
    report_range_books, serve_books, statement_books,
};
use office_running::{RunFault, Settings, Site, run_office};
use office_store::{OpenFault, SqlBooks};
use sqlite::{Alter, Connection};
use std::alloc::Global;
use std::io::Write;
use std::net::Net;
use std::rt::Files;

/// What a command does with the store in a database file.
#[derive(Clone, Copy)]
pub enum Task<'a> {
    /// Prints the energy of an accounting register (a named counter of a device) by civil day, with
    /// the function `report_books`.
    Report {
        register: &'a str,
    },
    /// Prints the energy of an accounting register (a named counter of a device) in a range of
    /// days, as `report_range_books` does. `form` has the days, the period, the unit and the
    /// format.
    ReportRange {
        register: &'a str,
        form: &'a ReportForm,
    },
    /// Prints the statements (reports to check a bill) of the meters of an accounting register (a
    /// named energy counter) for a range of days. The function `statement_books` prints the same.
    Statement {
        register: &'a str,
        form: &'a StatementForm,
    },
    /// Opens an event engine, and serves HTTP for `connections` connections on a port of a host.
    /// `names` are host names that the `Host` header of a request may have, besides those of this
    /// machine.
    Serve {
        host: &'a str,
        port: u16,
        names: &'a [&'a str],
        connections: u32,
    },
    /// Processes the requests, such as meter entries, in the lines of a text, and prints a line for
    /// each of them. The idempotency keys of the lines contain `caller`.
    Enter {
        caller: &'a str,
        text: &'a [u8],
    },
    /// Polls the device at a port of a host in one polling round, with the function `poll_books`.
    /// Then the function `say_lacks` reports which parts of the device's setup are missing in the
    /// store.
    Round {
        device: &'a str,
        host: &'a str,
        port: u16,
    },
    /// The task of the command `run`: polls devices on a schedule and serves HTTP, with the
    /// function `run_office`.
    Run {
        settings: &'a Settings<'a>,
        sites: &'a [Site],
    },
}

/// The result of a task that a command executed on a database file.
#[derive(Clone, Copy)]
pub enum Done {
    Reported(ExitStatus),
    Served(ServeEnd),
    Entered(ExitStatus),
    Polled(PollEnd),
    Ran(Result<(), RunFault>),
}

/// Executes a task over a store, and returns the store and the task's result. `files` reads the
/// files and device counters that an input text of the command `enter` names.
fn carry_out<
    R: Net + std::rt::Clock + Files,
    B: Books,
    F: NamedFiles,
    C: Clock,
    W: Write,
    E: Write,
>(
    rt: &R,
    alloc: Global,
    books: B,
    task: Task<'_>,
    files: &F,
    clock: &mut C,
    output: &mut W,
    errors: &mut E,
) -> CommandEnd<B, Done>
    ensures same { IsOf task.entry result.end }
    ensures does { (past : History) → BooksStand (B.ledger books) past
        → (B.ledger result.books).is_clean
        → Does B.ledger (reporting_of F.NamedFiles files.now) past
        (C.moments clock.old) (C.moments clock.new)
        (W.contents output.old) (W.contents output.new) books result.books task.entry result.end }
{
    match task {
        Task::Report { register } => {
            let done = report_books(alloc, books, register, clock, output);
            CommandEnd {
                books: done.books,
                end: Done::Reported(done.end),
            }
        }
        Task::ReportRange { register, form } => {
            let done = report_range_books(alloc, books, register, form, clock, output);
            CommandEnd {
                books: done.books,
                end: Done::Reported(done.end),
            }
        }
        Task::Statement { register, form } => {
            let done = statement_books(alloc, books, register, form, clock, output);
            CommandEnd {
                books: done.books,
                end: Done::Reported(done.end),
            }
        }
        Task::Serve {
            host,
            port,
            names,
            connections,
        } => {
            let at = (host, port);
            let done = serve_books(rt, alloc, books, at, names, connections, clock, output);
            CommandEnd {
                books: done.books,
                end: Done::Served(done.end),
            }
        }
        Task::Enter { caller, text } => {
            let done = enter_books(alloc, books, caller, text, files, clock, output);
            CommandEnd {
                books: done.books,
                end: Done::Entered(done.end),
            }
        }
        Task::Round { device, host, port } => {
            let done = poll_books(rt, alloc, books, device, (host, port), clock, output);
            let CommandEnd { mut books, end } = done;
            say_lacks(alloc, &mut books, device, end, errors);
            CommandEnd {
                books,
                end: Done::Polled(end),
            }
        }
        Task::Run { settings, sites } => {
            let done = run_office(rt, alloc, books, settings, sites, clock, output, errors);
            CommandEnd {
                books: done.books,
                end: Done::Ran(done.end),
            }
        }
    }
}

/// Opens the store in a database, and executes a task over it. Prints nothing if the store can't be
/// opened. `files` reads the files and device counters that an input text of the command `enter`
/// names.
pub fn carry_out_stored<
    R: Net + std::rt::Clock + Files,
    S: Alter + Drop,
    F: NamedFiles,
    C: Clock,
    W: Write,
    E: Write,
>(
    rt: &R,
    alloc: Global,
    connection: Connection<S>,
    task: Task<'_>,
    files: &F,
    clock: &mut C,
    output: &mut W,
    errors: &mut E,
) -> Result<Done, OpenFault>
    ensures foreign { ((layout : TheLayout) → ¬ IsNamedAs connection.schema layout)
        → result ≡ Err OpenFault.NotOurs }
    ensures silent { IfErr result (λ fault. output.new ≡ output.old) }
    ensures same { IfOk result (IsOf task.entry) }
    ensures does { (past : History) → HasPast S.Store connection past
        → IfOk result (DoesOver S.Store (reporting_of F.NamedFiles files.now) past
        (C.moments clock.old) (C.moments clock.new)
        (W.contents output.old) (W.contents output.new) task.entry) }
{
    match SqlBooks::open(alloc, connection) {
        Ok(opened) => {
            let books = CachedBooks::new(alloc, opened);
            let done = carry_out(rt, alloc, books, task, files, clock, output, errors);
            Ok(done.end)
        }
        Err(unopened) => Err(unopened.fault),
    }
}
