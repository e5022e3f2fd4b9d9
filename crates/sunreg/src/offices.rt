//! Executes the commands that open a database file.
ghost use Rattle.std.specs.Prelude.{IfOk};
ghost use Rattle.stored_office.specs.Tasks.Tasks.{IsOf};

use crate::command_output::CommandOutput;
use crate::onward_clock::OnwardClock;
use crate::run_words::sites_of;
use command_words::Device;
use file_commands::{Escaped, OfficeFiles, but_last, earlier_registers, last_of, open_in};
use mb_wire::sockets::{Clock, SystemClock};
use office_program::NamedFiles;
use office_running::{Settings, Site, say_ahead};
use sqlite::Connection;
use std::io::{self, ErrorKind, Printer, Write};
use stored_files::{Databases, Ending, Failure, latest_stored, log_of, request_bytes};
use stored_office::{
    Done, Task, carry_out_stored, ending_of_done, may_be_ahead, say_remarks, say_unaccepted,
};

/// The host on which the program serves HTTP.
pub(crate) const OWN_HOST: &str = "127.0.0.1";

/// Executes a task, such as a report or a polling round, on a database, and flushes the task's
/// output. After a polling round, explains the refusals and rejected readings that the round
/// printed.
pub(crate) fn over_office<'a, D: Databases + NamedFiles>(
    rt: &HostRuntime,
    files: &D,
    path: &'a str,
    task: Task<'_>,
) -> Result<Done, Failure<'a>>
    ensures same { IfOk result (IsOf task.entry) }
{
    let connection = open_in(rt, files, path)?;
    let mut clock = OnwardClock::new(SystemClock::new(rt));
    over_connection(rt, files, path, connection, task, &mut clock)
}

// Executes a task over an open connection to a database, with timestamps from `clock`.
fn over_connection<'a, D: Databases + NamedFiles, C: Clock>(
    rt: &HostRuntime,
    files: &D,
    path: &'a str,
    connection: Connection<D::Store>,
    task: Task<'_>,
    clock: &mut C,
) -> Result<Done, Failure<'a>>
    ensures same { IfOk result (IsOf task.entry) }
{
    let Ok(mut output) = output_of(rt, task) else {
        return Err(Failure::Memory);
    };
    let mut errors = rt.stderr();
    let done = carry_out_stored(
        rt,
        rt.alloc(),
        connection,
        task,
        files,
        clock,
        &mut output,
        &mut errors,
    );
    match (output.flush(), done) {
        // The remaining output is dropped if the reader of standard output has closed its end.
        (Err(error), Ok(Done::Ran(end))) if error.kind() == ErrorKind::BrokenPipe => {
            Ok(Done::Ran(end))
        }
        (Err(_), _) => Err(Failure::Streams),
        (Ok(()), Ok(done)) => {
            if may_be_ahead(done) && is_said_ahead(rt, files, path, clock) {
                return Ok(done);
            }
            match (task, done) {
                (Task::Round { device, .. }, Done::Polled(end)) => {
                    say_remarks(rt.alloc(), device, end, output.kept(), &mut errors);
                }
                (Task::Enter { text, .. }, Done::Entered(_)) => {
                    say_unaccepted(text, output.kept(), &mut Escaped::new(errors));
                }
                _ => {}
            }
            Ok(done)
        }
        (Ok(()), Err(fault)) => Err(Failure::Unopened { path, fault }),
    }
}

// If the latest record in a database is later than the clock, reports both times and a remedy.
// Returns whether the latest record is later than the clock.
fn is_said_ahead<D: Databases, C: Clock>(
    rt: &HostRuntime,
    files: &D,
    path: &str,
    clock: &mut C,
) -> bool {
    let Ok(connection) = files.open(path) else {
        return false;
    };
    match latest_stored(rt.alloc(), connection) {
        Ok(latest) => say_ahead(latest, clock.now(), &mut rt.stderr()),
        Err(_) => false,
    }
}

// Returns the writer for a task's output. A polling round of one device and the command `run` write
// line by line, and other tasks write in chunks. The output of a round is also stored, because the
// numeric codes in this output are explained afterwards.
fn output_of<'r>(
    rt: &'r HostRuntime,
    task: Task<'_>,
) -> io::Result<CommandOutput<Printer<'r, HostRuntime>>> {
    match task {
        Task::Report { .. }
        | Task::ReportRange { .. }
        | Task::Statement { .. }
        | Task::Serve { .. } => Ok(CommandOutput::in_pieces(io::writer(rt))),
        Task::Enter { .. } | Task::Round { .. } => {
            CommandOutput::keeping(rt.alloc(), io::writer(rt))
        }
        Task::Run { .. } => CommandOutput::by_lines(rt.alloc(), io::writer(rt)),
    }
}

// Polls devices on a schedule, serves HTTP, and records the energy in a database.
fn run_over<'a, D: Databases + NamedFiles>(
    rt: &HostRuntime,
    files: &D,
    path: &'a str,
    sites: &[Site],
    settings: &Settings<'_>,
) -> Result<Done, Failure<'a>> {
    let connection = open_in(rt, files, path)?;
    let mut clock = OnwardClock::new(SystemClock::new(rt));
    run_opened(rt, files, path, connection, sites, settings, &mut clock)
}

/// Polls devices and serves HTTP over an open connection to a database, with timestamps from
/// `clock`. Watches the lengths of the database file and its log. Counts the bytes of stored
/// requests once, before the store is opened.
pub(crate) fn run_opened<'a, D: Databases + NamedFiles, C: Clock>(
    rt: &HostRuntime,
    files: &D,
    path: &'a str,
    connection: Connection<D::Store>,
    sites: &[Site],
    settings: &Settings<'_>,
    clock: &mut C,
) -> Result<Done, Failure<'a>> {
    let mut connection = connection;
    let log = log_of(rt, path)?;
    let paths = [path, log.as_str()];
    let settings = Settings {
        kept: request_bytes(&mut connection),
        files: &paths,
        ..*settings
    };
    let task = Task::Run {
        settings: &settings,
        sites,
    };
    over_connection(rt, files, path, connection, task, clock)
}

/// Polls devices on a schedule and serves HTTP. If there are several files, the oldest first,
/// records are written to the last file and the energy of all files is reported.
pub(crate) fn run<'a, D: OfficeFiles + NamedFiles>(
    rt: &HostRuntime,
    files: &D,
    paths: &[&'a str],
    devices: &[Device<'a>],
    settings: &Settings<'_>,
) -> Ending<'a> {
    let sites = match sites_of(rt, devices) {
        Ok(sites) => sites,
        Err(failure) => return Ending::Failed(failure),
    };
    let path = last_of(paths);
    let mut errors = Escaped::new(rt.stderr());
    let registers = match earlier_registers(rt, files, but_last(paths), path, false, &mut errors) {
        Ok(registers) => registers,
        Err(ending) => return ending,
    };
    let settings = Settings {
        earlier: registers.as_slice(),
        ..*settings
    };
    let done = run_over(rt, files, path, sites.as_slice(), &settings);
    ending_of_done(done, OWN_HOST, settings.listen.port())
}
