//! Executes the command `run --carry`, which begins a new file each month or year.
//!
//! The command `run --carry` runs over one file at a time. Soon after a new period begins, all
//! meters are continued in the file of the new period, and the next run uses that file.
use crate::ended;
use crate::offices::{OWN_HOST, run_opened};
use crate::onward_clock::OnwardClock;
use crate::period_files::{files_before, leave_one_name, led_file, path_of};
use crate::run_words::{STANDARD_ERROR, sites_of};
use carried_books::EarlierRegister;
use command_words::Device;
use energy_report::Period;
use file_commands::{
    Escaped, NotCarried, OfficeFiles, but_last, carry_open, earlier_registers, is_there, last_of,
    open_in, write_why,
};
use mb_wire::sockets::{Clock, SystemClock};
use office_program::NamedFiles;
use office_running::{Settings, Site, write_without_waiting};
use run_schedule::{Course, Rollover, next_try};
use sqlite::Connection;
use std::alloc::AllocError;
use std::io::{self, Write};
use std::process::ExitCode;
use std::thread::sleep;
use std::time::{Duration, Instant};
use stored_files::{CopyFault, Databases, Ending, Failure, FileFault, Named, course_stored};
use stored_office::ending_of_done;

/// The maximum number of attempts to open a file that another process has open.
const TRIES: u32 = 100;

/// The maximum number of checks for a file that another process may be creating.
const LOOKS: u32 = 30;

/// The time between two attempts to open a file, or between two checks whether a file exists, in
/// milliseconds.
const PAUSE: u64 = 100;

const NOT_CARRIED: &str = "not carried: it stays in use, and sunreg tries again at the next hour";

const NAMED: &str = "carried: the new file is in use now";

// A writer to standard error that never waits for the reader of standard error. Output that would
// have to wait is dropped.
#[derive(Clone, Copy)]
struct Unwaited<'r> {
    rt: &'r HostRuntime,
}

impl Write for Unwaited<'_> {
    fn write(&mut self, bytes: &[u8]) -> io::Result<usize> {
        let rt = self.rt;
        let mut errors = rt.stderr();
        write_without_waiting(rt, rt.alloc(), Some(STANDARD_ERROR), bytes, &mut errors)?;
        Ok(bytes.len())
    }

    fn flush(&mut self) -> io::Result<()> {
        Ok(())
    }
}

// Writes lines to standard error, without waiting for the reader of standard error.
fn say(rt: &HostRuntime, lines: &[u8]) {
    let mut errors = Escaped::new(Unwaited { rt });
    let _said = errors.write_all(lines);
}

fn say_carried(rt: &HostRuntime, from: &str, to: &str, count: u64) {
    if let Ok(line) = format!(in rt.alloc();
        "sunreg: {}: carried {count} meters into {}\n",
        Named(from),
        Named(to)
    ) {
        say(rt, line.as_bytes());
    }
}

fn say_later(rt: &HostRuntime, path: &str) {
    if let Ok(line) = format!(in rt.alloc();
        "sunreg: {}: its period is later than the system clock: it stays in use\n",
        Named(path)
    ) {
        say(rt, line.as_bytes());
    }
}

fn report_late_clock(rt: &HostRuntime, path: &str) {
    if let Ok(line) = format!(in rt.alloc();
        "sunreg: {}: the system clock is before its latest record: it is not carried yet, and stays in use until the next hour\n",
        Named(path)
    ) {
        say(rt, line.as_bytes());
    }
}

fn say_alone(rt: &HostRuntime, path: &str) {
    if let Ok(line) = format!(in rt.alloc();
        "sunreg: {}: energy figures cover this file only\n",
        Named(path)
    ) {
        say(rt, line.as_bytes());
    }
}

// Reports why the meters of a file could not be continued in the next file, and what the command
// `run --carry` does instead.
fn say_not_carried(rt: &HostRuntime, from: &str, why: &NotCarried<'_>, comes: &str) {
    let mut lines = Vec::new(rt.alloc());
    let _written = write_why(&mut lines, why);
    let _written = write!(lines, "sunreg: {}: {comes}\n", Named(from));
    say(rt, lines.as_slice());
}

/// The options of the command `run --carry`, with its files and its period. The file names of the
/// periods are formed from the last name in `files`. `earlier` is the number of earlier periods
/// whose energy is also reported, and is only given with a single file.
#[derive(Clone, Copy)]
pub(crate) struct PeriodWords<'r> {
    pub(crate) files: &'r [&'r str],
    pub(crate) period: Period,
    pub(crate) earlier: Option<u32>,
}

// The options of the command `run --carry` that are the same for all its periods. They include the
// last file in the arguments, the period, and the earlier files whose energy is also reported.
#[derive(Drop)]
struct Asked<'r, D> {
    rt: &'r HostRuntime,
    files: &'r D,
    file: &'r str,
    period: Period,
    given: &'r [&'r str],
    earlier: Option<u32>,
    sites: &'r [Site],
    settings: Settings<'r>,
}

impl<D> Asked<'_, D> {
    // Returns the period and the polling interval of the command `run --carry`.
    fn rollover(&self) -> Rollover {
        Rollover {
            period: self.period,
            every: self.settings.every,
        }
    }

    // Returns whether the command `run` also reports the energy of earlier files, because its
    // arguments name such files or the number of earlier periods to report.
    fn has_earlier(&self) -> bool {
        self.earlier.is_some() || !self.given.is_empty()
    }

    // Returns the maximum number of earlier period files (files of one month or year) whose energy
    // is reported. If the arguments name earlier files, all period files up to the current file are
    // included.
    fn most_earlier(&self) -> u32 {
        if self.given.is_empty() {
            self.earlier.unwrap_or(0)
        } else {
            u32::MAX
        }
    }
}

// Appends the last `count` paths of `files` to a list of paths.
fn add_last<'p>(
    paths: &mut Vec<&'p str>,
    files: &'p [String],
    count: u32,
) -> Result<(), AllocError> {
    let first = files.len().saturating_sub(count as usize);
    for place in first..files.len() {
        paths.push(files[place].as_str())?;
    }
    Ok(())
}

// A run over one database file: whether it is the first run of the command, the time at which it
// ends, and the remaining seconds of the command's requested duration.
#[derive(Clone, Copy)]
struct OneRun {
    is_first: bool,
    until: Option<u64>,
    left: Option<u64>,
}

// Returns the paths in `given`, followed by the last `count` paths of `files`.
fn paths_of<'p>(
    rt: &HostRuntime,
    given: &'p [&'p str],
    files: &'p [String],
    count: u32,
) -> Result<Vec<&'p str>, AllocError> {
    let mut paths = Vec::new(rt.alloc());
    for path in given {
        paths.push(*path)?;
    }
    add_last(&mut paths, files, count)?;
    Ok(paths)
}

// Returns the energy of all accounting registers (energy counters) in the files that are older than
// the file at `path`. Writes error messages to standard error without waiting for its reader.
fn registers_before<'a, D: OfficeFiles>(
    rt: &HostRuntime,
    files: &D,
    given: &'a [&'a str],
    before: &'a [String],
    count: u32,
    path: &'a str,
    is_new: bool,
) -> Result<Vec<EarlierRegister>, Ending<'a>> {
    let mut errors = Escaped::new(Unwaited { rt });
    match paths_of(rt, given, before, count) {
        Ok(paths) => earlier_registers(rt, files, paths.as_slice(), path, is_new, &mut errors),
        Err(_) => Err(Ending::Failed(Failure::Memory)),
    }
}

// Handles earlier files that cannot be read, or do not continue each other. Ends the command if it
// has just begun (`is_first`). Otherwise the command continues, and reports only the energy of its
// current file.
fn untold(
    rt: &HostRuntime,
    path: &str,
    is_first: bool,
    ending: &Ending<'_>,
) -> Result<Vec<EarlierRegister>, ExitCode> {
    if is_first {
        return Err(ended(rt, ending));
    }
    if let Ending::Failed(failure) = ending {
        let mut errors = Escaped::new(Unwaited { rt });
        let _said = write!(errors, "sunreg: {failure}\n");
    }
    say_alone(rt, path);
    Ok(Vec::new(rt.alloc()))
}

// Returns the energy of all accounting registers (energy counters) in the files older than the file
// at `path`, if the options request this energy.
fn requested_registers<D: OfficeFiles>(
    asked: &Asked<'_, D>,
    path: &str,
    is_first: bool,
    is_new: bool,
) -> Result<Vec<EarlierRegister>, ExitCode> {
    let rt = asked.rt;
    if !asked.has_earlier() {
        return Ok(Vec::new(rt.alloc()));
    }
    let count = asked.most_earlier();
    match files_before(rt, asked.file, asked.period, path) {
        Ok(before) => match registers_before(
            rt,
            asked.files,
            asked.given,
            before.as_slice(),
            count,
            path,
            is_new,
        ) {
            Ok(registers) => Ok(registers),
            Err(ending) => untold(rt, path, is_first, &ending),
        },
        Err(failure) => untold(rt, path, is_first, &Ending::Failed(failure)),
    }
}

// Polls devices and serves HTTP over a connection to the file at `path`, until a given time.
// Returns `None` if this time was reached, or if the requested duration of the command has passed.
fn run_in<D: Databases + NamedFiles, C: Clock + Drop>(
    asked: &Asked<'_, D>,
    path: &str,
    connection: Connection<D::Store>,
    registers: &[EarlierRegister],
    clock: &mut OnwardClock<C>,
    run: OneRun,
) -> Option<ExitCode> {
    let rt = asked.rt;
    let settings = Settings {
        lasts: run.left,
        ends: run.until,
        earlier: registers,
        ..asked.settings
    };
    let done = run_opened(
        rt,
        asked.files,
        path,
        connection,
        asked.sites,
        &settings,
        clock,
    );
    match ending_of_done(done, OWN_HOST, settings.listen.port()) {
        Ending::Fine => None,
        ending => Some(ended(rt, &ending)),
    }
}

// Opens the database file at a path. If the file is new, does not report that its log is missing.
fn open_once<'a, D: Databases>(
    rt: &HostRuntime,
    files: &D,
    path: &'a str,
    is_new: bool,
) -> Result<Connection<D::Store>, Failure<'a>> {
    if !is_new {
        return open_in(rt, files, path);
    }
    match files.open(path) {
        Ok(connection) => Ok(connection),
        Err(fault) => Err(Failure::File { path, fault }),
    }
}

fn is_busy(failure: &Failure<'_>) -> bool {
    matches!(
        failure,
        Failure::File {
            fault: FileFault::Busy,
            ..
        }
    )
}

// Opens a file that this process has just closed or created. If another process has opened the file
// since then, waits for some seconds.
fn open_again<'a, D: Databases>(
    rt: &HostRuntime,
    files: &D,
    path: &'a str,
    is_new: bool,
) -> Result<Connection<D::Store>, Failure<'a>> {
    for _try in 0..TRIES {
        match open_once(rt, files, path, is_new) {
            Err(failure) if is_busy(&failure) => sleep(rt, Duration::from_millis(PAUSE)),
            opened => return opened,
        }
    }
    open_once(rt, files, path, is_new)
}

// Reads the energy of earlier files, opens the file at `path`, and polls devices and serves HTTP
// over this file. The file is new, or this process had it open before.
fn run_at<D: OfficeFiles + NamedFiles, C: Clock + Drop>(
    asked: &Asked<'_, D>,
    path: &str,
    is_new: bool,
    clock: &mut OnwardClock<C>,
    run: OneRun,
) -> Option<ExitCode> {
    let registers = match requested_registers(asked, path, run.is_first, is_new) {
        Ok(registers) => registers,
        Err(code) => return Some(code),
    };
    match open_again(asked.rt, asked.files, path, is_new) {
        Ok(connection) => run_in(asked, path, connection, registers.as_slice(), clock, run),
        Err(failure) => Some(ended(asked.rt, &Ending::Failed(failure))),
    }
}

fn is_unfinished(why: &NotCarried<'_>) -> bool {
    matches!(
        why,
        NotCarried::Failed(Failure::Uncopied {
            fault: CopyFault::Unfinished,
            ..
        })
    )
}

// Returns whether a new file exists although this process failed to create it. If an incomplete
// file exists, another process may be creating the new file. This call then waits until the file
// has its final name.
fn is_made(rt: &HostRuntime, to: &str, why: &NotCarried<'_>) -> bool {
    if is_unfinished(why) {
        for _look in 0..LOOKS {
            if is_there(rt, to) {
                return true;
            }
            sleep(rt, Duration::from_millis(PAUSE));
        }
    }
    is_there(rt, to)
}

// Continues all meters of a file in a new file, and then uses the new file. On failure, continues
// with the old file until the next full hour, and then tries again.
fn carry_on<D: OfficeFiles + NamedFiles, C: Clock + Drop>(
    asked: &Asked<'_, D>,
    from: &str,
    connection: Connection<D::Store>,
    to: &str,
    clock: &mut OnwardClock<C>,
    run: OneRun,
) -> Option<ExitCode> {
    let rt = asked.rt;
    match carry_open(rt, asked.files, from, connection, to) {
        Ok(count) => say_carried(rt, from, to, count),
        Err(why) => {
            if !is_made(rt, to, &why) {
                say_not_carried(rt, from, &why, NOT_CARRIED);
                let until = next_try(asked.settings.every, clock.now());
                return run_at(asked, from, false, clock, OneRun { until, ..run });
            }
            // The new file has its final name, but the folder could not be synced, or another
            // process created the file.
            say_not_carried(rt, from, &why, NAMED);
        }
    }
    run_at(asked, to, true, clock, run)
}

// Opens the current file of the command `run`. If another process has the file open, waits for it.
// At the start of the command (`is_first`), fails instead of waiting.
fn open_led<'a, D: Databases>(
    rt: &HostRuntime,
    files: &D,
    path: &'a str,
    is_first: bool,
) -> Result<Connection<D::Store>, Failure<'a>> {
    if is_first {
        open_in(rt, files, path)
    } else {
        open_again(rt, files, path, false)
    }
}

// Polls devices and serves HTTP over the current database file of `run --carry`, which is open.
fn stay<D: OfficeFiles + NamedFiles, C: Clock + Drop>(
    asked: &Asked<'_, D>,
    path: &str,
    connection: Connection<D::Store>,
    clock: &mut OnwardClock<C>,
    run: OneRun,
) -> Option<ExitCode> {
    if asked.has_earlier() {
        // Closes the current database file of `run --carry`, which is opened again after the
        // earlier files were read.
        drop(connection);
        return run_at(asked, path, false, clock, run);
    }
    run_in(asked, path, connection, &[], clock, run)
}

// Polls devices and serves HTTP over the current file or over a new file, as the decision `course`
// says. `begun` says whether this is the command's first run, and has the command's remaining
// duration.
fn follow<D: OfficeFiles + NamedFiles, C: Clock + Drop>(
    asked: &Asked<'_, D>,
    path: &str,
    connection: Connection<D::Store>,
    course: Course,
    clock: &mut OnwardClock<C>,
    begun: OneRun,
) -> Option<ExitCode> {
    let rt = asked.rt;
    match course {
        Course::Stay { until } => {
            stay(asked, path, connection, clock, OneRun { until, ..begun })
        }
        Course::StayAhead { until } => {
            say_later(rt, path);
            stay(asked, path, connection, clock, OneRun { until, ..begun })
        }
        Course::Wait { until } => {
            report_late_clock(rt, path);
            stay(asked, path, connection, clock, OneRun { until, ..begun })
        }
        Course::Carry { period, until } => match path_of(rt, asked.file, period.bytes()) {
            Ok(to) => {
                let run = OneRun { until, ..begun };
                carry_on(asked, path, connection, to.as_str(), clock, run)
            }
            Err(failure) => Some(ended(rt, &Ending::Failed(failure))),
        },
    }
}

// Polls devices and serves HTTP over the current database file of `run --carry`, or over a new file
// if a new period has begun.
fn turn<D: OfficeFiles + NamedFiles, C: Clock + Drop>(
    asked: &Asked<'_, D>,
    clock: &mut OnwardClock<C>,
    is_first: bool,
    left: Option<u64>,
) -> Option<ExitCode> {
    let rt = asked.rt;
    let led = match led_file(rt, asked.file, asked.period) {
        Ok(led) => led,
        Err(failure) => return Some(ended(rt, &Ending::Failed(failure))),
    };
    let path = led.path.as_str();
    leave_one_name(rt, path);
    let connection = match open_led(rt, asked.files, path, is_first) {
        Ok(connection) => connection,
        Err(failure) => return Some(ended(rt, &Ending::Failed(failure))),
    };
    let now = clock.now();
    match course_stored(rt.alloc(), connection, asked.rollover(), led.period(), now) {
        Ok((course, connection)) => {
            let begun = OneRun {
                is_first,
                until: None,
                left,
            };
            follow(asked, path, connection, course, clock, begun)
        }
        Err(fault) => Some(ended(rt, &Ending::Failed(Failure::Unopened { path, fault }))),
    }
}

// Returns the remaining seconds of the command's requested duration, or `None` if no duration was
// requested.
fn left_of(rt: &HostRuntime, lasts: Option<u64>, begun: Option<Instant>) -> Option<u64> {
    let seconds = lasts?;
    let passed = match begun {
        Some(begun) => match begun.elapsed(rt) {
            Ok(passed) => passed.as_secs(),
            Err(_) => 0,
        },
        None => 0,
    };
    Some(seconds.saturating_sub(passed))
}

/// Polls devices on a schedule, serves HTTP, and begins a new file each month or year.
pub(crate) fn run_by_periods<'a, D: OfficeFiles + NamedFiles>(
    rt: &HostRuntime,
    files: &D,
    words: PeriodWords<'a>,
    devices: &[Device<'a>],
    settings: &Settings<'_>,
) -> ExitCode {
    let sites = match sites_of(rt, devices) {
        Ok(sites) => sites,
        Err(failure) => return ended(rt, &Ending::Failed(failure)),
    };
    let asked = Asked {
        rt,
        files,
        file: last_of(words.files),
        period: words.period,
        given: but_last(words.files),
        earlier: words.earlier,
        sites: sites.as_slice(),
        settings: *settings,
    };
    let mut clock = OnwardClock::new(SystemClock::new(rt));
    let begun = match Instant::now(rt) {
        Ok(begun) => Some(begun),
        Err(_) => None,
    };
    for run in 0..u64::MAX {
        let left = left_of(rt, settings.lasts, begun);
        if left == Some(0) {
            break;
        }
        match turn(&asked, &mut clock, run == 0, left) {
            Some(code) => return code,
            None => clock.advance_least(),
        }
    }
    ended(rt, &Ending::Fine)
}
