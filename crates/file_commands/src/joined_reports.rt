//! Prints reports on an accounting register (a named counter of a device) over several successive
//! database files.
ghost use Rattle.std.specs.Prelude.{◌≡◌, ◌≢◌, ◌⊎◌, IfOk};
ghost use Rattle.std.specs.Io.KnownBytes.{Keeps};
ghost use Rattle.stored_files.specs.declared.ends.ending.Ending.TheVariants.{Failed, Fine};
ghost use Rattle.stored_files.specs.declared.ends.failure.Failure.TheVariants.{Streams};
ghost use Rattle.file_commands.specs.JoinedReports.{JoinsPath, ReportsOne, ReportsRegister, StatesOne};
ghost use Rattle.file_commands.specs.JoinedReports.{StatesRecorded, StatesRegister};
ghost use Rattle.file_commands.specs.JoinedReports.{EndsReportFiles, IfFine, JoinsPaths, PrintsForm, last_path};

use crate::carries::say_refused;
use crate::escaped::Escaped;
use crate::files::{OfficeFiles, Opening};
use crate::forms::{form_of, range_of, statement_of};
use crate::opening::open_reporting;
use carried_books::{
    Apart, JoinedFiles, JoinedStatement, Keeping, Unjoined, report_joined, state_joined,
};
use command_words::FormWords;
use energy_report::{ReportForm, StatementForm};
use interval_core::DayRange;
use office_events::{Installation, Name, Refusal};
use std::alloc::Global;
use std::io::Write;
use std::str::from_utf8;
use stored_files::{
    Databases, Ending, Failure, JoinFault, JoinedOffice, Named, ending_of, join_stored,
};

// The advice that is printed if a given database file does not continue the meter history of the
// files before it.
const REMEDY: &str =
    "name the files oldest first, each carried from the one before, and void what the older one booked after the carry";

// Returns the name of an installed meter.
fn name_of(row: &Installation) -> &str {
    from_utf8(row.opening.meter.as_bytes()).unwrap_or("?")
}

// Reports that a meter does not continue from the earlier database file. The message has the
// meter's first entry in this file, and its last entry in the earlier file.
fn say_apart<E: Write>(errors: &mut E, before: &str, path: &str, apart: &Apart) {
    let (before, path) = (Named(before), Named(path));
    let begins = &apart.begins.opening;
    let stands = &apart.stands.last;
    let state = if apart.stands.ended {
        "was closed"
    } else {
        "has its last entry"
    };
    let _said = write!(
        errors,
        "sunreg: {path}: meter {} begins at time {}, counter {}, scale {}; ",
        name_of(&apart.begins),
        begins.at,
        begins.raw,
        begins.sf
    );
    let _said = write!(
        errors,
        "up to {before}, meter {} {state} at time {}, counter {}, scale {}: {}\n",
        name_of(&apart.stands),
        stands.at,
        stands.raw,
        stands.sf,
        REMEDY
    );
}

// Reports the reason why a database file does not continue the meter history of the earlier files.
fn say_unjoined<E: Write>(errors: &mut E, before: &str, path: &str, why: &Unjoined) {
    if let Unjoined::Apart(apart) = why {
        return say_apart(errors, before, path, apart);
    }
    let (before, path) = (Named(before), Named(path));
    match why {
        Unjoined::Apart(_) => {}
        Unjoined::NotRecorded => {
            let _said = write!(
                errors,
                "sunreg: {path}: a register of {before} or of an earlier file is missing here: {}\n",
                REMEDY
            );
        }
        Unjoined::OutOfTurn => {
            let _said = write!(
                errors,
                "sunreg: {path}: it has a quarter hour before the last one of {before}: {}\n",
                REMEDY
            );
        }
    }
}

// Reports that a database file has another time zone than the earlier files.
fn say_other_zone<E: Write>(errors: &mut E, before: &str, path: &str) {
    let (before, path) = (Named(before), Named(path));
    let _said = write!(
        errors,
        "sunreg: {path}: its time zone differs from that of {before}: {}\n",
        REMEDY
    );
}

/// A reason why a database file could not be added to the earlier files of a report.
#[derive(Drop)]
pub(crate) enum NotJoined<'a> {
    Failed(Failure<'a>),
    /// The store in the file at `path` failed, or memory ran out.
    Refused { path: &'a str, why: Refusal },
    /// The file does not continue the meter history of the earlier files. The program has already
    /// reported the reason.
    Apart,
}

// Returns the reason `NotJoined` for the fault that occurred when the file at `path` could not be
// added to a report over several files. If the file does not continue the meter history of the
// earlier files, also writes the reason to `errors`.
fn not_joined<'a, E: Write>(
    errors: &mut E,
    before: &str,
    path: &'a str,
    fault: JoinFault,
) -> NotJoined<'a> {
    match fault {
        JoinFault::Unopened(fault) => NotJoined::Failed(Failure::Unopened { path, fault }),
        JoinFault::OtherZone => {
            say_other_zone(errors, before, path);
            NotJoined::Apart
        }
        JoinFault::Unjoined(why) => {
            say_unjoined(errors, before, path, &why);
            NotJoined::Apart
        }
        JoinFault::Books(why) => NotJoined::Refused { path, why },
    }
}

/// Adds the data of one database file to a report over several files. If the file does not continue
/// the meter history of the earlier files, writes the reason to `errors`.
pub(crate) fn join_in<'a, D: Databases, K: Keeping, E: Write>(
    rt: &HostRuntime,
    databases: &D,
    joined: Option<JoinedOffice<K>>,
    before: &str,
    path: &'a str,
    register: &Name,
    range: &DayRange,
    is_new: bool,
    errors: &mut E,
) -> Result<JoinedOffice<K>, NotJoined<'a>>
    ensures { IfOk result (JoinsPath K.Keeping D.Store.Store (D.opens databases.now) range.now
        register.now path.now joined) }
{
    match open_reporting(rt, databases, path, is_new, errors) {
        Ok(connection) => match join_stored(rt.alloc(), connection, joined, register, *range) {
            Ok(joined) => Ok(joined),
            Err(fault) => Err(not_joined(errors, before, path, fault)),
        },
        Err(failure) => Err(NotJoined::Failed(failure)),
    }
}

/// Adds the data of several files to a report, in order. `before` is the name of the file before
/// the first of them. Opens one file at a time. If a file does not continue the meter history of
/// the earlier files, writes the reason to `errors`.
pub(crate) fn join_paths<'a, D: Databases, K: Keeping, E: Write>(
    rt: &HostRuntime,
    databases: &D,
    joined: Option<JoinedOffice<K>>,
    before: &str,
    paths: &[&'a str],
    register: &Name,
    range: &DayRange,
    errors: &mut E,
) -> Result<Option<JoinedOffice<K>>, NotJoined<'a>>
    ensures { IfOk result (JoinsPaths K.Keeping D.Store.Store (D.opens databases.now) range.now
        register.now paths.now joined) }
{
    match paths {
        [] => Ok(joined),
        [path, rest @ ..] => match join_in(
            rt, databases, joined, before, *path, register, range, false, errors,
        ) {
            Ok(next) => join_paths(
                rt,
                databases,
                Some(next),
                *path,
                rest,
                register,
                range,
                errors,
            ),
            Err(why) => Err(why),
        },
    }
}

// Reports why a file could not be added to a report over several files, and returns how the command
// ends.
fn end_unjoined<'a, W: Write>(rt: &HostRuntime, why: NotJoined<'a>, output: &mut W) -> Ending<'a>
    ensures { result ≢ Fine }
{
    match why {
        NotJoined::Failed(failure) => Ending::Failed(failure),
        NotJoined::Refused { path, why } => say_refused(rt, path, why, output),
        NotJoined::Apart => Ending::Refused,
    }
}

// Prints the merged report on an accounting register (a named counter). If none of the files has
// this register, prints a refusal.
fn report_recorded<W: Write>(
    rt: &HostRuntime,
    path: &str,
    joined: Option<JoinedOffice<JoinedFiles>>,
    form: &ReportForm,
    output: &mut W,
) -> Ending<'static>
    ensures { ReportsOne joined form.now (W.contents output.old) (W.contents output.new) result }
{
    match joined {
        Some(joined) => {
            if joined.kept.is_recorded {
                ending_of(report_joined(joined.kept, form, output))
            } else {
                say_refused(rt, path, Refusal::NotFound, output)
            }
        }
        None => say_refused(rt, path, Refusal::NotFound, output),
    }
}

// Prints the merged statement (for checking a bill) of the meters that were installed at an
// accounting register (a named energy counter), over all files.
fn print_statement<W: Write>(
    alloc: Global,
    joined: &JoinedStatement,
    form: &StatementForm,
    output: &mut W,
) -> Ending<'static>
    ensures { StatesOne joined.now form.now (W.contents output.old)
        (W.contents output.new) result }
{
    match state_joined(alloc, joined, form, output) {
        Ok(status) => ending_of(status),
        Err(_) => Ending::Failed(Failure::Memory),
    }
}

// Prints the merged statement (for checking a bill) of the meters that were installed at an
// accounting register (a named energy counter). If none of the files has this register, prints a
// refusal.
fn state_recorded<W: Write>(
    rt: &HostRuntime,
    path: &str,
    joined: Option<JoinedOffice<JoinedStatement>>,
    form: &StatementForm,
    output: &mut W,
) -> Ending<'static>
    ensures { StatesRecorded joined form.now (W.contents output.old)
        (W.contents output.new) result }
{
    match joined {
        Some(joined) => {
            if joined.kept.is_recorded {
                print_statement(rt.alloc(), &joined.kept, form, output)
            } else {
                say_refused(rt, path, Refusal::NotFound, output)
            }
        }
        None => say_refused(rt, path, Refusal::NotFound, output),
    }
}

/// Returns the last path in a list, or an empty path if the list is empty.
pub fn last_of<'a>(paths: &[&'a str]) -> &'a str
    ensures { result.now ≡ last_path paths.now }
{
    match paths {
        [] => "",
        [path, rest @ ..] => {
            if rest.is_empty() {
                *path
            } else {
                last_of(rest)
            }
        }
    }
}

// Prints the energy of an accounting register (a named counter) over several files.
fn report_register<'a, D: Databases, W: Write>(
    rt: &HostRuntime,
    databases: &D,
    paths: &[&'a str],
    register: &Name,
    form: &ReportForm,
    output: &mut W,
) -> Ending<'a>
    ensures { IfFine (ReportsRegister D.Store.Store (D.opens databases.now) paths.now register.now
        form.now (W.contents output.old) (W.contents output.new)) result }
{
    let mut errors = Escaped::new(rt.stderr());
    match join_paths(
        rt,
        databases,
        None,
        "",
        paths,
        register,
        &form.range,
        &mut errors,
    ) {
        Ok(joined) => report_recorded(rt, last_of(paths), joined, form, output),
        Err(why) => end_unjoined(rt, why, output),
    }
}

// Prints the statement (for checking a bill) of the meters that were installed at an accounting
// register (a named energy counter), over several files.
fn state_register<'a, D: Databases, W: Write>(
    rt: &HostRuntime,
    databases: &D,
    paths: &[&'a str],
    register: &Name,
    form: &StatementForm,
    output: &mut W,
) -> Ending<'a>
    ensures { IfFine (StatesRegister D.Store.Store (D.opens databases.now) paths.now register.now
        form.now (W.contents output.old) (W.contents output.new)) result }
{
    let mut errors = Escaped::new(rt.stderr());
    match join_paths(
        rt,
        databases,
        None,
        "",
        paths,
        register,
        &form.range,
        &mut errors,
    ) {
        Ok(joined) => state_recorded(rt, last_of(paths), joined, form, output),
        Err(why) => end_unjoined(rt, why, output),
    }
}

// Prints the report or the statement that the options request, over several files.
fn report_paths<'a, D: Databases, W: Write>(
    rt: &HostRuntime,
    databases: &D,
    paths: &[&'a str],
    register: &str,
    words: &FormWords<'a>,
    output: &mut W,
) -> Ending<'a>
    ensures { IfFine (PrintsForm D.Store.Store (D.opens databases.now) paths.now register.now
        words.now (W.contents output.old) (W.contents output.new)) result }
{
    let range = match range_of(words) {
        Ok(range) => range,
        Err(ending) => return ending,
    };
    let Some(name) = Name::new(register.as_bytes()) else {
        return say_refused(rt, last_of(paths), Refusal::NotFound, output);
    };
    if words.statement {
        let form = statement_of(words, range);
        state_register(rt, databases, paths, &name, &form, output)
    } else {
        report_register(rt, databases, paths, &name, &form_of(words, range), output)
    }
}

// Flushes the output of a command that ended as `ending` says. If flushing fails, the command
// failed.
fn flushed<'a, W: Write>(ending: Ending<'a>, output: &mut W) -> Ending<'a>
    ensures ending { (result ≡ ending.entry) ⊎ (result ≡ Failed Streams) }
    ensures output { Keeps (W.contents output.old) (W.contents output.new) }
{
    match output.flush() {
        Ok(()) => ending,
        Err(_) => Ending::Failed(Failure::Streams),
    }
}

/// Prints the energy of an accounting register (a named counter of a device), or the statement
/// (billing report) of its meters, and flushes the output. Merges several successive database
/// files, the oldest first.
pub fn report_files<'a, D: OfficeFiles, W: Write>(
    rt: &HostRuntime,
    files: &D,
    paths: &[&'a str],
    register: &str,
    words: &FormWords<'a>,
    output: &mut W,
) -> Ending<'a>
    ensures { EndsReportFiles D.Store.Store (D.opens files.now) paths.now register.now words.now
        (W.contents output.old) (W.contents output.new) result }
{
    let readable = files.opened(Opening::ToRead);
    let ending = report_paths(rt, &readable, paths, register, words, output);
    flushed(ending, output)
}
