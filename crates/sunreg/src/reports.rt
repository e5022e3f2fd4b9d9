//! Prints the energy of an accounting register (a named energy counter) from one file, or a
//! statement, which has one row for each of the register's meters.
use crate::offices::{OWN_HOST, over_office};
use command_words::FormWords;
use file_commands::{OfficeFiles, Opening, Wanted, wanted_of};
use office_program::NamedFiles;
use stored_files::Ending;
use stored_office::{Task, ending_of_done};

/// Prints the energy of an accounting register (a named energy counter), by default by days, or
/// prints a statement, which has one row for each of the register's meters. If the database file at
/// `path` cannot be opened for writing, reads a temporary copy of it.
pub(crate) fn report<'a, D: OfficeFiles + NamedFiles>(
    rt: &HostRuntime,
    files: &D,
    path: &'a str,
    register: &str,
    words: &FormWords<'a>,
) -> Ending<'a> {
    let wanted = match wanted_of(words) {
        Ok(wanted) => wanted,
        Err(ending) => return ending,
    };
    let task = match &wanted {
        Wanted::Plain => Task::Report { register },
        Wanted::Report(form) => Task::ReportRange { register, form },
        Wanted::Statement(form) => Task::Statement { register, form },
    };
    let readable = files.opened(Opening::ToRead);
    ending_of_done(over_office(rt, &readable, path, task), OWN_HOST, 0)
}
