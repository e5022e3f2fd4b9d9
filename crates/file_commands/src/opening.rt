//! Opens a database file, and reports a missing log or a large file.
ghost use Rattle.std.specs.Prelude.{IfOk};

use crate::escaped::Escaped;
use sqlite::Connection;
use std::io::{IsTerminal, Write};
use stored_files::{
    Databases, Failure, Named, check_regular, is_bare, is_blank, is_office, length_of, log_of,
};

/// The total length of a database file and its log, in bytes, from which opening the database takes
/// a second or more.
const LARGE: u64 = 16_000_000;

// Reports that a database file has no write-ahead log beside it.
fn say_no_log<E: Write>(errors: &mut E, path: &str) {
    let path = Named(path);
    let _said = write!(
        errors,
        "sunreg: {path}: it had no log {path}-wal: a backup needs none, but a file copied without its log lacks the latest entries\n"
    );
}

// Reports that a large file is being opened, if standard error is a terminal. Opening takes time,
// because the complete file and its log are read.
fn say_opening<E: Write>(rt: &HostRuntime, errors: &mut E, path: &str, bytes: u64) {
    let path = Named(path);
    if bytes >= LARGE && rt.stderr().is_terminal() {
        let megabytes = bytes / 1_000_000;
        let _said = write!(
            errors,
            "sunreg: {path}: opening: reads all {megabytes} MB\n"
        );
    }
}

/// Opens the database at a path. Reports on the standard error output if the file's write-ahead log
/// is missing. Fails if a log exists without its database file.
pub fn open_in<'a, D: Databases>(
    rt: &HostRuntime,
    databases: &D,
    path: &'a str,
) -> Result<Connection<D::Store>, Failure<'a>>
    ensures { IfOk result (D.opens databases.now path.now) }
{
    let mut errors = Escaped::new(rt.stderr());
    open_reporting(rt, databases, path, false, &mut errors)
}

/// Opens the database at a path. Fails if a log exists without its database file. Reports to
/// `errors` that the log is missing, unless the file is new (`is_new`).
pub(crate) fn open_reporting<'a, D: Databases, E: Write>(
    rt: &HostRuntime,
    databases: &D,
    path: &'a str,
    is_new: bool,
    errors: &mut E,
) -> Result<Connection<D::Store>, Failure<'a>>
    ensures { IfOk result (D.opens databases.now path.now) }
{
    if let Err(fault) = check_regular(rt, path) {
        return Err(Failure::File { path, fault });
    }
    let log = log_of(rt, path)?;
    let (length, log_length) = (length_of(rt, path), length_of(rt, log.as_str()));
    if is_blank(length) && !is_blank(log_length) {
        return Err(Failure::LogAlone { path });
    }
    if length == Some(0) {
        return Err(Failure::Bare { path });
    }
    let bytes = length.unwrap_or(0).saturating_add(log_length.unwrap_or(0));
    say_opening(rt, errors, path, bytes);
    match databases.open(path) {
        Ok(connection) if is_bare(&connection) => Err(Failure::Bare { path }),
        Ok(connection) => {
            if !is_new && log_length.is_none() && is_office(&connection) {
                say_no_log(errors, path);
            }
            Ok(connection)
        }
        Err(fault) => Err(Failure::File { path, fault }),
    }
}
