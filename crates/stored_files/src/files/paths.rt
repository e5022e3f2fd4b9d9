//! Finds the paths and lengths of database files and their logs.
use crate::ends::Failure;
use std::fs;
use std::io::ErrorKind;

/// Returns the absolute path of a file with symbolic links resolved, or the path `path` if the
/// system can't resolve it.
pub fn real_path<'a>(rt: &HostRuntime, path: &str) -> Result<String, Failure<'a>> {
    let text = match fs::canonicalize(rt, path) {
        Ok(real) => String::from_str(rt.alloc(), real.as_str()),
        Err(_) => String::from_str(rt.alloc(), path),
    };
    match text {
        Ok(text) => Ok(text),
        Err(_) => Err(Failure::Memory),
    }
}

/// Returns the path of a database file's write-ahead log. SQLite keeps the log beside the file to
/// which a symbolic link leads.
pub fn log_of<'a>(rt: &HostRuntime, path: &str) -> Result<String, Failure<'a>> {
    let real = real_path(rt, path)?;
    match format!(in rt.alloc(); "{}-wal", real.as_str()) {
        Ok(log) => Ok(log),
        Err(_) => Err(Failure::Memory),
    }
}

/// Returns the length of a file in bytes, None if the file does not exist, or 0 if its length can't
/// be read.
pub fn length_of(rt: &HostRuntime, path: &str) -> Option<u64> {
    match fs::metadata(rt, path) {
        Ok(found) => Some(found.len()),
        Err(error) if error.kind() == ErrorKind::NotFound => None,
        Err(_) => Some(0),
    }
}

/// Returns whether a file is missing or empty, given its length. `length` is None for a missing
/// file.
pub fn is_blank(length: Option<u64>) -> bool {
    length.unwrap_or(0) == 0
}
