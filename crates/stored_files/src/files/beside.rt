//! Checks the write-ahead log beside a database file before SQLite opens the file and the log. The
//! check writes nothing.
ghost use Rattle.std.specs.Prelude.{◌≢◌, IfErr};
ghost use Rattle.sqlite_wal.specs.PageSize.{Names, size_in_file};

use crate::files::faults::FileFault;
use crate::files::paths::log_of;
use crate::logs::{LogFault, check_emptied, check_log, is_shut};
use sqlite_wal::PageSize;
use std::fs::{self, File};
use std::io::{self, ErrorKind, Read};

/// The maximum number of bytes of a write-ahead log that the check for lost commits reads: 1 GiB.
/// Checkpoints keep a log much shorter.
const MOST_LOG: u64 = 1_073_741_824;

/// The length of a database file's header, in bytes.
const HEADER: u64 = 100;

/// The offset of the page size in a database file's header (SQLite's file format, section 1.3.2).
const PAGE_SIZE: usize = 16;

// Maps an I/O error of reading a file to a `FileFault`.
fn read_fault(error: io::Error) -> FileFault
    ensures { result ≢ FileFault.Missing }
{
    match error.kind() {
        ErrorKind::OutOfMemory => FileFault::Memory,
        _ => FileFault::Unreadable,
    }
}

/// Rejects a path that exists but is not a regular file. Reading from such a path, such as a pipe,
/// could block forever.
pub fn check_regular(rt: &HostRuntime, path: &str) -> Result<(), FileFault>
    ensures { IfErr result (λ fault. fault ≢ FileFault.Missing) }
{
    match fs::metadata(rt, path) {
        Ok(found) if found.is_file() => Ok(()),
        Ok(_) => Err(FileFault::Irregular),
        Err(error) if error.kind() == ErrorKind::NotFound => Ok(()),
        Err(_) => Err(FileFault::Unreadable),
    }
}

// Reads the first bytes of a file, up to `most` bytes. A missing file is read as empty.
fn read_up_to(rt: &HostRuntime, path: &str, most: u64) -> Result<Vec<u8>, FileFault>
    ensures { IfErr result (λ fault. fault ≢ FileFault.Missing) }
{
    check_regular(rt, path)?;
    let mut bytes = Vec::new(rt.alloc());
    match File::open(rt, path) {
        Ok(file) => match file.take(most).read_to_end(&mut bytes) {
            Ok(_) => Ok(bytes),
            Err(error) => Err(read_fault(error)),
        },
        Err(error) if error.kind() == ErrorKind::NotFound => Ok(bytes),
        Err(_) => Err(FileFault::Unreadable),
    }
}

/// Reads the bytes of a write-ahead log. A missing log is read as empty.
pub(crate) fn read_log(rt: &HostRuntime, path: &str) -> Result<Vec<u8>, FileFault>
    ensures { IfErr result (λ fault. fault ≢ FileFault.Missing) }
{
    read_up_to(rt, path, MOST_LOG)
}

/// Reads the header of a database file. Returns the complete file if it is shorter than a header.
pub(crate) fn read_front(rt: &HostRuntime, path: &str) -> Result<Vec<u8>, FileFault>
    ensures { IfErr result (λ fault. fault ≢ FileFault.Missing) }
{
    read_up_to(rt, path, HEADER)
}

/// Returns the page size in a database file's header, or None if the header is invalid.
pub(crate) fn page_size_in(db: &[u8]) -> Option<PageSize>
    ensures { Names result (size_in_file db.now) }
{
    if db.len() < PAGE_SIZE + 2 {
        return PageSize::new(0);
    }
    let named = db[PAGE_SIZE] as usize * 256 + db[PAGE_SIZE + 1] as usize;
    PageSize::new(if named == 1 { 65536 } else { named })
}

// Checks the write-ahead log of a database file whose page size is `size`, for lost commits.
fn check_log_for(rt: &HostRuntime, path: &str, log: &[u8], size: PageSize) -> Result<(), FileFault>
    ensures { IfErr result (λ fault. fault ≢ FileFault.Missing) }
{
    let checked = if is_shut(log) {
        let db = read_up_to(rt, path, u64::MAX)?;
        check_emptied(rt.alloc(), log, &db, size)
    } else {
        check_log(rt.alloc(), log, size)
    };
    match checked {
        Ok(()) => Ok(()),
        Err(LogFault::Memory) => Err(FileFault::Memory),
        Err(fault) => Err(FileFault::Log(fault)),
    }
}

// Checks the write-ahead log beside the file at a path once. Accepts a file whose header has no
// valid page size, because opening such a file later reports that it is no database.
fn check_once(rt: &HostRuntime, path: &str) -> Result<(), FileFault>
    ensures { IfErr result (λ fault. fault ≢ FileFault.Missing) }
{
    let Ok(log_path) = log_of(rt, path) else {
        return Err(FileFault::Memory);
    };
    let log = read_log(rt, log_path.as_str())?;
    let head = read_front(rt, path)?;
    match page_size_in(&head) {
        Some(size) => check_log_for(rt, path, &log, size),
        None => Ok(()),
    }
}

/// Checks that opening the database file at a path loses no commit in its write-ahead log. While
/// another process writes, a check may find damage that does not exist. If the function finds
/// damage, it therefore checks again. It reports damage only if both checks find the same damage,
/// and `Busy` if they find different damage. At the second check, everything written before the
/// first check is in the files.
pub fn check_beside(rt: &HostRuntime, path: &str) -> Result<(), FileFault>
    ensures { IfErr result (λ fault. fault ≢ FileFault.Missing) }
{
    match check_once(rt, path) {
        Err(FileFault::Log(fault)) => match check_once(rt, path) {
            Err(FileFault::Log(again)) if again != fault => Err(FileFault::Busy),
            checked => checked,
        },
        checked => checked,
    }
}
