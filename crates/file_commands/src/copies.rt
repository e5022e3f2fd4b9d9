//! Copies a database file together with its write-ahead log.
use sqlite::Unknown;
use std::env;
use std::fs::{self, File, OpenOptions};
use std::io::{self, ErrorKind, Read};
use std::os::unix::fs::OpenOptionsExt;
use std::time::{SystemTime, UNIX_EPOCH};
use stored_files::{
    CopyFault, FileConnection, FileFault, check_beside, is_blank, length_of, log_of, open_file,
    real_path, whole_file,
};

/// The maximum number of attempts to copy a file whose log is merged into it during the copy.
const TRIES: u32 = 8;

/// The length of a write-ahead log's header, in bytes. Merging a log into its file changes the salt
/// in this header.
const HEADER: u64 = 32;

/// The path of a database file, and the path of its write-ahead log.
#[derive(Drop)]
pub(crate) struct Pair {
    pub(crate) file: String,
    pub(crate) log: String,
}

/// Removes a database file and its log, if they exist.
pub(crate) fn remove(rt: &HostRuntime, pair: &Pair) {
    let _gone = fs::remove_file(rt, pair.file.as_str());
    let _gone = fs::remove_file(rt, pair.log.as_str());
}

/// Returns the real paths of a database file and its write-ahead log. Fails if a rollback journal
/// exists beside the file, because the file is then incomplete. Unlike [`sound_pair_at`], accepts a
/// log that has lost commits.
pub(crate) fn pair_at(rt: &HostRuntime, path: &str) -> Result<Pair, FileFault> {
    match fs::exists(rt, path) {
        Ok(true) => {}
        Ok(false) => return Err(FileFault::Missing),
        Err(_) => return Err(FileFault::Unreadable),
    }
    let (Ok(file), Ok(log)) = (real_path(rt, path), log_of(rt, path)) else {
        return Err(FileFault::Memory);
    };
    let Ok(journal) = format!(in rt.alloc(); "{}-journal", file.as_str()) else {
        return Err(FileFault::Memory);
    };
    if is_blank(length_of(rt, journal.as_str())) {
        Ok(Pair { file, log })
    } else {
        Err(FileFault::Unreadable)
    }
}

/// Returns the real paths of a database file and its write-ahead log, like [`pair_at`]. Fails if
/// the log has lost commits.
pub(crate) fn sound_pair_at(rt: &HostRuntime, path: &str) -> Result<Pair, FileFault> {
    check_beside(rt, path)?;
    pair_at(rt, path)
}

// Returns the first bytes of a write-ahead log, up to its header's length. Returns no bytes if the
// log does not exist.
fn header_of(rt: &HostRuntime, log: &str) -> io::Result<Vec<u8>> {
    let mut header = Vec::new(rt.alloc());
    match File::open(rt, log) {
        Ok(file) => {
            file.take(HEADER).read_to_end(&mut header)?;
            Ok(header)
        }
        Err(error) if error.kind() == ErrorKind::NotFound => Ok(header),
        Err(error) => Err(error),
    }
}

// Copies a file into a new file, which only its owner can read and write, and syncs it.
fn copy_file(rt: &HostRuntime, from: &str, to: &str) -> io::Result<()> {
    let mut original = File::open(rt, from)?;
    let mut copy = OpenOptions::new()
        .read(true)
        .write(true)
        .create_new(true)
        .mode(0o600)
        .open(rt, to)?;
    io::copy(&mut original, &mut copy)?;
    copy.sync_all()
}

// Copies a database file and then its write-ahead log. Returns whether the log's header stayed the
// same during the copy. If the header stayed the same, no checkpoint ran, and the two copies belong
// together. The copied log includes commits that another process wrote during the copy.
fn copy_pair(rt: &HostRuntime, source: &Pair, part: &Pair) -> io::Result<bool> {
    let before = header_of(rt, source.log.as_str())?;
    copy_file(rt, source.file.as_str(), part.file.as_str())?;
    match copy_file(rt, source.log.as_str(), part.log.as_str()) {
        Ok(()) => {}
        Err(error) if error.kind() == ErrorKind::NotFound && before.is_empty() => {}
        Err(error) => return Err(error),
    }
    let after = header_of(rt, source.log.as_str())?;
    Ok(before.as_slice() == after.as_slice())
}

/// Copies a database file and its write-ahead log. Repeats the copy if a checkpoint ran during it.
/// Returns whether the copied file and the copied log belong together.
pub(crate) fn copy_settled(rt: &HostRuntime, source: &Pair, copy: &Pair) -> io::Result<bool> {
    for _ in 0..TRIES {
        if copy_pair(rt, source, copy)? {
            return Ok(true);
        }
        remove(rt, copy);
    }
    Ok(false)
}

// Returns whether the write-ahead log of a copied file still has all its commits. Fails if the log
// cannot be checked.
fn is_sound(rt: &HostRuntime, copy: &Pair) -> io::Result<bool> {
    match check_beside(rt, copy.file.as_str()) {
        Ok(()) => Ok(true),
        Err(FileFault::Log(_) | FileFault::Busy) => Ok(false),
        Err(FileFault::Memory) => Err(io::Error::from(ErrorKind::OutOfMemory)),
        Err(_) => Err(io::Error::from(ErrorKind::InvalidData)),
    }
}

/// Copies a database file and its write-ahead log. Repeats the copy if a checkpoint ran during it,
/// or if the copied log has lost commits. If another process writes during the copy, the copied log
/// can have later frames without earlier frames.
pub(crate) fn copy_sound(rt: &HostRuntime, source: &Pair, copy: &Pair) -> io::Result<bool> {
    for _ in 0..TRIES {
        if copy_settled(rt, source, copy)? && is_sound(rt, copy)? {
            return Ok(true);
        }
        remove(rt, copy);
    }
    Ok(false)
}

/// Merges the log of a database file into the file, which then needs no log. No other process may
/// have the file open.
pub(crate) fn make_whole(rt: &HostRuntime, file: &str) -> Result<(), CopyFault> {
    match whole_file(rt, file, Unknown) {
        Ok(_files) => Ok(()),
        Err(fault) => Err(fault),
    }
}

// Returns the paths for a temporary copy of a database file and its log, in the folder for
// temporary files. The names contain the current time.
fn passing_names(rt: &HostRuntime) -> Result<Pair, FileFault> {
    let alloc = rt.alloc();
    let (Ok(folder), Ok(now)) = (env::temp_dir(rt), SystemTime::now(rt)) else {
        return Err(FileFault::Unreadable);
    };
    let Ok(since) = now.duration_since(UNIX_EPOCH) else {
        return Err(FileFault::Unreadable);
    };
    let (folder, at, part) = (folder.as_str(), since.as_secs(), since.subsec_nanos());
    let (Ok(file), Ok(log)) = (
        format!(in alloc; "{folder}/sunreg-{at}-{part}.db"),
        format!(in alloc; "{folder}/sunreg-{at}-{part}.db-wal"),
    ) else {
        return Err(FileFault::Memory);
    };
    Ok(Pair { file, log })
}

/// Opens a temporary copy of the database at a path. The copy disappears when the connection is
/// closed. The original file and its folder are not changed, and other processes can keep using the
/// file.
pub(crate) fn open_copy(
    rt: &HostRuntime,
    path: &str,
) -> Result<FileConnection<Unknown>, FileFault> {
    let source = sound_pair_at(rt, path)?;
    let copy = passing_names(rt)?;
    let opened = match copy_sound(rt, &source, &copy) {
        Ok(true) => open_file(rt, copy.file.as_str(), Unknown),
        Ok(false) => Err(FileFault::Busy),
        Err(_) => Err(FileFault::Unreadable),
    };
    // Unix keeps an open file until it is closed, so the names of the temporary copy of the
    // database can be removed now.
    remove(rt, &copy);
    opened
}
