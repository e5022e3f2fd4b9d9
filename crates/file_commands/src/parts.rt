//! Creates new files under the name NAME.part, and renames them to NAME once they are complete.
use crate::copies::{Pair, remove};
use std::alloc::AllocError;
use std::fs::{self, File, OpenOptions};
use std::io::{self, ErrorKind};
use std::os::unix::fs::OpenOptionsExt;
use stored_files::{CopyFault, Databases, Failure, FileFault, real_path};

/// The suffixes that the name of a database file must not have. They mark logs, journals, shared
/// memory and incomplete files.
const RESERVED: [&'static str; 4] = ["-wal", "-journal", "-shm", ".part"];

/// Returns whether a file or folder exists at a path. If the system cannot look up the path, the
/// file counts as existing.
pub fn is_there(rt: &HostRuntime, path: &str) -> bool {
    match fs::symlink_metadata(rt, path) {
        Ok(_) => true,
        Err(error) => error.kind() != ErrorKind::NotFound,
    }
}

/// Returns the temporary name that a new file has until it is complete. This is its final name with
/// the suffix `.part`.
pub fn part_name(rt: &HostRuntime, to: &str) -> Result<String, AllocError> {
    format!(in rt.alloc(); "{to}.part")
}

// Returns whether a name has one of the reserved suffixes, such as those of logs and incomplete
// files.
fn is_reserved(path: &str) -> bool {
    RESERVED.iter().any(|end| path.ends_with(*end))
}

/// Rejects a name with a reserved suffix, such as that of a log, for a new database file.
pub(crate) fn check_name(to: &str) -> Result<(), Failure<'_>> {
    if is_reserved(to) {
        return Err(Failure::Uncopied {
            path: to,
            fault: CopyFault::Reserved,
        });
    }
    Ok(())
}

// Returns the temporary names of an incomplete database file and its log.
fn pair_for<'a>(rt: &HostRuntime, to: &str) -> Result<Pair, Failure<'a>> {
    match (part_name(rt, to), format!(in rt.alloc(); "{to}.part-wal")) {
        (Ok(file), Ok(log)) => Ok(Pair { file, log }),
        _ => Err(Failure::Memory),
    }
}

// Rejects the name of a new file if it has a reserved suffix, or if a file with this name or its
// log already exists.
fn check_free<'a>(rt: &HostRuntime, to: &'a str) -> Result<(), Failure<'a>> {
    check_name(to)?;
    let Ok(log) = format!(in rt.alloc(); "{to}-wal") else {
        return Err(Failure::Memory);
    };
    if is_there(rt, to) || is_there(rt, log.as_str()) {
        return Err(Failure::Uncopied {
            path: to,
            fault: CopyFault::Exists,
        });
    }
    Ok(())
}

/// Returns the temporary names of an incomplete database file and its log. Fails if one of these
/// names, or a final name, already exists.
pub(crate) fn part_of<'a>(rt: &HostRuntime, to: &'a str) -> Result<Pair, Failure<'a>> {
    check_free(rt, to)?;
    let part = pair_for(rt, to)?;
    if is_there(rt, part.file.as_str()) || is_there(rt, part.log.as_str()) {
        return Err(Failure::Uncopied {
            path: to,
            fault: CopyFault::Unfinished,
        });
    }
    Ok(part)
}

// Creates an empty file that only its owner can read and write.
fn make_empty(rt: &HostRuntime, path: &str) -> io::Result<()> {
    drop(
        OpenOptions::new()
            .write(true)
            .create_new(true)
            .mode(0o600)
            .open(rt, path)?,
    );
    Ok(())
}

/// Returns the failure that reports that a new database file cannot be written.
pub(crate) fn unwritable(to: &str) -> Failure<'_> {
    Failure::Uncopied {
        path: to,
        fault: CopyFault::Unwritable,
    }
}

// Creates an empty file under the temporary name of an incomplete file.
fn begin<'a>(rt: &HostRuntime, to: &'a str, part: Pair) -> Result<Pair, Failure<'a>> {
    match make_empty(rt, part.file.as_str()) {
        Ok(()) => Ok(part),
        Err(_) => Err(unwritable(to)),
    }
}

/// Creates an empty new file under its temporary name. Fails if its temporary or final name already
/// exists.
pub(crate) fn begin_part<'a>(rt: &HostRuntime, to: &'a str) -> Result<Pair, Failure<'a>> {
    let part = part_of(rt, to)?;
    begin(rt, to, part)
}

// Returns whether an incomplete file may be removed. The file must be regular, or must not exist.
fn is_left_over(rt: &HostRuntime, part: &Pair) -> bool {
    match fs::symlink_metadata(rt, part.file.as_str()) {
        Ok(found) => found.is_file(),
        Err(error) => error.kind() == ErrorKind::NotFound,
    }
}

// Removes the incomplete file of an interrupted command. Returns false if the file is not regular,
// or if another process has the file open.
fn clear_left_over<D: Databases>(rt: &HostRuntime, databases: &D, part: &Pair) -> bool {
    if !is_left_over(rt, part) {
        return false;
    }
    if let Err(FileFault::Busy) = databases.open(part.file.as_str()) {
        return false;
    }
    remove(rt, part);
    true
}

// Removes the incomplete file of an interrupted command, and creates an empty file under its name.
fn begin_again<'a, D: Databases>(
    rt: &HostRuntime,
    databases: &D,
    to: &'a str,
    part: Pair,
) -> Result<Pair, Failure<'a>> {
    let is_taken = is_there(rt, part.file.as_str()) || is_there(rt, part.log.as_str());
    if is_taken && !clear_left_over(rt, databases, &part) {
        return Err(Failure::Uncopied {
            path: to,
            fault: CopyFault::Unfinished,
        });
    }
    begin(rt, to, part)
}

/// Removes the incomplete file of an interrupted command, and creates an empty new file under the
/// same temporary name.
pub(crate) fn begin_part_again<'a, D: Databases>(
    rt: &HostRuntime,
    databases: &D,
    to: &'a str,
) -> Result<Pair, Failure<'a>> {
    check_free(rt, to)?;
    let part = pair_for(rt, to)?;
    begin_again(rt, databases, to, part)
}

/// Creates an empty new file under its temporary name, like [`begin_part_again`]. The final name
/// may already exist if it is an empty file with an empty log.
pub(crate) fn begin_new_part<'a, D: Databases>(
    rt: &HostRuntime,
    databases: &D,
    to: &'a str,
) -> Result<Pair, Failure<'a>> {
    let real = real_path(rt, to)?;
    let part = pair_for(rt, real.as_str())?;
    begin_again(rt, databases, to, part)
}

// Syncs the folder of a file, so that the folder's file names are on the disk.
fn sync_folder(rt: &HostRuntime, path: &str) -> io::Result<()> {
    let mut folder = fs::canonicalize(rt, path)?;
    folder.pop();
    File::open(rt, folder.as_str())?.sync_all()
}

/// Renames a file, replaces any file with the new name, and syncs the folder.
pub(crate) fn rename_over(rt: &HostRuntime, part: &str, to: &str) -> io::Result<()> {
    fs::rename(rt, part, to)?;
    sync_folder(rt, to)
}

// Renames a file to a free name on a file system without hard links. On failure, the name stays
// free.
fn claim_name(rt: &HostRuntime, part: &str, to: &str) -> io::Result<()> {
    drop(File::create_new(rt, to)?);
    match rename_over(rt, part, to) {
        Ok(()) => Ok(()),
        Err(error) => {
            fs::remove_file(rt, to)?;
            Err(error)
        }
    }
}

// Renames a file to a free name, and syncs the folder. If the file system has hard links, the
// renaming is one step. The call can fail after the renaming, if the old name cannot be removed or
// the folder cannot be synced.
fn link_name(rt: &HostRuntime, part: &str, to: &str) -> io::Result<()> {
    match fs::hard_link(rt, part, to) {
        Ok(()) => {}
        Err(error) if error.kind() == ErrorKind::AlreadyExists => return Err(error),
        Err(_) => return claim_name(rt, part, to),
    }
    fs::remove_file(rt, part)?;
    sync_folder(rt, to)
}

/// Creates an empty write-ahead log beside a new database file. If the log is lost later, opening
/// the file then reports that it is missing. Errors of creating the empty log are ignored, because
/// it has no data.
pub(crate) fn make_empty_log(rt: &HostRuntime, to: &str) {
    if let Ok(log) = format!(in rt.alloc(); "{to}-wal") {
        let _made = make_empty(rt, log.as_str());
    }
}

// Removes the write-ahead log of an incomplete database file, after the log was merged into the
// file. Then renames the file to its final name.
fn name_part(rt: &HostRuntime, to: &str, pair: &Pair) -> io::Result<()> {
    fs::remove_file(rt, pair.log.as_str())?;
    link_name(rt, pair.file.as_str(), to)
}

/// Renames a complete file to its final name. The file's log must already be merged into the file.
/// Fails if the final name already exists. May also fail after the renaming, for example if the
/// folder cannot be synced.
pub(crate) fn finish_part<'a>(
    rt: &HostRuntime,
    to: &'a str,
    pair: &Pair,
) -> Result<(), Failure<'a>> {
    match name_part(rt, to, pair) {
        Ok(()) => Ok(()),
        Err(error) if error.kind() == ErrorKind::AlreadyExists => {
            Err(Failure::Uncopied {
                path: to,
                fault: CopyFault::Exists,
            })
        }
        Err(_) => Err(unwritable(to)),
    }
}
