//! Finds the files of the command `run --carry`, which begins a new file each month or year. The
//! files are found by their names in one folder.
use energy_report::Period;
use file_commands::part_name;
use run_schedule::{ActivePeriod, active_period, file_of_period, period_of_file, periods_before};
use std::fs::{self, File};
use std::io::{self, ErrorKind};
use std::os::unix::fs::MetadataExt;
use stored_files::{Failure, FileFault, is_blank, length_of, log_of};

/// The maximum number of empty files that one call of `led_file` (which finds the current file of
/// `run --carry`) removes. A killed process can leave such a file.
const TRIES: u32 = 8;

/// The file to which `run --carry` currently writes, with its period, such as `2026-11`. The file
/// that the arguments name has no period.
#[derive(Drop)]
pub(crate) struct Led {
    pub(crate) path: String,
    text: Option<Vec<u8>>,
}

impl Led {
    /// Returns the period, such as `2026-11`, of the file to which `run --carry` currently writes.
    /// Returns `None` for the file that the arguments name.
    pub(crate) fn period(&self) -> Option<&[u8]> {
        match &self.text {
            Some(text) => Some(text.as_slice()),
            None => None,
        }
    }
}

// Splits the path of a file into its folder and its name.
fn split_path(path: &str) -> (&str, &str) {
    match path.rsplit_once('/') {
        Some((folder, name)) => (if folder.is_empty() { "/" } else { folder }, name),
        None => (".", path),
    }
}

// Returns the names of the files in a folder. Ignores names that are not UTF-8.
fn names_in(rt: &HostRuntime, folder: &str) -> io::Result<Vec<Vec<u8>>> {
    let mut names = Vec::new(rt.alloc());
    for entry in fs::read_dir(rt, folder)? {
        match entry {
            Ok(entry) => {
                let name = entry.file_name();
                names.push(Vec::from_slice(rt.alloc(), name.as_bytes())?)?;
            }
            Err(error) if error.kind() == ErrorKind::InvalidFilename => {}
            Err(error) => return Err(error),
        }
    }
    Ok(names)
}

// Returns the period of the file to which `run --carry` currently writes. The function searches the
// folder of `file`, which is the file that the arguments name.
fn period_beside(rt: &HostRuntime, file: &str, period: Period) -> io::Result<ActivePeriod> {
    let (folder, name) = split_path(file);
    let names = names_in(rt, folder)?;
    Ok(active_period(rt.alloc(), name.as_bytes(), period, names.as_slice())?)
}

/// Returns the path of the file of `run --carry` for the period `text`, in the folder of the file
/// that the arguments name.
pub(crate) fn path_of<'a>(
    rt: &HostRuntime,
    file: &str,
    text: &[u8],
) -> Result<String, Failure<'a>> {
    let Ok(bytes) = file_of_period(rt.alloc(), file.as_bytes(), text) else {
        return Err(Failure::Memory);
    };
    match String::from_utf8(bytes) {
        Ok(path) => Ok(path),
        Err(_) => Err(Failure::Memory),
    }
}

// Returns the file to which `run --carry` currently writes: the file for the period `text`, or the
// file that the arguments name if `text` is `None`.
fn led_path<'a>(rt: &HostRuntime, file: &str, text: Option<Vec<u8>>) -> Result<Led, Failure<'a>> {
    let path = match &text {
        Some(text) => path_of(rt, file, text.as_slice())?,
        None => match String::from_str(rt.alloc(), file) {
            Ok(path) => path,
            Err(_) => return Err(Failure::Memory),
        },
    };
    Ok(Led { path, text })
}

// Returns the file to which `run --carry` currently writes, judged only by the file names in the
// folder. If the folder does not exist, this is the file that the arguments name.
fn named_file<'a>(rt: &HostRuntime, file: &'a str, period: Period) -> Result<Led, Failure<'a>> {
    match period_beside(rt, file, period) {
        Ok(led) => led_path(rt, file, led.text),
        Err(error) if error.kind() == ErrorKind::NotFound => led_path(rt, file, None),
        Err(error) if error.kind() == ErrorKind::OutOfMemory => Err(Failure::Memory),
        Err(_) => {
            let fault = FileFault::Unreadable;
            Err(Failure::File { path: file, fault })
        }
    }
}

// Returns whether the file to which `run --carry` currently writes is the empty file of a period,
// and its log is empty or missing. A killed process may leave such a file on a file system without
// hard links.
fn is_left_empty<'a>(rt: &HostRuntime, led: &Led) -> Result<bool, Failure<'a>> {
    let path = led.path.as_str();
    if led.text.is_none() || length_of(rt, path) != Some(0) {
        return Ok(false);
    }
    let log = log_of(rt, path)?;
    Ok(is_blank(length_of(rt, log.as_str())))
}

/// Returns the file to which `run --carry` currently writes: the file of the latest period in the
/// folder, or the file that the arguments name if no period has a file. First removes empty files
/// of periods.
pub(crate) fn led_file<'a>(
    rt: &HostRuntime,
    file: &'a str,
    period: Period,
) -> Result<Led, Failure<'a>> {
    for _try in 0..TRIES {
        let led = named_file(rt, file, period)?;
        if !is_left_empty(rt, &led)? {
            return Ok(led);
        }
        let _gone = fs::remove_file(rt, led.path.as_str());
    }
    named_file(rt, file, period)
}

// Returns all periods (months or years, such as `2026-10`) before `current` that have a file in the
// folder, the oldest first.
fn periods_beside(
    rt: &HostRuntime,
    file: &str,
    period: Period,
    current: &[u8],
) -> io::Result<Vec<Vec<u8>>> {
    let (folder, name) = split_path(file);
    let names = names_in(rt, folder)?;
    let periods = periods_before(
        rt.alloc(),
        name.as_bytes(),
        period,
        current,
        names.as_slice(),
    )?;
    Ok(periods)
}

// Returns the paths of the files for the periods `texts`, in the order of `texts`. If the file that
// the arguments name exists, its path comes first.
fn paths_before<'a>(
    rt: &HostRuntime,
    file: &str,
    texts: &[Vec<u8>],
) -> Result<Vec<String>, Failure<'a>> {
    let mut paths = Vec::new(rt.alloc());
    if length_of(rt, file).is_some() {
        let Ok(own) = String::from_str(rt.alloc(), file) else {
            return Err(Failure::Memory);
        };
        if paths.push(own).is_err() {
            return Err(Failure::Memory);
        }
    }
    for text in texts {
        let path = path_of(rt, file, text.as_slice())?;
        if paths.push(path).is_err() {
            return Err(Failure::Memory);
        }
    }
    Ok(paths)
}

/// Returns the paths of those files of `run --carry` that are older than the file at `path`, the
/// oldest first. The file that the arguments name is the oldest file, followed by the files of
/// earlier periods.
pub(crate) fn files_before<'a>(
    rt: &HostRuntime,
    file: &'a str,
    period: Period,
    path: &str,
) -> Result<Vec<String>, Failure<'a>> {
    let (_, own) = split_path(file);
    let (_, name) = split_path(path);
    let Some(current) = period_of_file(own.as_bytes(), period, name.as_bytes()) else {
        return Ok(Vec::new(rt.alloc()));
    };
    match periods_beside(rt, file, period, current) {
        Ok(texts) => paths_before(rt, file, texts.as_slice()),
        Err(error) if error.kind() == ErrorKind::OutOfMemory => Err(Failure::Memory),
        Err(_) => {
            let fault = FileFault::Unreadable;
            Err(Failure::File { path: file, fault })
        }
    }
}

// Returns whether two paths are names of the same file, as after an interrupted renaming.
fn are_one(rt: &HostRuntime, path: &str, other: &str) -> bool {
    match (
        fs::symlink_metadata(rt, path),
        fs::symlink_metadata(rt, other),
    ) {
        (Ok(one), Ok(other)) => one.dev() == other.dev() && one.ino() == other.ino(),
        _ => false,
    }
}

// Removes the temporary name of a file that also has a final name, and syncs the folder.
fn remove_name(rt: &HostRuntime, path: &str, part: &str) -> io::Result<()> {
    fs::remove_file(rt, part)?;
    let mut folder = fs::canonicalize(rt, path)?;
    folder.pop();
    File::open(rt, folder.as_str())?.sync_all()
}

/// Removes the temporary name of a file that a killed process left under both its temporary and
/// final name. A file with two names cannot be opened.
pub(crate) fn leave_one_name(rt: &HostRuntime, path: &str) {
    let Ok(part) = part_name(rt, path) else {
        return;
    };
    if are_one(rt, path, part.as_str()) {
        let _removed = remove_name(rt, path, part.as_str());
    }
}
