//! Copies a database file and its log into one complete new file, even while another process uses
//! the file.
use crate::copies::{Pair, copy_sound, make_whole, remove, sound_pair_at};
use crate::parts::{finish_part, part_of};
use stored_files::{CopyFault, Ending, Failure};

/// Returns the failure of a command that could not copy a database file. The failure names the file
/// at fault: the original or the copy.
pub(crate) fn copy_failure<'a>(db: &'a str, to: &'a str, fault: CopyFault) -> Failure<'a> {
    match fault {
        CopyFault::Changing | CopyFault::Torn | CopyFault::NotOurs => {
            Failure::Uncopied { path: db, fault }
        }
        CopyFault::Exists | CopyFault::Unfinished | CopyFault::Unwritable | CopyFault::Reserved => {
            Failure::Uncopied { path: to, fault }
        }
        CopyFault::Memory => Failure::Memory,
    }
}

// Copies a database file and its log to new files with temporary names.
fn copy_parts<'a>(
    rt: &HostRuntime,
    db: &'a str,
    to: &'a str,
    source: &Pair,
    part: &Pair,
) -> Result<(), Failure<'a>> {
    match copy_sound(rt, source, part) {
        Ok(true) => Ok(()),
        Ok(false) => Err(copy_failure(db, to, CopyFault::Changing)),
        Err(_) => Err(copy_failure(db, to, CopyFault::Unwritable)),
    }
}

// Completes the copy of a database: merges its log into the file, and renames the file to its final
// name.
fn finish<'a>(rt: &HostRuntime, db: &'a str, to: &'a str, part: &Pair) -> Result<(), Failure<'a>> {
    match make_whole(rt, part.file.as_str()) {
        Ok(()) => finish_part(rt, to, part),
        Err(fault) => Err(copy_failure(db, to, fault)),
    }
}

fn back_up<'a>(rt: &HostRuntime, db: &'a str, to: &'a str) -> Result<(), Failure<'a>> {
    let source = match sound_pair_at(rt, db) {
        Ok(source) => source,
        Err(fault) => return Err(Failure::File { path: db, fault }),
    };
    let part = part_of(rt, to)?;
    let made = match copy_parts(rt, db, to, &source, &part) {
        Ok(()) => finish(rt, db, to, &part),
        Err(failure) => Err(failure),
    };
    if made.is_err() {
        remove(rt, &part);
    }
    made
}

/// Copies a database file and its log into one new file. Another process may be using the file.
pub fn backup<'a>(rt: &HostRuntime, db: &'a str, to: &'a str) -> Ending<'a> {
    match back_up(rt, db, to) {
        Ok(()) => Ending::Fine,
        Err(failure) => Ending::Failed(failure),
    }
}
