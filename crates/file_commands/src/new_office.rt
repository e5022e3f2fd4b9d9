//! Creates a new, empty database in a file.
use crate::copies::{Pair, make_whole, remove};
use crate::parts::{
    begin_new_part, check_name, finish_part, make_empty_log, rename_over, unwritable,
};
use crate::zones::{rule_of_name, similar_name};
use interval_core::Zone;
use office_store::OpenFault;
use std::{fs, io};
use stored_files::{
    CopyFault, Databases, Ending, Failure, check_regular, create_stored, is_bare, is_blank,
    length_of, log_of, real_path,
};

// Returns the failure to report if no new database can be created at a path, because the file there
// is not empty.
fn why_occupied<'a, D: Databases>(databases: &D, path: &'a str) -> Failure<'a> {
    match databases.make(path) {
        Ok(connection) if is_bare(&connection) => Failure::Occupied { path },
        Ok(_) => Failure::Unmade {
            path,
            fault: OpenFault::NotOurs,
        },
        Err(fault) => Failure::File { path, fault },
    }
}

// Creates the tables of a new database in a file with a temporary name, and merges the file's log
// into the file.
fn fill_part<'a, D: Databases>(
    rt: &HostRuntime,
    databases: &D,
    path: &'a str,
    zone: &str,
    part: &Pair,
) -> Result<(), Failure<'a>> {
    let connection = match databases.make(part.file.as_str()) {
        Ok(connection) => connection,
        Err(fault) => return Err(Failure::File { path, fault }),
    };
    if let Err(fault) = create_stored(rt.alloc(), connection, zone) {
        return Err(Failure::Unmade { path, fault });
    }
    match make_whole(rt, part.file.as_str()) {
        Ok(()) => Ok(()),
        Err(CopyFault::Memory) => Err(Failure::Memory),
        Err(_) => Err(unwritable(path)),
    }
}

// Replaces an empty file by a complete new file, which gets the empty file's permissions.
fn replace_empty(rt: &HostRuntime, part: &Pair, path: &str) -> io::Result<()> {
    let rights = fs::metadata(rt, path)?.permissions();
    fs::set_permissions(rt, part.file.as_str(), rights)?;
    fs::remove_file(rt, part.log.as_str())?;
    rename_over(rt, part.file.as_str(), path)
}

// Renames a complete new file to its final name. This name must not exist, or must be the name of
// an empty file.
fn name_new<'a>(
    rt: &HostRuntime,
    path: &'a str,
    part: &Pair,
    is_there: bool,
) -> Result<(), Failure<'a>> {
    if !is_there {
        return finish_part(rt, path, part);
    }
    let real = real_path(rt, path)?;
    match replace_empty(rt, part, real.as_str()) {
        Ok(()) => Ok(()),
        Err(_) => Err(unwritable(path)),
    }
}

// Creates a database in a file with a temporary name, and renames the file to its final name. On
// failure, removes the incomplete file. If only the sync of the folder fails, the file remains.
fn make_office<'a, D: Databases>(
    rt: &HostRuntime,
    databases: &D,
    path: &'a str,
    zone: &str,
    is_there: bool,
) -> Result<(), Failure<'a>> {
    let part = begin_new_part(rt, databases, path)?;
    let made = match fill_part(rt, databases, path, zone, &part) {
        Ok(()) => name_new(rt, path, &part, is_there),
        Err(failure) => Err(failure),
    };
    match made {
        Ok(()) => {
            make_empty_log(rt, path);
            Ok(())
        }
        Err(failure) => {
            remove(rt, &part);
            Err(failure)
        }
    }
}

// Creates a database at a path that has no file or an empty file. The log beside this path must be
// missing or empty.
fn create_in<'a, D: Databases>(
    rt: &HostRuntime,
    databases: &D,
    path: &'a str,
    zone: &str,
) -> Result<(), Failure<'a>> {
    check_name(path)?;
    if let Err(fault) = check_regular(rt, path) {
        return Err(Failure::File { path, fault });
    }
    let log = log_of(rt, path)?;
    let length = length_of(rt, path);
    if !is_blank(length) {
        return Err(why_occupied(databases, path));
    }
    if !is_blank(length_of(rt, log.as_str())) {
        return Err(Failure::LogAlone { path });
    }
    make_office(rt, databases, path, zone, length.is_some())
}

// Creates a database whose days follow the POSIX rule of a named time zone, and prints this rule.
fn create_by_rule<'a, D: Databases>(
    rt: &HostRuntime,
    databases: &D,
    path: &'a str,
    rule: &str,
) -> Result<(), Failure<'a>> {
    create_in(rt, databases, path, rule)?;
    match println!(rt; "zone {rule}") {
        Ok(()) => Ok(()),
        Err(_) => Err(Failure::Streams),
    }
}

// Reports, on standard error, the name of a time zone that the user may have meant.
fn report_similar(rt: &HostRuntime, zone: &str) {
    if let Ok(Some(name)) = similar_name(rt, zone) {
        let _said = eprintln!(rt; "sunreg: the system has the time zone {name}");
    }
}

/// Creates a database in the file at a path. `zone` is the time zone of the days in reports. It is
/// a POSIX rule, or the name of a zone whose current rule is in the operating system's zone files.
pub fn create<'a, D: Databases>(
    rt: &HostRuntime,
    databases: &D,
    path: &'a str,
    zone: &'a str,
) -> Ending<'a> {
    let created = if Zone::read(zone).is_ok() {
        create_in(rt, databases, path, zone)
    } else {
        let Ok(rule) = rule_of_name(rt, zone) else {
            return Ending::Failed(Failure::Memory);
        };
        let Some(rule) = rule else {
            report_similar(rt, zone);
            return Ending::NoZone(zone);
        };
        create_by_rule(rt, databases, path, rule.as_str())
    };
    match created {
        Ok(()) => Ending::Fine,
        Err(failure) => Ending::Failed(failure),
    }
}
