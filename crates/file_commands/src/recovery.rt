//! Recovers the readable records of a database with a damaged log into a new file.
use crate::backups::copy_failure;
use crate::copies::{Pair, copy_settled, pair_at, remove};
use crate::escaped::Escaped;
use crate::files::{OfficeFiles, Opening};
use crate::parts::{begin_part_again, finish_part, make_empty_log};
use sqlite::{Connection, Unknown};
use std::io::{self, Write};
use stored_files::{
    AuditFault, CopyFault, Databases, Ending, Failure, FileFault, LogHeader, Named, audit_stored,
    check_beside, latest_stored, mend_beside, meters_stored, recovered_file, write_audit,
    write_recovered,
};

// Returns the paths of a database file and its log. Fails if the log is undamaged, because then
// nothing needs recovery.
fn damaged_pair<'a>(rt: &HostRuntime, db: &'a str) -> Result<Pair, Failure<'a>> {
    let pair = match pair_at(rt, db) {
        Ok(pair) => pair,
        Err(fault) => return Err(Failure::File { path: db, fault }),
    };
    match check_beside(rt, db) {
        Ok(()) => Err(Failure::Undamaged { path: db }),
        Err(FileFault::Log(_)) => Ok(pair),
        Err(fault) => Err(Failure::File { path: db, fault }),
    }
}

// Reports that all commits in the log of a file are lost.
fn say_lost(rt: &HostRuntime, db: &str) {
    let mut errors = Escaped::new(rt.stderr());
    let db = Named(db);
    let _said = write!(
        errors,
        "sunreg: {db}: the header of its log {db}-wal can't be repaired; all commits in the log are lost\n"
    );
}

// Repairs the header of a copied log, and merges the commits that recovery accepts into the copy.
fn recover_copy<'a>(
    rt: &HostRuntime,
    db: &'a str,
    to: &'a str,
    part: &Pair,
) -> Result<(), Failure<'a>> {
    match mend_beside(rt, part.file.as_str()) {
        Ok(LogHeader::Sound | LogHeader::Mended) => {}
        Ok(LogHeader::Lost) => say_lost(rt, db),
        Err(FileFault::Memory) => return Err(Failure::Memory),
        Err(_) => return Err(copy_failure(db, to, CopyFault::Unwritable)),
    }
    match recovered_file(rt, part.file.as_str(), Unknown) {
        Ok(_files) => Ok(()),
        Err(fault) => Err(copy_failure(db, to, fault)),
    }
}

// Copies a database file and its log to a new file with a temporary name, and recovers the copy.
fn fill_part<'a>(
    rt: &HostRuntime,
    source: &Pair,
    db: &'a str,
    to: &'a str,
    part: &Pair,
) -> Result<(), Failure<'a>> {
    remove(rt, part);
    match copy_settled(rt, source, part) {
        Ok(true) => recover_copy(rt, db, to, part),
        Ok(false) => Err(copy_failure(db, to, CopyFault::Changing)),
        Err(_) => Err(copy_failure(db, to, CopyFault::Unwritable)),
    }
}

// Audits the recovered database, and returns whether its rows follow the rules for meter entries
// and polls. If they do, prints a report on the records, otherwise the differences that the audit
// found.
fn report_over<D: Databases>(
    rt: &HostRuntime,
    mut connection: Connection<D::Store>,
    file: &str,
) -> Result<bool, AuditFault> {
    let alloc = rt.alloc();
    let findings = audit_stored(alloc, &mut connection)?;
    let mut output = io::writer(rt);
    if !write_audit(alloc, &findings, &mut output)? {
        return Ok(false);
    }
    let meters = meters_stored(alloc, &mut connection, file)?;
    let latest = latest_stored(alloc, connection)?;
    write_recovered(alloc, latest, meters.as_slice(), &mut output)?;
    Ok(true)
}

// Audits the recovered file and prints a report. If the audit finds no difference from what the
// program would write, renames the file to its final name.
fn finish<'a, D: OfficeFiles>(
    rt: &HostRuntime,
    files: &D,
    to: &'a str,
    part: &Pair,
) -> Result<bool, Failure<'a>> {
    let copies = files.opened(Opening::Copied);
    let connection = match copies.open(part.file.as_str()) {
        Ok(connection) => connection,
        Err(fault) => return Err(Failure::File { path: to, fault }),
    };
    match report_over::<D>(rt, connection, to) {
        Ok(true) => {}
        Ok(false) => return Ok(false),
        Err(AuditFault::Output) => return Err(Failure::Streams),
        Err(fault) => return Err(Failure::Unaudited { path: to, fault }),
    }
    finish_part(rt, to, part)?;
    make_empty_log(rt, to);
    Ok(true)
}

/// Recovers a file with a damaged log: writes the commits that SQLite's recovery accepts to a new
/// file, and prints a report on that file. The damaged file and its log are only read.
pub fn recover<'a, D: OfficeFiles>(
    rt: &HostRuntime,
    files: &D,
    db: &'a str,
    to: &'a str,
) -> Ending<'a> {
    let source = match damaged_pair(rt, db) {
        Ok(source) => source,
        Err(failure) => return Ending::Failed(failure),
    };
    let part = match begin_part_again(rt, files, to) {
        Ok(part) => part,
        Err(failure) => return Ending::Failed(failure),
    };
    let recovered = match fill_part(rt, &source, db, to, &part) {
        Ok(()) => finish(rt, files, to, &part),
        Err(failure) => Err(failure),
    };
    match recovered {
        Ok(true) => Ending::Fine,
        Ok(false) => {
            remove(rt, &part);
            Ending::Refused
        }
        Err(failure) => {
            remove(rt, &part);
            Ending::Failed(failure)
        }
    }
}
