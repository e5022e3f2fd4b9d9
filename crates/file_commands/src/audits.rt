//! Audits database files of `sunreg`, and prints or checks a seal of a file. A seal is a signed-off
//! digest of the file's past.
ghost use Rattle.std.specs.Prelude.{◌≡◌, ◌↔◌, [], true, false, bytes_eq, IsTrue, IfOk, OnOk};
ghost use Rattle.std.specs.Io.KnownBytes.{Appends};
ghost use Rattle.sqlite.specs.Held.{state};
ghost use Rattle.sqlite.specs.State.{HasCleanDisk};
ghost use Rattle.store_tables.specs.Content.{Content};
ghost use Rattle.table_audit.specs.Looking.{HoldsRows, HoldsTables, OnlyLooks};
ghost use Rattle.table_seals.specs.JoinTexts.{joined_text};
ghost use Rattle.file_commands.specs.Audits.{Audits, AuditsFile, AuditsTables, zone_fault};
ghost use Rattle.command_words.specs.declared.line.Sealing.TheVariants.{Against};
ghost use Rattle.file_commands.specs.Audits.{EndsAudit, PrintsChecked, PrintsSeal, ending_of_audit, findings_text};
ghost use Rattle.file_commands.specs.JoinedAudits.{AuditsNext, AuditsPath, AuditsPaths};
ghost use Rattle.file_commands.specs.JoinedAudits.{AuditsSeveral, EndsSeveral, JoinsNext, PrintsLine};
ghost use Rattle.file_commands.specs.JoinedAudits.{are_apart};
ghost use Rattle.std.specs.List.{list_any};
ghost use Rattle.std.specs.Option.{MatchOption};

use crate::files::{OfficeFiles, Opening};
use crate::opening::open_in;
use command_words::Sealing;
use office_store::OpenFault;
use sqlite::{Alter, Connection};
use std::alloc::Global;
use std::fs::{self, File};
use std::io::{self, ErrorKind, Read, Write};
use std::str::from_utf8;
use stored_files::{
    AuditFault, Databases, Ending, Failure, Joining, Named, audit_stored, check_mark,
    check_stored_seal, hold_to_earlier, meters_stored, read_zone_text, seal_stored, write_audit,
    write_checked, write_joins, write_json_audit, write_seal,
};
use sun_points::Sink;
use table_audit::Findings;

/// The maximum length of a seal (a digest of a file's past) that the command `audit` reads, in
/// bytes. A seal of 4,096 meters, each with a thousand voided (cancelled) entries, is shorter.
const MOST_SEAL: u64 = 300_000_000;

/// The first bytes of each seal (a digest of a file's past).
const SEAL_BEGIN: &[u8; 5] = b"seal ";

// Prints the seal of a database: a signed-off digest of its past.
fn print_seal<S: Alter, W: Write>(
    alloc: Global,
    connection: &mut Connection<S>,
    output: &mut W,
) -> Result<bool, AuditFault>
    ensures looks { connection.old.in_transaction ≡ false
        → OnlyLooks S.Store connection.old connection.new }
    ensures prints { HasCleanDisk (state S.Store connection.new) → (content : Content)
        → HoldsRows S.Store connection.old content
        → IfOk result (PrintsSeal content (W.contents output.old) (W.contents output.new)) }
{
    let seal = seal_stored(alloc, connection)?;
    write_seal(alloc, &seal, output)?;
    Ok(true)
}

// Compares the tables of a database with a seal, a signed-off digest of their past, and prints the
// result. Returns whether the tables still match the seal.
fn hold_to<S: Alter, W: Write>(
    alloc: Global,
    connection: &mut Connection<S>,
    text: &str,
    output: &mut W,
) -> Result<bool, AuditFault>
    ensures looks { connection.old.in_transaction ≡ false
        → OnlyLooks S.Store connection.old connection.new }
    ensures prints { HasCleanDisk (state S.Store connection.new) → (content : Content)
        → HoldsRows S.Store connection.old content
        → IfOk result (PrintsChecked content text.now
        (W.contents output.old) (W.contents output.new)) }
{
    let checked = check_stored_seal(alloc, connection, text)?;
    write_checked(alloc, &checked, output)
}

// Prints the findings of an audit, as text or as JSON. Returns whether there are none.
fn print_findings<W: Write>(
    alloc: Global,
    findings: &Findings,
    seal: Sealing<'_>,
    output: &mut W,
) -> Result<bool, AuditFault>
    ensures fine { IfOk result (λ fine. IsTrue fine ↔ (findings.now.first.items ≡ [])) }
    ensures reported { OnOk result (Appends (W.contents output.old) (W.contents output.new)
        (findings_text seal.entry findings.now)) }
{
    match seal {
        Sealing::Json => write_json_audit(alloc, findings, output),
        Sealing::Nothing | Sealing::Print | Sealing::Against(_) => {
            write_audit(alloc, findings, output)
        }
    }
}

// Audits the tables of a database whose row of `meta` was checked.
fn audit_marked<S: Alter, W: Write>(
    alloc: Global,
    connection: &mut Connection<S>,
    seal: Sealing<'_>,
    output: &mut W,
) -> Result<bool, AuditFault>
    ensures looks { connection.old.in_transaction ≡ false
        → OnlyLooks S.Store connection.old connection.new }
    ensures audits { HasCleanDisk (state S.Store connection.new) → (content : Content)
        → HoldsRows S.Store connection.old content
        → IfOk result (Audits content seal.entry
        (W.contents output.old) (W.contents output.new)) }
{
    let findings = audit_stored(alloc, connection)?;
    if !findings.is_fine() {
        return print_findings(alloc, &findings, seal, output);
    }
    match seal {
        Sealing::Nothing => write_audit(alloc, &findings, output),
        Sealing::Json => write_json_audit(alloc, &findings, output),
        Sealing::Print => print_seal(alloc, connection, output),
        Sealing::Against(text) => hold_to(alloc, connection, text, output),
    }
}

// Audits the tables of a database. If they follow the rules for meter entries and polls, also
// prints a seal (a digest of the tables) or compares the tables with a seal, as `seal` requests.
// Returns whether the audit and the comparison found no discrepancy.
fn audit_over<S: Alter, W: Write>(
    alloc: Global,
    connection: &mut Connection<S>,
    seal: Sealing<'_>,
    output: &mut W,
) -> Result<bool, AuditFault>
    ensures idle { OnOk result (connection.old.in_transaction ≡ false) }
    ensures ours { OnOk result ((content : Content) → HoldsRows S.Store connection.old content
        → HoldsTables S.Store connection.old content) }
    ensures looks { connection.old.in_transaction ≡ false
        → OnlyLooks S.Store connection.old connection.new }
    ensures audits { HasCleanDisk (state S.Store connection.new) → (content : Content)
        → HoldsRows S.Store connection.old content
        → IfOk result (AuditsTables content seal.entry
        (W.contents output.old) (W.contents output.new)) }
{
    check_mark(connection)?;
    audit_marked(alloc, connection, seal, output)
}

// Returns why a database file could not be audited.
fn unaudited(path: &str, fault: AuditFault) -> Failure<'_> {
    match fault {
        AuditFault::Output => Failure::Streams,
        fault => Failure::Unaudited { path, fault },
    }
}

// Audits the tables of the database at a path.
fn audit_in<'a, D: Databases, W: Write>(
    rt: &HostRuntime,
    databases: &D,
    path: &'a str,
    seal: Sealing<'_>,
    output: &mut W,
) -> Result<bool, Failure<'a>>
    ensures { IfOk result (AuditsFile D.Store.Store (D.opens databases.now) path.now seal.entry
        (W.contents output.old) (W.contents output.new)) }
{
    let mut connection = open_in(rt, databases, path)?;
    match audit_over(rt.alloc(), &mut connection, seal, output) {
        Ok(fine) => Ok(fine),
        Err(fault) => Err(unaudited(path, fault)),
    }
}

// Returns the length of a file that should contain a seal (a digest of a database's past), or
// `None` if the file is longer than any seal. Fails if the file is not regular.
fn seal_length(rt: &HostRuntime, file: &str) -> io::Result<Option<u64>> {
    let found = fs::metadata(rt, file)?;
    if !found.is_file() {
        return Err(io::Error::from(ErrorKind::InvalidInput));
    }
    let length = found.len();
    Ok(if length <= MOST_SEAL {
        Some(length)
    } else {
        None
    })
}

// Returns the bytes of a file that should contain a seal (a digest of a database's past). Returns
// `None` if the file is too long for a seal, or does not begin like a seal.
fn seal_in(rt: &HostRuntime, file: &str) -> io::Result<Option<Vec<u8>>> {
    let Some(length) = seal_length(rt, file)? else {
        return Ok(None);
    };
    let mut open = File::open(rt, file)?;
    let mut begin = [0u8; 5];
    let count = open.read(&mut begin)?;
    if begin[..count] != SEAL_BEGIN[..] {
        return Ok(None);
    }
    let Ok(mut bytes) = SEAL_BEGIN.to_vec(rt.alloc()) else {
        return Err(io::Error::from(ErrorKind::OutOfMemory));
    };
    open.take(length).read_to_end(&mut bytes)?;
    Ok(Some(bytes))
}

fn ended(reported: Result<bool, Failure<'_>>) -> Ending<'_>
    ensures { result ≡ ending_of_audit reported.entry }
{
    match reported {
        Ok(true) => Ending::Fine,
        Ok(false) => Ending::Refused,
        Err(failure) => Ending::Failed(failure),
    }
}

// Audits the tables of a database, and compares them with the seal (a digest of their past) in a
// file.
fn audit_against<'a, D: Databases, W: Write>(
    rt: &HostRuntime,
    databases: &D,
    path: &'a str,
    file: &'a str,
    output: &mut W,
) -> Ending<'a>
    ensures { EndsAudit D.Store.Store (D.opens databases.now) path.now (Against file.entry)
        (W.contents output.old) (W.contents output.new) result }
{
    let bytes = match seal_in(rt, file) {
        Ok(Some(bytes)) => bytes,
        Ok(None) => return Ending::NoSeal(file),
        Err(_) => {
            return Ending::Failed(Failure::Unaudited {
                path: file,
                fault: AuditFault::Unread,
            });
        }
    };
    let Ok(text) = from_utf8(bytes.as_slice()) else {
        return Ending::NoSeal(file);
    };
    match audit_in(rt, databases, path, Sealing::Against(text), output) {
        Err(
            Failure::Unaudited {
                fault: AuditFault::NoSeal,
                ..
            },
        ) => Ending::NoSeal(file),
        reported => ended(reported),
    }
}

/// Audits a database file: checks that its rows follow the rules for meter entries and polls. If
/// requested, prints the result as JSON, also prints a seal (a digest of the rows), or compares the
/// rows with a seal. Writes nothing to the database file.
pub fn audit<'a, D: OfficeFiles, W: Write>(
    rt: &HostRuntime,
    files: &D,
    path: &'a str,
    seal: Sealing<'a>,
    output: &mut W,
) -> Ending<'a>
    ensures { EndsAudit D.Store.Store (D.opens files.now) path.now seal.entry
        (W.contents output.old) (W.contents output.new) result }
{
    let copies = files.opened(Opening::Copied);
    match seal {
        Sealing::Against(file) => audit_against(rt, &copies, path, file, output),
        Sealing::Nothing => ended(audit_in(rt, &copies, path, Sealing::Nothing, output)),
        Sealing::Json => ended(audit_in(rt, &copies, path, Sealing::Json, output)),
        Sealing::Print => ended(audit_in(rt, &copies, path, Sealing::Print, output)),
    }
}

// Functions that audit several successive database files.

// Converts a failure to read a file's time zone into the fault that the audit reports.
fn zone_fault(fault: OpenFault) -> AuditFault
    ensures { result ≡ zone_fault fault }
{
    match fault {
        OpenFault::NotOurs => AuditFault::NotOurs,
        OpenFault::Zone => AuditFault::NoText,
        OpenFault::Store => AuditFault::Store,
        OpenFault::Memory => AuditFault::Memory,
    }
}

// Checks whether a database file continues the meter history of the earlier files: the file's
// meters must begin with their last entries in the earlier files.
fn join_next<'a, S: Alter>(
    alloc: Global,
    connection: &mut Connection<S>,
    file: &'a str,
    joining: &mut Joining<'a>,
) -> Result<(), AuditFault>
    ensures clean { connection.old.in_transaction ≡ false
        → HasCleanDisk (state S.Store connection.new)
        → HasCleanDisk (state S.Store connection.old) }
    ensures joins { HasCleanDisk (state S.Store connection.new) → (content : Content)
        → HoldsRows S.Store connection.old content
        → OnOk result (JoinsNext file.now content joining.old joining.new) }
{
    let meters = meters_stored(alloc, connection, file)?;
    match read_zone_text(connection) {
        Ok(zone) => hold_to_earlier(alloc, joining, file, zone, meters),
        Err(fault) => Err(zone_fault(fault)),
    }
}

// Audits the tables of one of several successive database files. If neither this file nor an
// earlier one (`so_far`) differs from what the program would write, also checks whether this file
// continues their meter history. Returns whether none of the files audited until now has such a
// difference.
fn audit_next<'a, S: Alter, W: Write>(
    alloc: Global,
    connection: &mut Connection<S>,
    file: &'a str,
    so_far: bool,
    joining: &mut Joining<'a>,
    output: &mut W,
) -> Result<bool, AuditFault>
    ensures { HasCleanDisk (state S.Store connection.new) → (content : Content)
        → HoldsRows S.Store connection.old content
        → IfOk result (AuditsNext file.now content so_far joining.old joining.new
        (W.contents output.old) (W.contents output.new)) }
{
    if !audit_over(alloc, connection, Sealing::Nothing, output)? {
        return Ok(false);
    }
    if !so_far {
        return Ok(false);
    }
    join_next(alloc, connection, file, joining)?;
    Ok(true)
}

// Prints a line with the name of a database file.
fn print_name<W: Write>(alloc: Global, path: &str, output: &mut W) -> Result<(), Failure<'static>>
    ensures { OnOk result (PrintsLine (W.contents output.old) (W.contents output.new)) }
{
    let Ok(line) = format!(in alloc; "file {}\n", Named(path)) else {
        return Err(Failure::Memory);
    };
    match output.take_text(line.as_bytes()) {
        Ok(()) => Ok(()),
        Err(_) => Err(Failure::Streams),
    }
}

// Prints a line with the name of a database file, and audits the file.
fn audit_file<'a, D: Databases, W: Write>(
    rt: &HostRuntime,
    databases: &D,
    path: &'a str,
    so_far: bool,
    joining: &mut Joining<'a>,
    output: &mut W,
) -> Result<bool, Failure<'a>>
    ensures { IfOk result (AuditsPath D.Store.Store (D.opens databases.now) path.now so_far
        joining.old joining.new (W.contents output.old) (W.contents output.new)) }
{
    print_name(rt.alloc(), path, output)?;
    let mut connection = open_in(rt, databases, path)?;
    match audit_next(rt.alloc(), &mut connection, path, so_far, joining, output) {
        Ok(fine) => Ok(fine),
        Err(fault) => Err(unaudited(path, fault)),
    }
}

// Audits the files at the given paths in order. Returns whether they and the files before
// (`so_far`) have no difference from what the program would write.
fn audit_paths<'a, D: Databases, W: Write>(
    rt: &HostRuntime,
    databases: &D,
    paths: &[&'a str],
    so_far: bool,
    joining: &mut Joining<'a>,
    output: &mut W,
) -> Result<bool, Failure<'a>>
    ensures { IfOk result (AuditsPaths D.Store.Store (D.opens databases.now) paths.now so_far
        joining.old joining.new (W.contents output.old) (W.contents output.new)) }
{
    match paths {
        [] => Ok(so_far),
        [path, rest @ ..] => {
            let fine = audit_file(rt, databases, *path, so_far, joining, output)?;
            audit_paths(rt, databases, rest, fine, joining, output)
        }
    }
}

// Prints the differences between audited files: another time zone, or a meter that a later file
// does not continue. The function is called only if the audit of each single file found no
// difference. Returns whether there are no differences between the files.
fn print_joins<W: Write>(
    alloc: Global,
    joining: &Joining<'_>,
    output: &mut W,
) -> Result<bool, Failure<'static>>
    ensures fine { IfOk result (λ fine. IsTrue fine ↔ (joining.now.lines.items ≡ [])) }
    ensures reported { OnOk result (Appends (W.contents output.old) (W.contents output.new)
        (joined_text joining.now.lines.items)) }
{
    match write_joins(alloc, joining.lines.as_slice(), output) {
        Ok(joined) => Ok(joined),
        Err(AuditFault::Memory) => Err(Failure::Memory),
        Err(_) => Err(Failure::Streams),
    }
}

// Audits the files at the given paths in order. Returns whether no file differs from what the
// program would write, and each file continues the meter history of the previous file.
fn audit_files<'a, D: Databases, W: Write>(
    rt: &HostRuntime,
    databases: &D,
    paths: &[&'a str],
    output: &mut W,
) -> Result<bool, Failure<'a>>
    ensures { IfOk result (AuditsSeveral D.Store.Store (D.opens databases.now) paths.now
        (W.contents output.old) (W.contents output.new)) }
{
    let mut joining = Joining::new(rt.alloc());
    if audit_paths(rt, databases, paths, true, &mut joining, output)? {
        print_joins(rt.alloc(), &joining, output)
    } else {
        Ok(false)
    }
}

// Returns whether the path of a database file equals a path in the list `paths`.
fn is_in(path: &str, paths: &[&str]) -> bool
    ensures { result ≡ list_any (λ other. bytes_eq other.now path.now) paths.now }
{
    paths.iter().any(|other| *other == path)
}

// Returns the first path that occurs again later in a list, or `None` if all paths of the list are
// different.
fn twice<'a>(paths: &[&'a str]) -> Option<&'a str>
    ensures { MatchOption result (are_apart paths.now ≡ true)
        (λ path. are_apart paths.now ≡ false) }
{
    match paths {
        [] => None,
        [path, rest @ ..] => {
            if is_in(*path, rest) {
                Some(*path)
            } else {
                twice(rest)
            }
        }
    }
}

/// Audits successive database files, the oldest first, and checks whether each file continues the
/// meter history of the previous file. Writes nothing to the files, and opens one at a time.
pub fn audit_several<'a, D: OfficeFiles, W: Write>(
    rt: &HostRuntime,
    files: &D,
    paths: &[&'a str],
    output: &mut W,
) -> Ending<'a>
    ensures { EndsSeveral D.Store.Store (D.opens files.now) paths.now
        (W.contents output.old) (W.contents output.new) result }
{
    if let Some(path) = twice(paths) {
        return Ending::Twice(path);
    }
    ended(audit_files(rt, &files.opened(Opening::Copied), paths, output))
}
