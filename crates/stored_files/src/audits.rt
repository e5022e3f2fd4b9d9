//! Audits the metering records in a database, and checks whether successive database files continue
//! each other.
ghost use Rattle.std.specs.Prelude.{◌≡◌, ◌↔◌, ◌⊎◌, ◌++◌, [], true, false, Err, Some, IsTrue, IfOk, IfErr, OnOk, option_map, string_bytes};
ghost use Rattle.std.specs.Io.KnownBytes.{Appends};
ghost use Rattle.sqlite.specs.Held.{state};
ghost use Rattle.sqlite.specs.State.{HasCleanDisk};
ghost use Rattle.store_tables.specs.Content.{Content};
ghost use Rattle.store_tables.specs.declared.layouts.Layout.{Layout as TheLayout};
ghost use Rattle.store_tables.specs.declared.layouts.Layout.TheVariants.{First, Second};
ghost use Rattle.store_tables.specs.Layouts.{IsNamedAs};
ghost use Rattle.stored_files.specs.Audits.{IsOfTables, fault_of};
ghost use Rattle.table_audit.specs.FileMark.{ReportsMark};
ghost use Rattle.table_audit.specs.Looking.{HoldsRows, HoldsTables, OnlyLooks};
ghost use Rattle.table_audit.specs.Polls.{ReportsTables};
ghost use Rattle.table_audit.specs.JsonTexts.{with_json};
ghost use Rattle.table_audit.specs.Texts.{with_findings};
ghost use Rattle.table_seals.specs.Filing.{FilesMeters, HasUnfiledMeter};
ghost use Rattle.table_seals.specs.Joins.{after_next, joins_after, known_as, known_of};
ghost use Rattle.table_seals.specs.JoinTexts.{joined_text, lines_of, texts_of};

use sqlite::{Alter, Connection, Error, ErrorCode};
use std::alloc::Global;
use std::io::Write;
use store_tables::{Layout, RowFault, layout_of};
use sun_points::Sink;
use table_audit::{
    Findings, SchemaFault, audit_tables, check_definitions, is_marked, write_findings, write_json,
};
use table_seals::{FiledMeter, FiledOffice, Joining, append_joins, filed_meters};

/// A reason why the audit of a database file failed.
#[derive(Clone, Copy, Debug, PartialEq, Eq)]
pub enum AuditFault {
    /// The database does not have the tables of `sunreg`.
    NotOurs,
    /// The database has the tables of an earlier version of the program.
    Earlier,
    /// The tables, indexes, views or triggers of the database have other definitions than those
    /// that the program creates.
    Schema(SchemaFault),
    /// The table `meta` does not have exactly one row, with the id 1, the program's present version
    /// and a time zone.
    Mark,
    /// No seal (digests of the records) can be computed. A row has a value out of its range, or a
    /// name that a seal can't contain.
    Unsealable,
    /// A name in the audited database, or its time zone, is not valid text.
    NoText,
    /// The file that was given as a seal (digests of a database's records) does not have the text
    /// of a seal.
    NoSeal,
    /// The file with the seal (digests of a database's records) can't be read.
    Unread,
    /// Reading the database under audit failed.
    Store,
    Memory,
    /// The result of the audit can't be written.
    Output,
}

/// Returns Ok only if a database has exactly the schema of `sunreg` in its present version, and the
/// connection has no open transaction. With this schema, SQLite itself has checked the keys of all
/// rows.
pub(crate) fn check_ours<S: Alter>(connection: &Connection<S>) -> Result<(), AuditFault>
    ensures foreign { ((layout : TheLayout) → ¬ IsNamedAs connection.now.schema layout)
        → result ≡ Err AuditFault.NotOurs }
    ensures earlier { result ≡ Err AuditFault.Earlier → (IsNamedAs connection.now.schema First)
        ⊎ (IsNamedAs connection.now.schema Second) }
    ensures idle { OnOk result (connection.now.in_transaction ≡ false) }
    ensures ours { OnOk result ((content : Content) → HoldsRows S.Store connection.now content
        → HoldsTables S.Store connection.now content) }
    ensures fault { IfErr result (IsOfTables connection.now.schema) }
{
    if !connection.is_autocommit() {
        return Err(AuditFault::NotOurs);
    }
    match layout_of(connection.schema()) {
        None => Err(AuditFault::NotOurs),
        Some(Layout::First | Layout::Second) => Err(AuditFault::Earlier),
        Some(Layout::Third) => match check_definitions(connection) {
            Ok(()) => Ok(()),
            Err(fault) => Err(AuditFault::Schema(fault)),
        },
    }
}

/// Maps a fault of reading the rows of tables to an `AuditFault`.
pub(crate) fn fault_of(fault: RowFault) -> AuditFault
    ensures { result ≡ fault_of fault }
{
    match fault {
        RowFault::Sql(Error::SqliteFailure(ErrorCode::OutOfMemory)) => AuditFault::Memory,
        _ => AuditFault::Store,
    }
}

/// Returns Ok only if the table `meta` has exactly one row, with the present version of the file
/// and a time zone. Writes nothing to the database.
pub fn check_mark<S: Alter>(connection: &mut Connection<S>) -> Result<(), AuditFault>
    ensures foreign { ((layout : TheLayout) → ¬ IsNamedAs connection.old.schema layout)
        → result ≡ Err AuditFault.NotOurs }
    ensures idle { OnOk result (connection.old.in_transaction ≡ false) }
    ensures ours { OnOk result ((content : Content) → HoldsRows S.Store connection.old content
        → HoldsTables S.Store connection.old content) }
    ensures looks { connection.old.in_transaction ≡ false
        → OnlyLooks S.Store connection.old connection.new }
    ensures marked { HasCleanDisk (state S.Store connection.new) → (content : Content)
        → HoldsRows S.Store connection.old content → OnOk result (ReportsMark content true) }
    ensures unmarked { HasCleanDisk (state S.Store connection.new) → (content : Content)
        → HoldsRows S.Store connection.old content → result ≡ Err AuditFault.Mark
        → ReportsMark content false }
{
    check_ours(connection)?;
    match is_marked(connection) {
        Ok(true) => Ok(()),
        Ok(false) => Err(AuditFault::Mark),
        Err(fault) => Err(fault_of(fault)),
    }
}

/// Audits the metering records in a database. Checks that each meter's rows follow from a history
/// of entries that the rules for meter entries accept. Checks that no poll number is missing and no
/// outcome is earlier than its poll. Writes nothing to the database.
pub fn audit_stored<S: Alter>(
    alloc: Global,
    connection: &mut Connection<S>,
) -> Result<Findings, AuditFault>
    ensures foreign { ((layout : TheLayout) → ¬ IsNamedAs connection.old.schema layout)
        → result ≡ Err AuditFault.NotOurs }
    ensures idle { OnOk result (connection.old.in_transaction ≡ false) }
    ensures ours { OnOk result ((content : Content) → HoldsRows S.Store connection.old content
        → HoldsTables S.Store connection.old content) }
    ensures looks { connection.old.in_transaction ≡ false
        → OnlyLooks S.Store connection.old connection.new }
    ensures reports { HasCleanDisk (state S.Store connection.new) → (content : Content)
        → HoldsRows S.Store connection.old content → IfOk result (ReportsTables content) }
{
    check_ours(connection)?;
    match audit_tables(alloc, connection) {
        Ok(findings) => Ok(findings),
        Err(fault) => Err(fault_of(fault)),
    }
}

/// Writes the text of an audit's result to `output`. Returns whether the audit found no
/// discrepancies.
fn write_verdict<W: Write>(
    findings: &Findings,
    text: &[u8],
    output: &mut W,
) -> Result<bool, AuditFault>
    ensures fine { IfOk result (λ fine. IsTrue fine ↔ (findings.now.first.items ≡ [])) }
    ensures reported { OnOk result
        (Appends (W.contents output.old) (W.contents output.new) text.now) }
{
    match output.take_text(text) {
        Ok(()) => Ok(findings.is_fine()),
        Err(_) => Err(AuditFault::Output),
    }
}

/// Writes the result of an audit to `output` as JSON, one object a line. Returns whether the audit
/// found no discrepancies.
pub fn write_json_audit<W: Write>(
    alloc: Global,
    findings: &Findings,
    output: &mut W,
) -> Result<bool, AuditFault>
    ensures fine { IfOk result (λ fine. IsTrue fine ↔ (findings.now.first.items ≡ [])) }
    ensures reported { OnOk result (Appends (W.contents output.old) (W.contents output.new)
        (with_json [] findings.now)) }
{
    let mut text = Vec::new(alloc);
    if write_json(&mut text, findings).is_err() {
        return Err(AuditFault::Memory);
    }
    write_verdict(findings, text.as_slice(), output)
}

/// Writes the result of an audit to `output`. Returns whether the audit found no discrepancies.
pub fn write_audit<W: Write>(
    alloc: Global,
    findings: &Findings,
    output: &mut W,
) -> Result<bool, AuditFault>
    ensures fine { IfOk result (λ fine. IsTrue fine ↔ (findings.now.first.items ≡ [])) }
    ensures reported { OnOk result (Appends (W.contents output.old) (W.contents output.new)
        (with_findings [] findings.now)) }
{
    let mut text = Vec::new(alloc);
    if write_findings(&mut text, findings).is_err() {
        return Err(AuditFault::Memory);
    }
    write_verdict(findings, text.as_slice(), output)
}

/// Returns the meters in a database, to check that the next database file continues their counts.
/// If a meter has an invalid value, returns `NoText`: after an audit without discrepancies, such a
/// value can only be a name that is not valid text. Writes nothing to the database.
pub fn meters_stored<'a, S: Alter>(
    alloc: Global,
    connection: &mut Connection<S>,
    file: &'a str,
) -> Result<Vec<FiledMeter<'a>>, AuditFault>
    ensures foreign { ((layout : TheLayout) → ¬ IsNamedAs connection.old.schema layout)
        → result ≡ Err AuditFault.NotOurs }
    ensures looks { connection.old.in_transaction ≡ false
        → OnlyLooks S.Store connection.old connection.new }
    ensures reports { HasCleanDisk (state S.Store connection.new) → (content : Content)
        → HoldsRows S.Store connection.old content
        → IfOk result (λ meters. FilesMeters file.now content (Some meters)) }
    ensures unread { HasCleanDisk (state S.Store connection.new) → (content : Content)
        → HoldsRows S.Store connection.old content → result ≡ Err AuditFault.NoText
        → HasUnfiledMeter file.now content }
{
    check_ours(connection)?;
    match filed_meters(alloc, connection, file) {
        Ok(Some(meters)) => Ok(meters),
        Ok(None) => Err(AuditFault::NoText),
        Err(fault) => Err(fault_of(fault)),
    }
}

/// Checks whether the time zone and the meters of a database file continue those of the earlier
/// files. Appends a line to `joining` for each difference. If memory runs out, some lines may be
/// missing, and the data on the earlier files are lost.
pub fn hold_to_earlier<'a>(
    alloc: Global,
    joining: &mut Joining<'a>,
    file: &'a str,
    zone: String,
    meters: Vec<FiledMeter<'a>>,
) -> Result<(), AuditFault>
    ensures lines { OnOk result (texts_of joining.new.lines.items
        ≡ texts_of joining.old.lines.items
        ++ lines_of (joins_after (option_map known_of joining.old.known)
        (known_as file.now (string_bytes zone) meters.entry.items))) }
    ensures known { OnOk result (option_map known_of joining.new.known
        ≡ Some (after_next (option_map known_of joining.old.known)
        (known_as file.now (string_bytes zone) meters.entry.items))) }
    ensures fault { IfErr result (λ fault. fault ≡ AuditFault.Memory) }
{
    let latest = meters.len();
    let next = FiledOffice {
        file,
        zone,
        meters,
        latest,
    };
    match joining.join(alloc, next) {
        Ok(()) => Ok(()),
        Err(_) => Err(AuditFault::Memory),
    }
}

/// Writes the differences by which successive database files do not continue each other. Returns
/// true if there are no differences.
pub fn write_joins<W: Write>(
    alloc: Global,
    lines: &[Vec<u8>],
    output: &mut W,
) -> Result<bool, AuditFault>
    ensures fine { IfOk result (λ fine. IsTrue fine ↔ (lines.now ≡ [])) }
    ensures reported { OnOk result (Appends (W.contents output.old) (W.contents output.new)
        (joined_text lines.now)) }
{
    let mut said = Vec::new(alloc);
    if append_joins(&mut said, lines).is_err() {
        return Err(AuditFault::Memory);
    }
    match output.take_text(said.as_slice()) {
        Ok(()) => Ok(lines.is_empty()),
        Err(_) => Err(AuditFault::Output),
    }
}
