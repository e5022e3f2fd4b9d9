//! Audits the rows of all meters in a file's tables.
ghost use Rattle.std.specs.Prelude.{◌≡◌, ◌≤◌, ◌↔◌, ◌++◌, [], false, length, IsTrue, IfOk, IfErr, OnOk};
ghost use Rattle.std.specs.Prelude.{Some, None, option_to_list};
ghost use Rattle.store_tables.specs.Failing.{want_of_memory};
ghost use Rattle.table_audit.specs.Looking.{Finds};
ghost use Rattle.table_audit.specs.Meters.{IsFineMeter, ReportsRow, ReportsRows, ReportsMeters, counted};
ghost use Rattle.table_audit.specs.Named.{IsReported};
ghost use Rattle.table_audit.specs.Reporting.{Reports};
ghost use Rattle.table_audit.specs.Spans.{overlaps};

use crate::audit::audit_rows;
use crate::differences::{Difference, Differences, MOST, NamedTable, Table};
use crate::findings::{Finding, Findings};
use crate::names::name;
use crate::queries::{installations, meter_rows};
use crate::reading::{installation, meter_name};
use crate::rows::MeterRows;
use crate::spans::{MeterSpan, append_overlaps, span};
use sqlite::{Alter, Connection, Error, ErrorCode, Row};
use std::alloc::{AllocError, Global};
use store_tables::RowFault;

/// Reports a row of `installations` whose index `has` differs from `wanted`, the index that follows
/// the previous row's index. Returns whether the two indices are equal.
fn append_index(has: u64, wanted: u64, found: &mut Differences) -> Result<bool, AllocError>
    requires few { length found.old.first.items ≤ MOST }
    ensures placed { IfOk result (λ placed. IsTrue placed ↔ (has ≡ wanted)) }
    ensures reports { IfOk result (λ placed. Reports placed found.old found.new) }
    ensures few { OnOk result (length found.new.first.items ≤ MOST) }
{
    if has == wanted {
        return Ok(true);
    }
    found.push(Difference::Installation { has, wanted })?;
    Ok(false)
}

/// Returns whether a row of `installations` has the index `place`, and the meter's other rows
/// follow from a history that the rules for meter entries accept. Adds each discrepancy to `found`.
fn audit_installation(
    alloc: Global,
    place: u64,
    row: &Row,
    rows: &MeterRows,
    found: &mut Differences,
) -> Result<bool, AllocError>
    requires few { length found.old.first.items ≤ MOST }
    ensures fine { IfOk result (λ fine. IsTrue fine ↔ IsFineMeter place row.now rows.now) }
    ensures reports { IfOk result (λ fine. Reports fine found.old found.new) }
    ensures few { OnOk result (length found.new.first.items ≤ MOST) }
{
    let Ok(installed) = installation(row) else {
        found.push(Difference::OutOfRange(Table::Installations))?;
        return Ok(false);
    };
    if name(row, 2).is_none() {
        found.push(Difference::OutOfRange(Table::Installations))?;
        return Ok(false);
    }
    let placed = append_index(installed.place, place, found)?;
    let fine = audit_rows(alloc, &installed, rows, found)?;
    Ok(placed && fine)
}

/// Audits a row of `installations` that names a meter, and the rows of that meter.
fn audit_named(
    alloc: Global,
    place: u64,
    row: &Row,
    meter: &str,
    rows: &MeterRows,
    findings: &mut Findings,
) -> Result<(), AllocError>
    requires few { length findings.old.first.items ≤ MOST }
    ensures reported { OnOk result ((findings.new.first.items ≡ [])
        ↔ ((findings.old.first.items ≡ []) × IsFineMeter place row.now rows.now)) }
    ensures counts { OnOk result
        (findings.new.counts ≡ counted (Some rows.now) findings.old.counts) }
    ensures few { OnOk result (length findings.new.first.items ≤ MOST) }
{
    let mut found = Differences::new(alloc);
    let _fine = audit_installation(alloc, place, row, rows, &mut found)?;
    findings.append_differences(alloc, meter, found.first.as_slice(), found.more)?;
    findings.count(rows);
    Ok(())
}

/// Reports a row of `installations` that names no meter.
fn audit_unnamed(place: u64, findings: &mut Findings) -> Result<(), AllocError>
    requires few { length findings.old.first.items ≤ MOST }
    ensures reported { OnOk result ((findings.new.first.items ≡ []) → ⊥) }
    ensures counts { OnOk result (findings.new.counts ≡ counted None findings.old.counts) }
    ensures few { OnOk result (length findings.new.first.items ≤ MOST) }
{
    findings.push(Finding {
        meter: None,
        difference: Difference::Unnamed {
            table: NamedTable::Installations,
            row: place,
        },
    })?;
    findings.count_unnamed();
    Ok(())
}

/// Audits a row of `installations`, which should have the index `place`, and the rows of its meter.
/// Returns the time during which the meter is installed at its register, if it can be read.
fn audit_row<S: Alter>(
    alloc: Global,
    conn: &mut Connection<S>,
    place: u64,
    row: &Row,
    findings: &mut Findings,
) -> Result<Option<MeterSpan>, RowFault>
    requires mode { conn.old.in_transaction ≡ false }
    requires few { length findings.old.first.items ≤ MOST }
    ensures finds { Finds S.Store conn.old conn.new result
        (λ content span. ReportsRow content place row.now span findings.old findings.new) }
    ensures few { OnOk result (length findings.new.first.items ≤ MOST) }
{
    let Some(meter) = meter_name(row) else {
        return match audit_unnamed(place, findings) {
            Ok(()) => Ok(None),
            Err(_) => Err(RowFault::Sql(Error::SqliteFailure(ErrorCode::OutOfMemory))),
        };
    };
    let rows = meter_rows(conn, meter)?;
    match audit_named(alloc, place, row, meter, &rows, findings) {
        Ok(()) => Ok(span(row, &rows)),
        Err(_) => Err(RowFault::Sql(Error::SqliteFailure(ErrorCode::OutOfMemory))),
    }
}

/// Appends the time during which a meter is installed to the list, if it could be read.
fn append_span(span: Option<MeterSpan>, spans: &mut Vec<MeterSpan>) -> Result<(), RowFault>
    ensures appended { OnOk result (spans.new.items ≡ spans.old.items ++ option_to_list span) }
    ensures fault { IfErr result (λ fault. fault ≡ RowFault.Sql want_of_memory) }
{
    if let Some(span) = span {
        if spans.push(span).is_err() {
            return Err(RowFault::Sql(Error::SqliteFailure(ErrorCode::OutOfMemory)));
        }
    }
    Ok(())
}

/// Reports each meter that overlaps a later meter of its register.
fn append_overlapping(
    alloc: Global,
    spans: &[MeterSpan],
    findings: &mut Findings,
) -> Result<(), RowFault>
    requires few { length findings.old.first.items ≤ MOST }
    ensures reported { OnOk result (IsReported (overlaps spans.now) findings.old findings.new) }
    ensures few { OnOk result (length findings.new.first.items ≤ MOST) }
    ensures fault { IfErr result (λ fault. fault ≡ RowFault.Sql want_of_memory) }
{
    match append_overlaps(alloc, spans, findings) {
        Ok(()) => Ok(()),
        Err(_) => Err(RowFault::Sql(Error::SqliteFailure(ErrorCode::OutOfMemory))),
    }
}

/// Audits several rows of `installations`, and the rows of their meters. Then checks that the
/// meters of each register follow each other.
fn audit_rows_of<S: Alter>(
    alloc: Global,
    conn: &mut Connection<S>,
    rows: &[Row],
) -> Result<Findings, RowFault>
    requires mode { conn.old.in_transaction ≡ false }
    ensures finds { Finds S.Store conn.old conn.new result (ReportsRows rows.now) }
    ensures few { IfOk result (λ findings. length findings.first.items ≤ MOST) }
{
    let mut findings = Findings::new(alloc);
    let mut spans = Vec::new(alloc);
    for (index, row) in rows.iter().enumerate() {
        let span = audit_row(alloc, conn, index as u64 + 1, row, &mut findings)?;
        append_span(span, &mut spans)?;
    }
    append_overlapping(alloc, spans.as_slice(), &mut findings)?;
    Ok(findings)
}

/// Audits whether each meter in the tables has the rows of a history that the rules accept, and
/// whether the meters of each register follow each other. Returns the discrepancies, and how many
/// rows were read. Memory holds all rows of `installations`, and the rows of one meter at a time.
pub fn audit_meters<S: Alter>(alloc: Global, conn: &mut Connection<S>) -> Result<Findings, RowFault>
    requires mode { conn.old.in_transaction ≡ false }
    ensures finds { Finds S.Store conn.old conn.new result ReportsMeters }
    ensures few { IfOk result (λ findings. length findings.first.items ≤ MOST) }
{
    let rows = installations(conn)?;
    audit_rows_of(alloc, conn, &rows)
}
