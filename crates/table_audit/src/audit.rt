//! Audits the rows that the tables of a file have for one meter.
ghost use Rattle.std.specs.Prelude.{◌≡◌, ◌≤◌, ◌↔◌, false, length, IsTrue, IfOk, OnOk};
ghost use Rattle.table_audit.specs.Looking.{Finds};
ghost use Rattle.table_audit.specs.Fine.{IsFine, ReportsFine};
ghost use Rattle.table_audit.specs.Reporting.{Reports};

use crate::differences::{Difference, Differences, MOST, Table};
use crate::lawful::audit_read;
use crate::queries::meter_rows;
use crate::reading::{entries, range, shares, voids};
use crate::rows::MeterRows;
use sqlite::{Alter, Connection, Error, ErrorCode};
use std::alloc::{AllocError, Global};
use store_tables::{InstallationRow, RowFault};

/// Returns whether a meter's rows follow from a history that the rules for meter entries accept.
/// Adds each discrepancy to `found`.
pub fn audit_rows(
    alloc: Global,
    installation: &InstallationRow,
    rows: &MeterRows,
    found: &mut Differences,
) -> Result<bool, AllocError>
    requires few { length found.old.first.items ≤ MOST }
    ensures fine { IfOk result (λ fine. IsTrue fine ↔ IsFine installation.now rows.now) }
    ensures reports { IfOk result (λ fine. Reports fine found.old found.new) }
    ensures few { OnOk result (length found.new.first.items ≤ MOST) }
{
    let Some(range) = range(&rows.ranges) else {
        found.push(Difference::OutOfRange(Table::Ranges))?;
        return Ok(false);
    };
    let Some(voids) = voids(alloc, &rows.voids)? else {
        found.push(Difference::OutOfRange(Table::Voids))?;
        return Ok(false);
    };
    let Some(entries) = entries(alloc, &rows.entries, &voids)? else {
        found.push(Difference::OutOfRange(Table::Entries))?;
        return Ok(false);
    };
    let Some(shares) = shares(alloc, &rows.intervals)? else {
        found.push(Difference::OutOfRange(Table::Intervals))?;
        return Ok(false);
    };
    audit_read(
        alloc,
        range,
        installation,
        voids.as_slice(),
        entries.as_slice(),
        shares.as_slice(),
        found,
    )
}

/// Queries a meter's rows, and returns whether they follow from a history that the rules for meter
/// entries accept. Adds each discrepancy to `found`. Memory holds all rows of the meter at once.
pub fn audit_meter<S: Alter>(
    alloc: Global,
    conn: &mut Connection<S>,
    meter: &str,
    installation: &InstallationRow,
    found: &mut Differences,
) -> Result<bool, RowFault>
    requires mode { conn.old.in_transaction ≡ false }
    requires few { length found.old.first.items ≤ MOST }
    ensures finds { Finds S.Store conn.old conn.new result (ReportsFine meter.now installation.now) }
    ensures reports { IfOk result (λ fine. Reports fine found.old found.new) }
    ensures few { OnOk result (length found.new.first.items ≤ MOST) }
{
    let rows = meter_rows(conn, meter)?;
    match audit_rows(alloc, installation, &rows, found) {
        Ok(fine) => Ok(fine),
        Err(_) => Err(RowFault::Sql(Error::SqliteFailure(ErrorCode::OutOfMemory))),
    }
}
