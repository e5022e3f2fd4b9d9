//! Reads the meters in a database file, to check whether the next file continues their counts.
ghost use Rattle.std.specs.Prelude.{◌≡◌, ◌++◌, ◌∷◌, [], false, IfOk, IfErr, OnOk};
ghost use Rattle.store_tables.specs.Failing.{want_of_memory};
ghost use Rattle.table_audit.specs.Looking.{Finds};
ghost use Rattle.table_audit.specs.Lawful.{last_shown};
ghost use Rattle.table_seals.specs.Filing.{IsFiled, FilesRow, FilesRows, FilesMeters, standing_in};

use crate::filed::FiledMeter;
use crate::sealing::memory;
use crate::tables::{read_rows, text};
use energy_core::Last;
use meter_journal::Installed;
use meter_journal::audit::{Standing, TableRow};
use sqlite::{Alter, Connection, Row};
use std::alloc::{AllocError, Global};
use store_tables::{InstallationRow, RowFault};
use table_audit::{MeterRows, installation, installations, meter_rows};

/// Returns the state of a meter from its `installations` row: the last entry, the total energy and
/// the closed flag.
fn standing_of(row: &InstallationRow) -> Standing
    ensures { result ≡ standing_in row.now }
{
    Standing {
        last: Last {
            at: row.last.moment,
            raw: row.last.raw,
            sf: row.last.sf,
        },
        total: row.last.total,
        is_ended: row.is_ended,
    }
}

/// Returns the timestamp, raw counter value and scale factor of a meter's opening, its first entry.
fn shown_by(opening: &TableRow) -> Last
    ensures { result ≡ last_shown opening.now }
{
    Last {
        at: opening.moment,
        raw: opening.raw,
        sf: opening.sf,
    }
}

/// Builds a `FiledMeter` (the data for the check that the next file continues the meter) from a
/// meter's `installations` row and its rows in other tables. Returns None if a value is missing or
/// out of its range, or a name is not a text.
fn filed_of<'a>(
    alloc: Global,
    file: &'a str,
    row: &Row,
    rows: &MeterRows,
) -> Result<Option<FiledMeter<'a>>, AllocError>
    ensures { IfOk result (IsFiled file.now row.now rows.now) }
{
    let Some(meter) = text(row, 1)? else {
        return Ok(None);
    };
    let Some(register) = text(row, 2)? else {
        return Ok(None);
    };
    let Ok(installed) = installation(row) else {
        return Ok(None);
    };
    let read = match read_rows(alloc, rows)? {
        Some(read) => read,
        None => return Ok(None),
    };
    if read.entries.len() == 0 {
        return Ok(None);
    }
    let opening = read.entries[0];
    Ok(Some(FiledMeter {
        file,
        meter,
        register,
        installed: Installed {
            range: read.range,
            ceiling: installed.ceiling,
            opening: shown_by(&opening),
        },
        standing: standing_of(&installed),
    }))
}

/// Queries the rows of the meter in an `installations` row, and builds a `FiledMeter` (the data for
/// the check that the next file continues the meter). Returns None if a value is missing or out of
/// its range, or a name is not a text.
fn file_row<'a, S: Alter>(
    alloc: Global,
    conn: &mut Connection<S>,
    file: &'a str,
    row: &Row,
) -> Result<Option<FiledMeter<'a>>, RowFault>
    requires { conn.old.in_transaction ≡ false }
    ensures { Finds S.Store conn.old conn.new result
        (λ content found. FilesRow file.now content row.now found) }
{
    let meter = match text(row, 1) {
        Ok(Some(meter)) => meter,
        Ok(None) => return Ok(None),
        Err(_) => return Err(memory()),
    };
    let rows = meter_rows(conn, &meter)?;
    match filed_of(alloc, file, row, &rows) {
        Ok(filed) => Ok(filed),
        Err(_) => Err(memory()),
    }
}

/// Appends a meter to a list of meters. If memory runs out, returns a `RowFault`.
fn keep<'a>(meters: &mut Vec<FiledMeter<'a>>, filed: FiledMeter<'a>) -> Result<(), RowFault>
    ensures kept { OnOk result (meters.new.items ≡ meters.old.items ++ filed.entry ∷ []) }
    ensures fault { IfErr result (λ fault. fault ≡ RowFault.Sql want_of_memory) }
{
    match meters.push(filed) {
        Ok(()) => Ok(()),
        Err(_) => Err(memory()),
    }
}

/// Builds a `FiledMeter` (the data for the check that the next file continues the meter) for each
/// of the given rows of `installations`. Returns None if a value is missing or out of its range, or
/// a name is not a text.
fn file_rows<'a, S: Alter>(
    alloc: Global,
    conn: &mut Connection<S>,
    file: &'a str,
    rows: &[Row],
) -> Result<Option<Vec<FiledMeter<'a>>>, RowFault>
    requires { conn.old.in_transaction ≡ false }
    ensures { Finds S.Store conn.old conn.new result (FilesRows file.now rows.now) }
{
    let mut meters = Vec::new(alloc);
    for row in rows {
        let filed = match file_row(alloc, conn, file, row)? {
            Some(filed) => filed,
            None => return Ok(None),
        };
        keep(&mut meters, filed)?;
    }
    Ok(Some(meters))
}

/// Returns the meters in a file's tables, in order of their index. `file` is the name of the file
/// in messages. Returns None if a name is not a text or another value is out of its range; an audit
/// reports such values. Memory holds all rows of `installations`, and the rows of one meter at a
/// time.
pub fn filed_meters<'a, S: Alter>(
    alloc: Global,
    conn: &mut Connection<S>,
    file: &'a str,
) -> Result<Option<Vec<FiledMeter<'a>>>, RowFault>
    requires { conn.old.in_transaction ≡ false }
    ensures { Finds S.Store conn.old conn.new result (FilesMeters file.now) }
{
    let rows = installations(conn)?;
    file_rows(alloc, conn, file, &rows)
}
