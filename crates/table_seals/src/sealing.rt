//! Computes the seal of a file's tables: the lines of its time zone, devices and registers, digests
//! of its meters' entries and of its polls, and the meters' energies by month.
ghost use Rattle.std.specs.Prelude.{◌≡◌, ◌++◌, ◌∷◌, [], false, IfOk, IfErr, OnOk};
ghost use Rattle.store_tables.specs.Failing.{want_of_memory};
ghost use Rattle.table_audit.specs.Looking.{Finds};
ghost use Rattle.table_seals.specs.Sealing.{IsSealed, SealsInZone, SealsMeters, SealsRow, SealsRows, SealsTables};

use crate::months::meter_months;
use crate::poll_sealing::seal_polls;
use crate::seals::{MeterSeal, Seal};
use crate::setup::setup_lines;
use crate::tables::{is_word, read_rows, terms_of, text};
use crate::texts::digest_of;
use interval_core::Zone;
use sqlite::{Alter, Connection, Error, ErrorCode, Row};
use std::alloc::{AllocError, Global};
use store_tables::RowFault;
use table_audit::{MeterRows, installations, meter_rows, zone_text};

/// Returns the error that reports that memory ran out.
pub(crate) fn memory() -> RowFault
    ensures { result ≡ RowFault.Sql want_of_memory }
{
    RowFault::Sql(Error::SqliteFailure(ErrorCode::OutOfMemory))
}

/// Computes the seal of a meter, which has a digest of its entries. Returns None if a value is out
/// of its range, or a name is not a word (it has a space or a control byte). Also returns None if
/// the rules for meter entries refuse an entry.
fn seal_of(
    alloc: Global,
    zone: &Zone,
    row: &Row,
    rows: &MeterRows,
) -> Result<Option<MeterSeal>, AllocError>
    ensures { IfOk result (IsSealed zone.now row.now rows.now) }
{
    let terms = match terms_of(row)? {
        Some(terms) => terms,
        None => return Ok(None),
    };
    let read = match read_rows(alloc, rows)? {
        Some(read) => read,
        None => return Ok(None),
    };
    if !is_word(&terms.meter) {
        return Ok(None);
    }
    if !is_word(&terms.register) {
        return Ok(None);
    }
    let entries = read.entries.as_slice();
    let months = match meter_months(alloc, zone, read.range, terms.ceiling, entries)? {
        Some(months) => months,
        None => return Ok(None),
    };
    let digest = digest_of(alloc, entries)?;
    let entries = entries.len() as u64;
    Ok(Some(MeterSeal {
        place: terms.place,
        meter: terms.meter,
        register: terms.register,
        range: read.range,
        ceiling: terms.ceiling,
        entries,
        digest,
        voids: read.voids,
        months,
    }))
}

/// Queries the rows of the meter in an `installations` row, and computes the meter's seal (a digest
/// of its entries). Returns None if a value is out of its range, or a name has a space or control
/// byte.
fn seal_row<S: Alter>(
    alloc: Global,
    conn: &mut Connection<S>,
    zone: &Zone,
    row: &Row,
) -> Result<Option<MeterSeal>, RowFault>
    requires { conn.old.in_transaction ≡ false }
    ensures { Finds S.Store conn.old conn.new result
        (λ content found. SealsRow zone.now content row.now found) }
{
    let meter = match text(row, 1) {
        Ok(Some(meter)) => meter,
        Ok(None) => return Ok(None),
        Err(_) => return Err(memory()),
    };
    let rows = meter_rows(conn, &meter)?;
    match seal_of(alloc, zone, row, &rows) {
        Ok(seal) => Ok(seal),
        Err(_) => Err(memory()),
    }
}

/// Appends the seal of a meter (a digest of its entries) to a list of seals. If memory runs out,
/// returns a `RowFault`.
fn keep(seals: &mut Vec<MeterSeal>, seal: MeterSeal) -> Result<(), RowFault>
    ensures kept { OnOk result (seals.new.items ≡ seals.old.items ++ seal ∷ []) }
    ensures fault { IfErr result (λ fault. fault ≡ RowFault.Sql want_of_memory) }
{
    match seals.push(seal) {
        Ok(()) => Ok(()),
        Err(_) => Err(memory()),
    }
}

/// Computes the seal (a digest of the entries) of the meter in each of the given rows of
/// `installations`. Returns None if one of the meters can't be sealed.
fn seal_rows<S: Alter>(
    alloc: Global,
    conn: &mut Connection<S>,
    zone: &Zone,
    rows: &[Row],
) -> Result<Option<Vec<MeterSeal>>, RowFault>
    requires { conn.old.in_transaction ≡ false }
    ensures { Finds S.Store conn.old conn.new result (SealsRows zone.now rows.now) }
{
    let mut seals = Vec::new(alloc);
    for row in rows {
        let seal = match seal_row(alloc, conn, zone, row)? {
            Some(seal) => seal,
            None => return Ok(None),
        };
        keep(&mut seals, seal)?;
    }
    Ok(Some(seals))
}

/// Computes the seals (digests of the entries) of all meters in the tables. Returns None if one of
/// the meters can't be sealed.
fn seal_meters<S: Alter>(
    alloc: Global,
    conn: &mut Connection<S>,
    zone: &Zone,
) -> Result<Option<Vec<MeterSeal>>, RowFault>
    requires { conn.old.in_transaction ≡ false }
    ensures { Finds S.Store conn.old conn.new result (SealsMeters zone.now) }
{
    let rows = installations(conn)?;
    seal_rows(alloc, conn, zone, &rows)
}

/// Computes the seal (digests of earlier records) of a file's tables in the file's time zone, whose
/// text is `text`.
fn seal_in_zone<S: Alter>(
    alloc: Global,
    conn: &mut Connection<S>,
    zone: &Zone,
    text: &str,
) -> Result<Option<Seal>, RowFault>
    requires { conn.old.in_transaction ≡ false }
    ensures { Finds S.Store conn.old conn.new result (SealsInZone zone.now text.now) }
{
    let setup = setup_lines(alloc, conn, text)?;
    let meters = match seal_meters(alloc, conn, zone)? {
        Some(meters) => meters,
        None => return Ok(None),
    };
    let polls = match seal_polls(alloc, conn)? {
        Some(polls) => polls,
        None => return Ok(None),
    };
    Ok(Some(Seal {
        setup,
        meters,
        polls,
    }))
}

/// Computes the seal (digests of earlier records) of a file's tables: the lines of its time zone,
/// devices and registers, the seals of all meters in order of their index, and the seal of the
/// polls. Returns None if the file has no time zone, or a name is not a word. Also returns None if
/// a value is out of its range, or the rules for meter entries refuse an entry. Memory holds all
/// rows of `devices`, `registers` and `installations`, and the rows of one meter or one run of
/// `RUN` polls at a time.
pub fn seal_tables<S: Alter>(
    alloc: Global,
    conn: &mut Connection<S>,
) -> Result<Option<Seal>, RowFault>
    requires { conn.old.in_transaction ≡ false }
    ensures { Finds S.Store conn.old conn.new result SealsTables }
{
    let text = match zone_text(conn)? {
        Some(text) => text,
        None => return Ok(None),
    };
    match Zone::read(&text) {
        Ok(zone) => seal_in_zone(alloc, conn, &zone, &text),
        Err(_) => Ok(None),
    }
}
