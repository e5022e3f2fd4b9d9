//! Checks whether a database file still matches its seal, a text with digests of the records that
//! the file had at an earlier time.
ghost use Rattle.std.specs.Prelude.{◌≡◌, ◌↔◌, [], false, map, IsTrue, IfOk, OnOk};
ghost use Rattle.std.specs.List.{list_all};
ghost use Rattle.table_audit.specs.Looking.{Finds};
ghost use Rattle.table_seals.specs.Checking.{AppendsCheck, HasSealedAs, ReportsIfZone, ReportsInZone};
ghost use Rattle.table_seals.specs.Checking.{ReportsMeters, check_of, checks_of};
ghost use Rattle.table_seals.specs.Installed.{ChecksRows, ReportsKeptAt, ReportsMeterAt, ReportsNamesAt};
ghost use Rattle.table_seals.specs.Sealed.{line_bytes, sealed_of, sealed_tables_of};
ghost use Rattle.table_seals.specs.Setup.{ReportsSetup};
ghost use Rattle.table_seals.specs.Tables.{is_void_among};

use crate::checks::Checked;
use crate::installed::{is_installed, terms_in};
use crate::notes::notes_of;
use crate::poll_sealing::check_polls;
use crate::sealing::memory;
use crate::seals::{MeterSeal, Seal};
use crate::setup::{gone_lines, setup_lines};
use crate::tables::{ReadRows, Terms, is_void_among, read_rows};
use crate::texts::{append_bytes, digest_of};
use interval_core::Zone;
use sqlite::{Alter, Connection};
use std::alloc::{AllocError, Global};
use std::collections::BTreeSet;
use store_tables::RowFault;
use table_audit::{MeterRows, VoidRow, installations, meter_rows, zone_text};

/// Returns whether `voids`, the void records (cancellations) of a meter, contains each of `others`.
fn are_among(voids: &[VoidRow], others: &[VoidRow]) -> bool
    ensures { result ≡ list_all (λ void. is_void_among voids.now void) others.now }
{
    others.iter().all(|void| is_void_among(voids, void))
}

/// Returns whether a meter still has the counter range, the first entries and the void
/// (cancellation) records that its seal covers. The seal has a digest of earlier entries.
fn has_sealed(alloc: Global, read: &ReadRows, seal: &MeterSeal) -> Result<bool, AllocError>
    ensures { IfOk result (λ has. IsTrue has ↔ HasSealedAs read.now (sealed_of seal.now)) }
{
    if read.range != seal.range {
        return Ok(false);
    }
    if (read.entries.len() as u64) < seal.entries {
        return Ok(false);
    }
    if !are_among(read.voids.as_slice(), seal.voids.as_slice()) {
        return Ok(false);
    }
    let entries = read.entries.as_slice();
    let first = &entries[..seal.entries as usize];
    let digest = digest_of(alloc, first)?;
    Ok(digest.as_slice() == seal.digest.as_slice())
}

/// The result of checking a meter against its seal (a digest of its earlier entries).
#[derive(Drop)]
struct MeterCheck {
    /// Whether the meter matches its seal.
    kept: bool,
    /// The printed lines about voids (cancellations of entries) since the seal.
    notes: Vec<u8>,
}

/// Returns the result for a meter that doesn't match its seal (a digest of its earlier entries).
fn differs(alloc: Global) -> MeterCheck
    ensures { check_of result ≡ record { kept = false; notes = [] } }
{
    MeterCheck {
        kept: false,
        notes: Vec::new(alloc),
    }
}

/// Checks a meter's rows against its seal (a digest of its earlier entries). `known` has the terms
/// (name, register, maximum power) of all meters.
fn check_rows(
    alloc: Global,
    zone: &Zone,
    known: &BTreeSet<Terms>,
    rows: &MeterRows,
    seal: &MeterSeal,
) -> Result<MeterCheck, AllocError>
    ensures { IfOk result
        (λ check. ChecksRows known.now zone.now rows.now (sealed_of seal.now) (check_of check)) }
{
    if !is_installed(known, seal)? {
        return Ok(differs(alloc));
    }
    let read = match read_rows(alloc, rows)? {
        Some(read) => read,
        None => return Ok(differs(alloc)),
    };
    if !has_sealed(alloc, &read, seal)? {
        return Ok(differs(alloc));
    }
    let notes = notes_of(alloc, zone, rows, &read, seal)?;
    Ok(MeterCheck { kept: true, notes })
}

/// Queries a meter's rows, and checks them against the meter's seal (a digest of its earlier
/// entries). `known` has the terms (name, register, maximum power) of all meters.
fn check_meter<S: Alter>(
    alloc: Global,
    conn: &mut Connection<S>,
    zone: &Zone,
    known: &BTreeSet<Terms>,
    seal: &MeterSeal,
) -> Result<MeterCheck, RowFault>
    requires { conn.old.in_transaction ≡ false }
    ensures { Finds S.Store conn.old conn.new result (λ content check.
        ReportsKeptAt known.now zone.now (sealed_of seal.now) content (check_of check)) }
{
    let rows = meter_rows(conn, &seal.meter)?;
    match check_rows(alloc, zone, known, &rows, seal) {
        Ok(check) => Ok(check),
        Err(_) => Err(memory()),
    }
}

/// The meters that were checked against their seals (digests of earlier entries): the names of
/// those that differ, and the printed lines about later voids of the others.
#[derive(Drop)]
struct CheckedMeters {
    differing: Vec<String>,
    notes: Vec<u8>,
}

/// Appends the result of checking a meter against its seal (a digest of its earlier entries): the
/// name of a meter that differs, or the lines about later voids.
fn append_check(
    alloc: Global,
    check: &MeterCheck,
    meter: &str,
    checked: &mut CheckedMeters,
) -> Result<(), AllocError>
    ensures { OnOk result (AppendsCheck (check_of check.now) meter.now
        (checks_of checked.old) (checks_of checked.new)) }
{
    append_bytes(&mut checked.notes, check.notes.as_slice())?;
    if check.kept {
        return Ok(());
    }
    let name = String::from_str(alloc, meter)?;
    checked.differing.push(name)?;
    Ok(())
}

/// Checks a meter against its seal (a digest of its earlier entries), and appends the result.
fn check_and_report<S: Alter>(
    alloc: Global,
    conn: &mut Connection<S>,
    zone: &Zone,
    known: &BTreeSet<Terms>,
    seal: &MeterSeal,
    checked: &mut CheckedMeters,
) -> Result<(), RowFault>
    requires { conn.old.in_transaction ≡ false }
    ensures { Finds S.Store conn.old conn.new result (λ content _.
        ReportsMeterAt known.now zone.now (sealed_of seal.now) content
        (checks_of checked.old) (checks_of checked.new)) }
{
    let check = check_meter(alloc, conn, zone, known, seal)?;
    match append_check(alloc, &check, &seal.meter, checked) {
        Ok(()) => Ok(()),
        Err(_) => Err(memory()),
    }
}

/// Checks meters against their seals (digests of earlier entries). `known` has the terms (name,
/// register, maximum power) of all meters.
fn check_each<S: Alter>(
    alloc: Global,
    conn: &mut Connection<S>,
    zone: &Zone,
    known: &BTreeSet<Terms>,
    seals: &[MeterSeal],
) -> Result<CheckedMeters, RowFault>
    requires { conn.old.in_transaction ≡ false }
    ensures { Finds S.Store conn.old conn.new result (λ content checked.
        ReportsNamesAt known.now zone.now (map sealed_of seals.now) content (checks_of checked)) }
{
    let mut checked = CheckedMeters {
        differing: Vec::new(alloc),
        notes: Vec::new(alloc),
    };
    for seal in seals {
        check_and_report(alloc, conn, zone, known, seal, &mut checked)?;
    }
    Ok(checked)
}

/// Checks meters against their seals (digests of earlier entries). First reads the terms (name,
/// register, maximum power) of all meters.
fn check_meters<S: Alter>(
    alloc: Global,
    conn: &mut Connection<S>,
    zone: &Zone,
    seals: &[MeterSeal],
) -> Result<CheckedMeters, RowFault>
    requires { conn.old.in_transaction ≡ false }
    ensures { Finds S.Store conn.old conn.new result (λ content checked.
        ReportsMeters zone.now (map sealed_of seals.now) content (checks_of checked)) }
{
    let installed = installations(conn)?;
    match terms_in(alloc, &installed) {
        Ok(known) => check_each(alloc, conn, zone, &known, seals),
        Err(_) => Err(memory()),
    }
}

/// Returns the sealed lines of the time zone `zone`, the devices and the registers that the file no
/// longer has.
fn check_setup<S: Alter>(
    alloc: Global,
    conn: &mut Connection<S>,
    zone: &str,
    sealed: &[Vec<u8>],
) -> Result<Vec<Vec<u8>>, RowFault>
    requires { conn.old.in_transaction ≡ false }
    ensures { Finds S.Store conn.old conn.new result (λ content lines.
        ReportsSetup zone.now (map line_bytes sealed.now) content (map line_bytes lines.items)) }
{
    let present = setup_lines(alloc, conn, zone)?;
    match gone_lines(alloc, present.as_slice(), sealed) {
        Ok(lines) => Ok(lines),
        Err(_) => Err(memory()),
    }
}

/// Checks a file's tables against a seal (digests of earlier records) in the file's time zone,
/// whose text is `text`.
fn check_in_zone<S: Alter>(
    alloc: Global,
    conn: &mut Connection<S>,
    zone: &Zone,
    text: &str,
    seal: &Seal,
) -> Result<Checked, RowFault>
    requires { conn.old.in_transaction ≡ false }
    ensures { Finds S.Store conn.old conn.new result
        (ReportsInZone zone.now text.now (sealed_tables_of seal.now)) }
{
    let meters = check_meters(alloc, conn, zone, seal.meters.as_slice())?;
    let setup = check_setup(alloc, conn, text, seal.setup.as_slice())?;
    let polls_differ = check_polls(alloc, conn, &seal.polls)?;
    Ok(Checked {
        differing: meters.differing,
        setup,
        meters: seal.meters.len() as u64,
        polls_differ,
        notes: meters.notes,
    })
}

/// Checks a file's tables against a seal (digests of earlier records). Returns the meters, the
/// lines of the time zone, devices and registers, and the polls that don't match the seal, and what
/// later voids changed. Records that were added after the sealing, such as the outcome of a pending
/// poll, don't count as differences. Returns None if the file has no time zone.
///
/// Memory holds all rows of `devices`, `registers` and `installations`. It also holds the rows and
/// the text of one meter, or of one run of `RUN` polls, at a time.
pub fn check_seal<S: Alter>(
    alloc: Global,
    conn: &mut Connection<S>,
    seal: &Seal,
) -> Result<Option<Checked>, RowFault>
    requires { conn.old.in_transaction ≡ false }
    ensures { Finds S.Store conn.old conn.new result (ReportsIfZone (sealed_tables_of seal.now)) }
{
    let text = match zone_text(conn)? {
        Some(text) => text,
        None => return Ok(None),
    };
    match Zone::read(&text) {
        Ok(zone) => {
            let checked = check_in_zone(alloc, conn, &zone, &text, seal)?;
            Ok(Some(checked))
        }
        Err(_) => Ok(None),
    }
}
