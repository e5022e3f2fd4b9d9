//! Prints the voids (cancellations of entries) that were recorded after the seal of a meter, and
//! the energy that they changed in sealed months. A seal has digests of earlier records.
ghost use Rattle.std.specs.Prelude.{◌≡◌, ◌≤◌, ◌<◌, ◌^◌, ◌++◌, All, OnOk, IfOk};
ghost use Rattle.std.specs.Prelude.{map, take, drop, flat_map};
ghost use Rattle.std.specs.List.{filter};
ghost use Rattle.jiff.specs.Words.{epoch_day};
ghost use Rattle.interval_core.specs.Zone.{day_at};
ghost use Rattle.interval_core.specs.declared.limits.TheConstants.{LAST_MOMENT};
ghost use Rattle.table_seals.specs.Notes as say;
ghost use Rattle.table_seals.specs.Sealed.{sealed_of, sealed_month_of};
ghost use Rattle.table_seals.specs.Tables.{HasRead};

use crate::months::meter_months;
use crate::seals::{MeterSeal, MonthSeal};
use crate::tables::{ReadRows, is_void_among};
use crate::texts::{append_bytes, write_number, write_word};
use energy_report::{Period, period_name};
use interval_core::{Zone, day_of};
use jiff::civil::Date;
use meter_journal::audit::TableRow;
use std::alloc::{AllocError, Global};
use table_audit::{MeterRows, VoidRow, entries, write_energy};

/// What a void (the cancellation of an entry) that was recorded after the seal changes: the energy
/// from one civil day to another.
#[derive(Clone, Copy)]
pub(crate) struct VoidNote {
    pub(crate) place: u64,
    pub(crate) from: Date,
    pub(crate) till: Date,
}

/// Returns the first `count` rows, or all rows if there are fewer.
fn first_rows(rows: &[TableRow], count: u64) -> &[TableRow]
    ensures { result.now ≡ take count rows.now }
{
    if rows.len() as u64 <= count {
        return rows;
    }
    &rows[..count as usize]
}

/// Returns the rows after the first `count` rows.
fn later_rows(rows: &[TableRow], count: u64) -> &[TableRow]
    ensures { result.now ≡ drop count rows.now }
{
    if rows.len() as u64 <= count {
        return &[];
    }
    &rows[count as usize..]
}

/// Returns whether a void (the cancellation of an entry) is not in a meter's seal, and names a
/// sealed entry.
fn is_since(seal: &MeterSeal, void: &VoidRow) -> bool
    ensures { result ≡ say.is_since (sealed_of seal.now) void.now }
{
    !is_void_among(seal.voids.as_slice(), void) && void.place <= seal.entries
}

/// Returns the voids (cancellations of entries) that are not in a meter's seal, and that name a
/// sealed entry.
fn voids_since(
    alloc: Global,
    seal: &MeterSeal,
    voids: &[VoidRow],
) -> Result<Vec<VoidRow>, AllocError>
    ensures { IfOk result (λ found. found.items ≡ say.voids_since (sealed_of seal.now) voids.now) }
{
    let mut found = Vec::new(alloc);
    for void in voids {
        if is_since(seal, void) {
            found.push(*void)?;
        }
    }
    Ok(found)
}

/// Returns the time of the last valid (not voided) entry, or `otherwise` if there is none.
fn last_valid(otherwise: u64, rows: &[TableRow]) -> u64
    requires otherwise { otherwise ≤ LAST_MOMENT }
    requires moments { All (λ entry. entry.moment ≤ LAST_MOMENT) rows.now }
    ensures time { result ≡ say.last_valid otherwise rows.now }
    ensures limit { result ≤ LAST_MOMENT }
{
    let mut found = otherwise;
    for row in rows {
        if !row.is_voided {
            found = row.moment;
        }
    }
    found
}

/// Returns the time of the first valid (not voided) entry, or `otherwise` if there is none.
fn first_valid(otherwise: u64, rows: &[TableRow]) -> u64
    requires otherwise { otherwise ≤ LAST_MOMENT }
    requires moments { All (λ entry. entry.moment ≤ LAST_MOMENT) rows.now }
    ensures time { result ≡ say.first_valid otherwise rows.now }
    ensures limit { result ≤ LAST_MOMENT }
{
    for row in rows {
        if !row.is_voided {
            return row.moment;
        }
    }
    otherwise
}

/// Returns the time from which voiding (cancelling) the entry at the index `place` changes energy.
/// `sealed` has the sealed entries, with the voids at that time.
fn changes_from(sealed: &[TableRow], place: u64) -> u64
    requires { All (λ entry. entry.moment ≤ LAST_MOMENT) sealed.now }
    ensures time { result ≡ say.changes_from sealed.now place }
    ensures limit { result ≤ LAST_MOMENT }
{
    last_valid(0, first_rows(sealed, place.saturating_sub(1)))
}

/// Returns the time up to which voiding (cancelling) the entry at the index `place` changes sealed
/// energy. `sealed` has the sealed entries, with the voids at that time.
fn changes_till(sealed: &[TableRow], place: u64) -> u64
    requires { All (λ entry. entry.moment ≤ LAST_MOMENT) sealed.now }
    ensures time { result ≡ say.changes_till sealed.now place }
    ensures limit { result ≤ LAST_MOMENT }
{
    let last = last_valid(0, first_rows(sealed, place));
    first_valid(last, later_rows(sealed, place))
}

/// Returns the civil day of a timestamp in the time zone.
fn civil_day(zone: &Zone, moment: u64) -> Date
    requires { moment ≤ LAST_MOMENT }
    ensures { epoch_day result ≡ day_at zone.now moment }
{
    match day_of(zone, moment) {
        Ok(day) => day,
        Err(_) => unreachable!(),
    }
}

/// Returns the civil days from and up to which a void (the cancellation of an entry) changes
/// energy. `sealed` has the sealed entries, with the voids at that time.
fn note_of(zone: &Zone, sealed: &[TableRow], void: &VoidRow) -> VoidNote
    requires { All (λ entry. entry.moment ≤ LAST_MOMENT) sealed.now }
    ensures { say.IsNoteOf zone.now sealed.now void.now result }
{
    VoidNote {
        place: void.place,
        from: civil_day(zone, changes_from(sealed, void.place)),
        till: civil_day(zone, changes_till(sealed, void.place)),
    }
}

/// Returns a note for each void (cancellation of an entry), in order. `sealed` has the sealed
/// entries, with the voids at that time.
fn notes_about(
    alloc: Global,
    zone: &Zone,
    sealed: &[TableRow],
    voids: &[VoidRow],
) -> Result<Vec<VoidNote>, AllocError>
    requires { All (λ entry. entry.moment ≤ LAST_MOMENT) sealed.now }
    ensures { IfOk result (λ notes. say.AreNotesOf zone.now sealed.now voids.now notes.items) }
{
    let mut notes = Vec::new(alloc);
    for void in voids {
        notes.push(note_of(zone, sealed, void))?;
    }
    Ok(notes)
}

/// Returns a note for each void (cancellation of an entry) that was recorded after the seal.
/// `sealed` are the meter's entries with the voids in the seal.
fn notes_since(
    alloc: Global,
    zone: &Zone,
    read: &ReadRows,
    seal: &MeterSeal,
    sealed: &[TableRow],
) -> Result<Vec<VoidNote>, AllocError>
    requires { All (λ entry. entry.moment ≤ LAST_MOMENT) sealed.now }
    ensures { IfOk result (λ notes. say.AreNotesOf zone.now (take seal.now.entries sealed.now)
        (say.voids_since (sealed_of seal.now) read.now.voids.items) notes.items) }
{
    let since = voids_since(alloc, seal, read.voids.as_slice())?;
    notes_about(
        alloc,
        zone,
        first_rows(sealed, seal.entries),
        since.as_slice(),
    )
}

// The following functions append the printed lines. If memory runs out, the text is incomplete.

fn write_void_note(text: &mut Vec<u8>, meter: &[u8], note: &VoidNote) -> Result<(), AllocError>
    ensures { OnOk result
        (text.new.items ≡ text.old.items ++ say.void_note_line meter.now note.now) }
{
    write_word(text, b"void ", meter)?;
    write_number(text, b" ", note.place)?;
    let from = period_name(Period::Day, note.from);
    write_word(text, b" changes energy from ", from.bytes())?;
    let till = period_name(Period::Day, note.till);
    write_word(text, b" to ", till.bytes())?;
    append_bytes(text, b"\n")
}

fn write_void_notes(text: &mut Vec<u8>, meter: &[u8], notes: &[VoidNote]) -> Result<(), AllocError>
    ensures { OnOk result (text.new.items
        ≡ text.old.items ++ flat_map (say.void_note_line meter.now) notes.now) }
{
    for note in notes {
        write_void_note(text, meter, note)?;
    }
    Ok(())
}

/// Returns whether a text is not after another one in the order of their bytes.
fn is_up_to(text: &[u8], other: &[u8]) -> bool
    ensures { result ≡ say.is_up_to text.now other.now }
{
    !text.cmp(other).is_gt()
}

/// Returns whether a void (the cancellation of an entry) changes energy from a day in or before a
/// calendar month, to a day in or after this month.
fn touches(month: &[u8], note: &VoidNote) -> bool
    ensures { result ≡ say.touches month.now note.now }
{
    let from = period_name(Period::Month, note.from);
    let till = period_name(Period::Month, note.till);
    is_up_to(from.bytes(), month) && is_up_to(month, till.bytes())
}

fn write_causes(text: &mut Vec<u8>, notes: &[VoidNote], month: &[u8]) -> Result<(), AllocError>
    ensures { OnOk result (text.new.items ≡ text.old.items
        ++ flat_map say.cause_words (filter (say.touches month.now) notes.now)) }
{
    for note in notes {
        if touches(month, note) {
            write_number(text, b", by void ", note.place)?;
        }
    }
    Ok(())
}

/// Returns the energy of a calendar month in a list of months, or 0 if the list does not have the
/// month.
fn energy_in(months: &[MonthSeal], month: &[u8]) -> u64
    ensures { result ≡ say.energy_in (map sealed_month_of months.now) month.now }
{
    for other in months {
        if other.month.as_slice() == month {
            return other.mwh;
        }
    }
    0
}

fn write_month_note(
    text: &mut Vec<u8>,
    meter: &[u8],
    notes: &[VoidNote],
    now: &[MonthSeal],
    sealed: &MonthSeal,
) -> Result<(), AllocError>
    ensures { OnOk result (text.new.items ≡ text.old.items ++ say.month_note meter.now notes.now
        (map sealed_month_of now.now) (sealed_month_of sealed.now)) }
{
    let month = sealed.month.as_slice();
    let mwh = energy_in(now, month);
    if mwh == sealed.mwh {
        return Ok(());
    }
    write_word(text, b"month ", meter)?;
    write_word(text, b" ", month)?;
    write_energy(text, b" was ", sealed.mwh)?;
    write_energy(text, b", is ", mwh)?;
    write_causes(text, notes, month)?;
    append_bytes(text, b"\n")
}

fn write_month_notes(
    text: &mut Vec<u8>,
    meter: &[u8],
    notes: &[VoidNote],
    now: &[MonthSeal],
    months: &[MonthSeal],
) -> Result<(), AllocError>
    ensures { OnOk result (text.new.items ≡ text.old.items ++ flat_map
        (say.month_note meter.now notes.now (map sealed_month_of now.now))
        (map sealed_month_of months.now)) }
{
    for sealed in months {
        write_month_note(text, meter, notes, now, sealed)?;
    }
    Ok(())
}

/// Returns the printed lines about the voids (cancellations of entries) of a meter that were
/// recorded after the seal, and about the sealed months that they changed.
fn write_notes(
    alloc: Global,
    seal: &MeterSeal,
    notes: &[VoidNote],
    now: &[MonthSeal],
) -> Result<Vec<u8>, AllocError>
    ensures { IfOk result (λ text. text.items
        ≡ say.notes_text (sealed_of seal.now) notes.now (map sealed_month_of now.now)) }
{
    let mut text = Vec::new(alloc);
    let meter = seal.meter.as_bytes();
    write_void_notes(&mut text, meter, notes)?;
    write_month_notes(&mut text, meter, notes, now, seal.months.as_slice())?;
    Ok(text)
}

/// Returns the printed lines about voids (cancellations of entries) that were recorded after the
/// seal of a meter, and about the months that they changed. `read` are the meter's present rows.
/// Returns an empty text if the rules for meter entries refuse one of the sealed entries.
pub(crate) fn notes_of(
    alloc: Global,
    zone: &Zone,
    rows: &MeterRows,
    read: &ReadRows,
    seal: &MeterSeal,
) -> Result<Vec<u8>, AllocError>
    requires read { HasRead rows.now read.now.range read.now.voids.items read.now.entries.items }
    requires range { read.now.range ≡ seal.now.range }
    requires places { All (λ entry. entry.place < 2 ^ 63) read.now.entries.items }
    requires moments { All (λ entry. entry.moment ≤ LAST_MOMENT) read.now.entries.items }
    ensures { IfOk result (λ text.
        say.PrintsNotes zone.now rows.now (sealed_of seal.now) text.items) }
{
    let sealed = match entries(alloc, &rows.entries, seal.voids.as_slice())? {
        Some(sealed) => sealed,
        None => return Ok(Vec::new(alloc)),
    };
    let first = first_rows(read.entries.as_slice(), seal.entries);
    let now = match meter_months(alloc, zone, seal.range, seal.ceiling, first)? {
        Some(now) => now,
        None => return Ok(Vec::new(alloc)),
    };
    let notes = notes_since(alloc, zone, read, seal, sealed.as_slice())?;
    write_notes(alloc, seal, notes.as_slice(), now.as_slice())
}
