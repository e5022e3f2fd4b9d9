//! Formats the quarter hours and the entries of a meter as lines of text.
ghost use Rattle.std.specs.Prelude.{◌≡◌, ◌++◌, OnOk, flat_map};
ghost use Rattle.energy_core.specs.Account.{moment_of};
ghost use Rattle.interval_core.specs.Lines.{end_line, intervals_text, share_line};
ghost use Rattle.run_http.specs.Texts.MeterLines as lines;

use crate::status::{append_bytes, write_number, write_scale};
use energy_core::{Entry, Last};
use interval_core::Share;
use meter_journal::{EntryKind, EntryRow};
use office_books::MeterEntry;
use std::alloc::AllocError;

/// Appends the last line of a plain-text response with rows: the word `end` and the number of rows.
pub(crate) fn append_end(text: &mut Vec<u8>, count: usize) -> Result<(), AllocError>
    ensures { OnOk result (text.new.items ≡ text.old.items ++ end_line count) }
{
    write_number(text, b"end ", count as u64)?;
    append_bytes(text, b"\n")
}

/// Appends the line of a quarter hour: its start in seconds since 1970-01-01 UTC, and its energy in
/// mWh.
pub(crate) fn write_share(text: &mut Vec<u8>, row: &Share) -> Result<(), AllocError>
    ensures { OnOk result (text.new.items ≡ text.old.items ++ share_line row.now) }
{
    write_number(text, b"", row.start)?;
    write_number(text, b" ", row.mwh)?;
    append_bytes(text, b"\n")
}

/// Appends the line of each quarter hour: its start in seconds since 1970-01-01 UTC, and its energy
/// in mWh.
pub(crate) fn write_share_lines(text: &mut Vec<u8>, rows: &[Share]) -> Result<(), AllocError>
    ensures { OnOk result (text.new.items ≡ text.old.items ++ flat_map share_line rows.now) }
{
    for row in rows {
        write_share(text, row)?;
    }
    Ok(())
}

/// Appends a line for each quarter hour of a meter, and a last line with their number. If memory
/// runs out, only a part of the text was appended.
pub fn write_shares(text: &mut Vec<u8>, rows: &[Share]) -> Result<(), AllocError>
    ensures { OnOk result (text.new.items ≡ text.old.items ++ intervals_text rows.now) }
{
    write_share_lines(text, rows)?;
    append_end(text, rows.len())
}

fn write_kind(text: &mut Vec<u8>, kind: EntryKind) -> Result<(), AllocError>
    ensures { OnOk result (text.new.items ≡ text.old.items ++ lines.kind_word kind) }
{
    match kind {
        EntryKind::Reading => append_bytes(text, b" reading "),
        EntryKind::Manual => append_bytes(text, b" manual "),
        EntryKind::Closing => append_bytes(text, b" closing "),
        EntryKind::Reset => append_bytes(text, b" reset "),
        EntryKind::Rescale => append_bytes(text, b" rescale "),
    }
}

fn append_numbers(text: &mut Vec<u8>, entry: &Entry) -> Result<(), AllocError>
    ensures { OnOk result (text.new.items ≡ text.old.items ++ lines.numbers_text entry.now) }
{
    match *entry {
        Entry::Step { at, raw, rolls } => {
            write_number(text, b"", at)?;
            write_number(text, b" ", u64::from(raw))?;
            write_number(text, b" ", u64::from(rolls))?;
            append_bytes(text, b" 0")
        }
        Entry::Change {
            at,
            before,
            after,
            sf: _,
        } => {
            write_number(text, b"", at)?;
            write_number(text, b" ", u64::from(before))?;
            write_number(text, b" 0 ", u64::from(after))
        }
    }
}

// Appends the word that says whether a meter entry is valid (`stands`) or voided.
fn write_standing(text: &mut Vec<u8>, stands: bool) -> Result<(), AllocError>
    ensures { OnOk result (text.new.items ≡ text.old.items ++ lines.standing_word stands) }
{
    if stands {
        append_bytes(text, b" stands\n")
    } else {
        append_bytes(text, b" void\n")
    }
}

fn write_opening(text: &mut Vec<u8>, last: &Last) -> Result<(), AllocError>
    ensures { OnOk result (text.new.items ≡ text.old.items ++ lines.opening_line last.now) }
{
    write_number(text, b"1 opening ", last.at)?;
    write_number(text, b" ", u64::from(last.raw))?;
    write_scale(text, b" 0 0 ", last.sf)?;
    append_bytes(text, b" stands\n")
}

fn write_later(text: &mut Vec<u8>, row: &EntryRow, sf: i16) -> Result<(), AllocError>
    ensures { OnOk result (text.new.items ≡ text.old.items ++ lines.later_line row.now sf) }
{
    write_number(text, b"", row.place)?;
    write_kind(text, row.kind)?;
    append_numbers(text, &row.entry)?;
    write_scale(text, b" ", sf)?;
    write_standing(text, row.stands)
}

fn write_entry(text: &mut Vec<u8>, entry: &MeterEntry) -> Result<(), AllocError>
    ensures { OnOk result (text.new.items ≡ text.old.items ++ lines.entry_line entry.now) }
{
    match entry {
        MeterEntry::Opening(last) => write_opening(text, last),
        MeterEntry::Later { row, sf } => write_later(text, row, *sf),
    }
}

fn write_entry_lines(text: &mut Vec<u8>, entries: &[MeterEntry]) -> Result<(), AllocError>
    ensures { OnOk result (text.new.items
        ≡ text.old.items ++ flat_map lines.entry_line entries.now) }
{
    for entry in entries {
        write_entry(text, entry)?;
    }
    Ok(())
}

/// Appends a line for each entry of a meter, and a last line with their number. If memory runs out,
/// only a part of the text was appended.
pub fn write_entries(text: &mut Vec<u8>, entries: &[MeterEntry]) -> Result<(), AllocError>
    ensures { OnOk result (text.new.items ≡ text.old.items ++ lines.entries_text entries.now) }
{
    write_entry_lines(text, entries)?;
    append_end(text, entries.len())
}

// Functions for the text lines of voided (withdrawn) entries.

fn moment(entry: &Entry) -> u64
    ensures { result ≡ moment_of entry.now }
{
    match *entry {
        Entry::Step { at, .. } => at,
        Entry::Change { at, .. } => at,
    }
}

// Appends the line of a voided (withdrawn) meter entry other than the opening (the first entry of a
// meter).
fn write_voided_row(text: &mut Vec<u8>, row: &EntryRow) -> Result<(), AllocError>
    ensures { OnOk result (text.new.items ≡ text.old.items ++ lines.void_row_line row.now) }
{
    write_number(text, b"", row.place)?;
    write_kind(text, row.kind)?;
    write_number(text, b"", moment(&row.entry))?;
    append_bytes(text, b"\n")
}

fn write_void(text: &mut Vec<u8>, entry: &MeterEntry) -> Result<(), AllocError>
    ensures { OnOk result (text.new.items ≡ text.old.items ++ lines.void_line entry.now) }
{
    match entry {
        MeterEntry::Opening(last) => {
            write_number(text, b"1 opening ", last.at)?;
            append_bytes(text, b"\n")
        }
        MeterEntry::Later { row, .. } => write_voided_row(text, row),
    }
}

fn write_void_lines(text: &mut Vec<u8>, entries: &[MeterEntry]) -> Result<(), AllocError>
    ensures { OnOk result (text.new.items
        ≡ text.old.items ++ flat_map lines.void_line entries.now) }
{
    for entry in entries {
        write_void(text, entry)?;
    }
    Ok(())
}

/// Appends a line for each voided (withdrawn) entry of a meter, and a last line with their number.
/// The line of an entry has its sequence number, its kind and its time. If memory runs out, only a
/// part of the text was appended.
pub fn write_voids(text: &mut Vec<u8>, entries: &[MeterEntry]) -> Result<(), AllocError>
    ensures { OnOk result (text.new.items ≡ text.old.items ++ lines.voids_text entries.now) }
{
    write_void_lines(text, entries)?;
    append_end(text, entries.len())
}
