//! Builds the journal of a meter (its entries in order) from the rows of its entries and voids. A
//! void is a row that cancels one entry.
ghost use Rattle.std.specs.Prelude.{◌≡◌, ◌++◌, ◌∷◌, [], IfOk, IfErr, OnOk};
ghost use Rattle.std.specs.Option.{option_to_list};
ghost use Rattle.office_store.specs.Metering.Entries.{step_row, change_row, row_from};
ghost use Rattle.store_tables.specs.declared.faults.RowFault.TheVariants.{Sql};
ghost use Rattle.store_tables.specs.Failing.{want_of_memory};
ghost use Rattle.office_store.specs.Metering.Entries.{IsFaultOfVoids, IsFaultOfJournal};
ghost use Rattle.office_store.specs.Metering.Entries.{ReportsVoided, AreJournal};

use energy_core::Entry;
use meter_journal::EntryRow;
use sqlite::{Error, ErrorCode, Row};
use std::alloc::Global;
use store_tables::{EntryKind, RowFault, read_entry, read_void};

/// Returns the row in a meter's journal (its history) for an entry that reads the counter: a poll's
/// reading, a manual reading, or the reading when the meter is closed.
fn step(kind: meter_journal::EntryKind, row: store_tables::EntryRow, stands: bool) -> EntryRow
    ensures { result ≡ step_row kind row stands }
{
    EntryRow {
        place: row.place,
        kind,
        entry: Entry::Step {
            at: row.moment,
            raw: row.raw,
            rolls: row.rolls,
        },
        stands,
    }
}

/// Returns the row in a meter's journal (its history) for an entry that sets the counter or its
/// scale factor: a reset or a rescale.
fn change(kind: meter_journal::EntryKind, row: store_tables::EntryRow, stands: bool) -> EntryRow
    ensures { result ≡ change_row kind row stands }
{
    EntryRow {
        place: row.place,
        kind,
        entry: Entry::Change {
            at: row.moment,
            before: row.raw,
            after: row.after,
            sf: row.sf,
        },
        stands,
    }
}

/// Converts a row of `entries` to a row of the meter's journal (its history). Returns None for the
/// first entry, which the journal stores apart from its rows.
pub(crate) fn entry_row(row: store_tables::EntryRow, stands: bool) -> Option<EntryRow>
    ensures { result ≡ row_from row stands }
{
    match row.kind {
        EntryKind::Opening => None,
        EntryKind::Reading => Some(step(meter_journal::EntryKind::Reading, row, stands)),
        EntryKind::Manual => Some(step(meter_journal::EntryKind::Manual, row, stands)),
        EntryKind::Closing => Some(step(meter_journal::EntryKind::Closing, row, stands)),
        EntryKind::Reset => Some(change(meter_journal::EntryKind::Reset, row, stands)),
        EntryKind::Rescale => Some(change(meter_journal::EntryKind::Rescale, row, stands)),
    }
}

/// Returns true if one of `voids`, the rows that cancel readings, cancels the entry at index
/// `place`.
pub(crate) fn is_voided(voids: &[Row], place: u64) -> Result<bool, RowFault>
    ensures reported { IfOk result (ReportsVoided voids.now place) }
    ensures fault { IfErr result (IsFaultOfVoids voids.now) }
{
    for row in voids {
        if place == read_void(row)? {
            return Ok(true);
        }
    }
    Ok(false)
}

fn push(rows: &mut Vec<EntryRow>, row: EntryRow) -> Result<(), RowFault>
    ensures put { OnOk result (rows.new.items ≡ rows.old.items ++ row ∷ []) }
    ensures fault { IfErr result (λ e. e ≡ Sql want_of_memory) }
{
    match rows.push(row) {
        Ok(()) => Ok(()),
        Err(_) => Err(RowFault::Sql(Error::SqliteFailure(ErrorCode::OutOfMemory))),
    }
}

/// Appends `row` to the rows of a meter's journal (its history). Appends nothing if `row` is None.
fn add(rows: &mut Vec<EntryRow>, row: Option<EntryRow>) -> Result<(), RowFault>
    ensures put { OnOk result (rows.new.items ≡ rows.old.items ++ option_to_list row) }
    ensures fault { IfErr result (λ e. e ≡ Sql want_of_memory) }
{
    match row {
        Some(row) => push(rows, row),
        None => Ok(()),
    }
}

/// Builds the rows of a meter's journal (its history) from result rows, the oldest first. The
/// meter's first entry, made at installation, has no journal row.
pub fn journal_rows(
    alloc: Global,
    entries: &[Row],
    voids: &[Row],
) -> Result<Vec<EntryRow>, RowFault>
    ensures journal { IfOk result (λ rows. AreJournal entries.now voids.now rows.items) }
    ensures fault { IfErr result (IsFaultOfJournal entries.now voids.now) }
{
    let mut rows = Vec::new(alloc);
    for row in entries {
        let entry = read_entry(row)?;
        let struck = is_voided(voids, entry.place)?;
        add(&mut rows, entry_row(entry, !struck))?;
    }
    Ok(rows)
}
