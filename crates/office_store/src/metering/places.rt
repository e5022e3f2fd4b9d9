//! Computes the state of a meter before one of its entries.
ghost use Rattle.std.specs.Prelude.{◌≡◌, ◌≤◌, List, take, IfOk, IfErr, IfSome};
ghost use Rattle.std.specs.Option.{option_map};
ghost use Rattle.energy_core.specs.Account.{IsAccount};
ghost use Rattle.meter_journal.specs.Books as books;
ghost use Rattle.meter_journal.specs.Journal.{entries_in, row_at};
ghost use Rattle.meter_journal.specs.Lists as lists;
ghost use Rattle.office_books.specs.Sound.{HasNumbers};
ghost use Rattle.office_books.specs.Ranges.{IsSound};
ghost use Rattle.office_events.specs.declared.facts.Fact.{Fact};
ghost use Rattle.office_events.specs.declared.facts.Opening.{Opening};
ghost use Rattle.office_books.specs.Meters as meters;
ghost use Rattle.office_books.specs.Meters.{installation_of, rows_of, place_in};
ghost use Rattle.store_tables.specs.declared.faults.RowFault.TheVariants.{Damaged};
ghost use Rattle.office_store.specs.Metering.Entries.{CanBePlaced};

use energy_core::{MAX_RANGE, MIN_RANGE};
use meter_journal::{EntryRow, Installed, Tally, are_numbered, checked_tally, find_row};
use office_books::installation_after;
use office_events::{EntryContext, Installation};
use store_tables::RowFault;

/// Returns the first `count` rows of a meter's journal (its history), or all rows if there are
/// fewer.
fn first(rows: &[EntryRow], count: usize) -> &[EntryRow]
    ensures { result.now ≡ take count rows.now }
{
    if count < rows.len() {
        &rows[..count]
    } else {
        rows
    }
}

/// Returns the counter's state and the total energy after the meter entries in `rows`. If the rules
/// for meter entries don't allow the entries in this order, reports `Damaged`.
pub fn tally(meter: &Installed, rows: &[EntryRow]) -> Result<Tally, RowFault>
    requires range_low { MIN_RANGE ≤ meter.now.range }
    requires range_high { meter.now.range ≤ MAX_RANGE }
    requires installed { books.IsWellInstalled meter.now }
    ensures account { let es = entries_in (lists.latest_first rows.now) in
        IfOk result (λ t. IsAccount meter.now.range meter.now.opening es t.last t.total) }
    ensures fault { let es = entries_in (lists.latest_first rows.now) in
        IfErr result (λ e. (e ≡ Damaged) × (¬ books.HasAccount meter.now es)) }
{
    match checked_tally(meter, rows) {
        Some(tally) => Ok(tally),
        None => Err(RowFault::Damaged),
    }
}

/// Returns the state of a meter after the entries in `rows`. If the rules for meter entries don't
/// allow the entries in this order, reports `Damaged`.
fn stood_after(whole: &Installation, rows: &[EntryRow]) -> Result<Installation, RowFault>
    ensures stands { let es = entries_in (lists.latest_first rows.now) in
        IfOk result (λ row. row ≡ meters.standing whole.now.opening es whole.now.ended) }
    ensures sound { IfOk result IsSound }
    ensures fault { let es = entries_in (lists.latest_first rows.now) in
        IfErr result (λ e. (e ≡ Damaged) × (HasNumbers whole.now.opening
        → ¬ books.HasAccount (meters.installed whole.now.opening) es)) }
{
    match installation_after(&whole.opening, rows, whole.ended) {
        Some(row) => Ok(row),
        None => Err(RowFault::Damaged),
    }
}

/// Finds the entry at index `place` in a meter's journal (its history, the oldest row first).
/// Returns this entry, the meter's state before it, and the next entry that is not voided
/// (cancelled).
pub(crate) fn placed(
    whole: &Installation,
    rows: &[EntryRow],
    place: u64,
) -> Result<Option<EntryContext>, RowFault>
    ensures found { (facts : List Fact) (o : Opening) → whole.now ≡ installation_of facts o
        → lists.latest_first rows.now ≡ rows_of facts o → IfOk result
        (λ found. found ≡ option_map (place_in facts o) (row_at place (rows_of facts o))) }
    ensures sound { IfOk result (λ found. IfSome found (λ p. IsSound p.before)) }
    ensures fault { IfErr result
        (λ e. (e ≡ Damaged) × (¬ CanBePlaced whole.now.opening rows.now place)) }
{
    if !are_numbered(rows) {
        return Err(RowFault::Damaged);
    }
    let Some(found) = find_row(rows, place) else {
        return Ok(None);
    };
    let before = stood_after(whole, first(rows, found.index))?;
    Ok(Some(EntryContext {
        before,
        row: found.row,
        next: found.next,
    }))
}
