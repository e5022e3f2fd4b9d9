//! Functions on lists of a meter's entry rows, the oldest row first.
ghost use Rattle.std.specs.Prelude.{◌≡◌, ◌+◌, ◌≤◌, ◌<◌, ◌++◌, length, take, drop, find, IfSome};
ghost use Rattle.std.specs.Prelude.{IfNone, IsTrue, None};
ghost use Rattle.energy_core.specs.Account.{last_of};
ghost use Rattle.meter_journal.specs.Journal as journal;
ghost use Rattle.meter_journal.specs.Fitting as fitting;
ghost use Rattle.meter_journal.specs.Lists as lists;

use crate::lines::{EntryKind, EntryRow};
use energy_core::{Entry, Last};

/// Returns the row of a new entry after a list of rows, with the next sequence number.
pub fn row_after(rows: &[EntryRow], kind: EntryKind, entry: Entry) -> EntryRow
    ensures { result ≡ journal.new_row rows.now kind entry }
{
    EntryRow {
        place: rows.len() as u64 + 2,
        kind,
        entry,
        stands: true,
    }
}

/// Returns whether each row has the sequence number of its index: 2 for the first row, and so on.
pub fn are_numbered(rows: &[EntryRow]) -> bool
    ensures so { IsTrue result → lists.AreNumbered (lists.latest_first rows.now) }
    ensures if_so { lists.AreNumbered (lists.latest_first rows.now) → IsTrue result }
{
    for (index, row) in rows.iter().enumerate() {
        if row.place != index as u64 + 2 {
            return false;
        }
    }
    true
}

/// Returns whether entries of this kind are accepted readings of the meter.
fn is_reading(kind: EntryKind) -> bool
    ensures { result ≡ journal.is_reading kind }
{
    match kind {
        EntryKind::Reading => true,
        EntryKind::Manual | EntryKind::Closing | EntryKind::Reset | EntryKind::Rescale => false,
    }
}

/// Returns whether the entry of the row is an accepted reading of the meter.
fn is_read(row: &EntryRow) -> bool
    ensures { result ≡ journal.is_read row.now.kind row.now.entry }
{
    match row.entry {
        Entry::Step { .. } => is_reading(row.kind),
        Entry::Change { .. } => false,
    }
}

/// Returns whether an entry may be voided (cancelled), given its row and the next valid row. The
/// entry must be a valid reading, and the next valid entry, if any, must be a reading.
pub fn is_voidable(row: &EntryRow, next: &Option<EntryRow>) -> bool
    ensures { result ≡ fitting.is_voidable row.now next.now }
{
    let is_free = match next {
        Some(next) => is_read(next),
        None => true,
    };
    row.stands && is_read(row) && is_free
}

/// Returns the counter's state after a row, given the state `last` before the row. A voided
/// (cancelled) row leaves the state unchanged.
fn following(last: &Last, row: &EntryRow) -> Last
    ensures { result ≡ lists.following last.now row.now }
{
    if !row.stands {
        return *last;
    }
    match row.entry {
        Entry::Step { at, raw, .. } => Last {
            at,
            raw,
            sf: last.sf,
        },
        Entry::Change { at, after, sf, .. } => Last { at, raw: after, sf },
    }
}

/// Returns the counter's state after a meter's opening (first) entry and the valid (not voided)
/// rows of a list.
pub fn last_of_rows(opening: &Last, rows: &[EntryRow]) -> Last
    ensures { let es = journal.entries_in (lists.latest_first rows.now) in
        result ≡ last_of opening.now es }
{
    let mut last = *opening;
    for row in rows {
        last = following(&last, row);
    }
    last
}

/// Returns an entry with its rollovers computed from the counter's state `last`. A `Step` (an entry
/// with one count) has one rollover if it shows less than this state, otherwise none. A `Change` (a
/// reset or a rescale) is returned unchanged.
fn with_rolls(last: &Last, entry: &Entry) -> Entry
    ensures { result ≡ journal.with_rolls last.now entry.now }
{
    match *entry {
        Entry::Step { at, raw, .. } => Entry::Step {
            at,
            raw,
            rolls: u8::from(raw < last.raw),
        },
        Entry::Change { .. } => *entry,
    }
}

/// Returns a row with its rollovers computed from the counter's state `last` before it. Only the
/// row of a valid (not voided) reading changes.
fn rolled(last: &Last, row: &EntryRow) -> EntryRow
    ensures { result ≡ journal.rolled last.now row.now }
{
    let mut next = *row;
    if row.stands && is_reading(row.kind) {
        next.entry = with_rolls(last, &row.entry);
    }
    next
}

/// Updates the rollovers of the valid (not voided) readings from the index `from` to the end of the
/// list. `last` is the counter's state before the row at this index.
fn roll_on(last: &Last, rows: &mut [EntryRow], from: usize)
    requires { from ≤ length rows.old }
    ensures { rows.new ≡ take from rows.old ++ lists.rolled_on last.now (drop from rows.old) }
{
    let mut stand = *last;
    for i in from..rows.len() {
        let row = rolled(&stand, &rows[i]);
        rows[i] = row;
        stand = following(&stand, &row);
    }
}

/// Voids (cancels) the entry with the sequence number `place`. Marks the entry's row as voided, and
/// updates the rollovers of all later readings.
pub fn strike(opening: &Last, rows: &mut [EntryRow], place: u64)
    requires numbered { lists.AreNumbered (lists.latest_first rows.old) }
    requires after_the_opening { 2 ≤ place }
    requires there { place < length rows.old + 2 }
    ensures { let before = lists.latest_first rows.old in
        lists.latest_first rows.new ≡ journal.with_void opening.now place before }
{
    let index = (place - 2) as usize;
    let last = last_of_rows(opening, &rows[..index]);
    let mut row = rows[index];
    row.stands = false;
    rows[index] = row;
    roll_on(&last, rows, index + 1);
}

/// A row of a list, the row's index, and the next valid (not voided) row after it.
#[derive(Clone, Copy)]
pub struct FoundRow {
    pub index: usize,
    pub row: EntryRow,
    pub next: Option<EntryRow>,
}

/// Returns the first valid (not voided) row at or after the index `from`, or `None` if no such row
/// exists.
fn next_standing(rows: &[EntryRow], from: usize) -> Option<EntryRow>
    requires { from ≤ length rows.now }
    ensures { result ≡ find (λ row. row.stands) (drop from rows.now) }
{
    for row in &rows[from..] {
        if row.stands {
            return Some(*row);
        }
    }
    None
}

/// Returns the row with the sequence number `place`, or `None` if no such row exists. The index
/// follows from the sequence number, so no search is needed.
pub fn find_row(rows: &[EntryRow], place: u64) -> Option<FoundRow>
    requires { lists.AreNumbered (lists.latest_first rows.now) }
    ensures missing { IfNone result (journal.row_at place (lists.latest_first rows.now) ≡ None) }
    ensures found { IfSome result (lists.IsFound rows.now place) }
{
    if place < 2 || place - 2 >= rows.len() as u64 {
        return None;
    }
    let index = (place - 2) as usize;
    Some(FoundRow {
        index,
        row: rows[index],
        next: next_standing(rows, index + 1),
    })
}
