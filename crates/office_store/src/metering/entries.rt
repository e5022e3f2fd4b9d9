//! Queries for the entries of meters by index.
ghost use Rattle.std.specs.Prelude.{◌≡◌, false, IfOk, IfSome, IsUtf8};
ghost use Rattle.office_books.specs.Ranges.{IsSound};
ghost use Rattle.office_books.specs.Meters.{entry_at};
ghost use Rattle.office_store.specs.Metering.Entries.{ShowsEntries, ShowsVoids, FindsJournal};
ghost use Rattle.office_store.specs.Metering.Sound.{HasReadableJournals};
ghost use Rattle.office_store.specs.Finding.Finding.{Finds};

use crate::metering::journal::journal_rows;
use crate::metering::meters::meter;
use crate::metering::places::placed;
use crate::text;
use meter_journal::{EntryRow, places_were_kept, rows_are_kept, voids_change_two_rows};
use office_books::{installations_are_in_range, journals_fit};
use office_events::{EntryContext, Name};
use sqlite::{Alter, Connection, Row};
use std::alloc::Global;
use store_tables::{RowFault, check_open, entry_rows, void_rows};

/// Queries the entries of a meter, ordered by index.
fn entries<S: Alter>(conn: &mut Connection<S>, meter: &str) -> Result<Vec<Row>, RowFault>
    requires { conn.old.in_transaction ≡ false }
    ensures { Finds S.Store conn.old conn.new result
        (λ facts rows. ShowsEntries meter.now facts rows.items) HasReadableJournals }
{
    journals_fit();
    rows_are_kept();
    check_open(conn)?;
    let rows = entry_rows(conn, meter)?;
    Ok(rows)
}

/// Queries a meter's rows of `voids`, which cancel single entries.
pub(crate) fn voids<S: Alter>(conn: &mut Connection<S>, meter: &str) -> Result<Vec<Row>, RowFault>
    requires { conn.old.in_transaction ≡ false }
    ensures { Finds S.Store conn.old conn.new result
        (λ facts rows. ShowsVoids meter.now facts rows.items) HasReadableJournals }
{
    check_open(conn)?;
    let rows = void_rows(conn, meter)?;
    Ok(rows)
}

/// Returns all entries of a meter except its first one, the oldest first. Entries that a row of
/// `voids` cancels are marked.
pub(crate) fn rows<S: Alter>(
    alloc: Global,
    conn: &mut Connection<S>,
    meter: &str,
) -> Result<Vec<EntryRow>, RowFault>
    requires { conn.old.in_transaction ≡ false }
    ensures { Finds S.Store conn.old conn.new result
        (λ facts rows. FindsJournal meter.now facts rows.items) HasReadableJournals }
{
    journals_fit();
    rows_are_kept();
    voids_change_two_rows();
    let entries = entries(conn, meter)?;
    let voids = voids(conn, meter)?;
    journal_rows(alloc, &entries, &voids)
}

/// Returns the meter entry at index `place`, the meter's state before this entry, and the next
/// entry that is not voided (cancelled). Returns None for index 1. Reads all entries of the meter.
pub fn entry<S: Alter>(
    alloc: Global,
    conn: &mut Connection<S>,
    name: &Name,
    place: u64,
) -> Result<Option<EntryContext>, RowFault>
    requires { conn.old.in_transaction ≡ false }
    ensures finds { Finds S.Store conn.old conn.new result
        (λ facts found. found ≡ entry_at facts name.now place)
        (λ facts. IsUtf8 name.now × HasReadableJournals facts) }
    ensures sound { IfOk result (λ found. IfSome found (λ p. IsSound p.before)) }
{
    journals_fit();
    rows_are_kept();
    places_were_kept();
    installations_are_in_range();
    let text = text(name)?;
    let Some(whole) = meter(conn, name)? else {
        return Ok(None);
    };
    let rows = rows(alloc, conn, text)?;
    placed(&whole, &rows, place)
}
