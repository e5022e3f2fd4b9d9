//! Lists the entries of a meter from a given index.
ghost use Rattle.std.specs.Prelude.{◌≡◌, false, reverse, IfOk, IfErr, IsUtf8};
ghost use Rattle.meter_journal.specs.Lists.{latest_first};
ghost use Rattle.office_books.specs.Entries.{entries_from, first_from, listed_rows};
ghost use Rattle.sqlite.specs.declared.error.ErrorCode.TheVariants.{OutOfMemory};
ghost use Rattle.sqlite.specs.declared.error.Error.TheVariants.{SqliteFailure};
ghost use Rattle.store_tables.specs.declared.faults.RowFault.TheVariants.{Sql};
ghost use Rattle.office_store.specs.Metering.Sound.{HasReadableJournals};
ghost use Rattle.office_store.specs.Finding.Finding.{Finds};

use crate::finding::want_of_memory;
use crate::metering::entries::rows;
use crate::metering::meters::meter;
use crate::text;
use meter_journal::EntryRow;
use office_books::{MeterEntry, list_entries};
use office_events::{Name, Opening};
use sqlite::{Alter, Connection};
use std::alloc::Global;
use store_tables::RowFault;

/// Lists a meter's first entry and its later entries, the oldest first. Begins at index `from`, and
/// lists at most `most` entries.
fn listed(
    alloc: Global,
    opening: &Opening,
    rows: &[EntryRow],
    from: u64,
    most: u32,
) -> Result<Vec<MeterEntry>, RowFault>
    ensures listed { IfOk result (λ v. v.items ≡
        first_from from most (reverse (listed_rows opening.now (latest_first rows.now)))) }
    ensures fault { IfErr result (λ e. e ≡ Sql (SqliteFailure OutOfMemory)) }
{
    match list_entries(alloc, opening, rows, from, most) {
        Ok(listed) => Ok(listed),
        Err(_) => Err(want_of_memory()),
    }
}

/// Returns the entries of a meter ordered by index, including voided (cancelled) entries. Begins at
/// index `from`, and returns at most `most` entries. Reads all entries of the meter.
pub fn meter_entries<S: Alter>(
    alloc: Global,
    conn: &mut Connection<S>,
    name: &Name,
    from: u64,
    most: u32,
) -> Result<Vec<MeterEntry>, RowFault>
    requires { conn.old.in_transaction ≡ false }
    ensures { Finds S.Store conn.old conn.new result
        (λ facts v. v.items ≡ entries_from facts name.now from most)
        (λ facts. IsUtf8 name.now × HasReadableJournals facts) }
{
    let text = text(name)?;
    let Some(whole) = meter(conn, name)? else {
        return Ok(Vec::new(alloc));
    };
    let rows = rows(alloc, conn, text)?;
    listed(alloc, &whole.opening, &rows, from, most)
}
