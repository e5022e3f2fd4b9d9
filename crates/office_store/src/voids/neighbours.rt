//! Searches for the nearest meter entries before and after an entry that are not voided
//! (cancelled). If the entry is voided, these two entries become neighbors.
ghost use Rattle.std.specs.Prelude.{◌≤◌, IfOk};
ghost use Rattle.sqlite.specs.Held.{state};
ghost use Rattle.store_tables.specs.Entries.Rows.{voided_columns};
ghost use Rattle.store_tables.specs.Entries.Trees.{voids};
ghost use Rattle.store_tables.specs.Limits.{greatest_place};
ghost use Rattle.store_tables.specs.Steps.{IsSameBorrow};
ghost use Rattle.office_store.specs.Going.{Goes};
ghost use Rattle.office_store.specs.Voids.Places.{ReportsOf, IsBefore, IsAfter};

use crate::voids::entries::is_voided;
use sqlite::{Alter, Transaction};
use store_tables::{GREATEST_PLACE, RowFault};

/// Returns the index of the last meter entry before `place` that is not voided (cancelled). Queries
/// one index after another, downward from `place`.
pub fn place_before<S: Alter>(
    tx: &mut Transaction<'_, S>,
    meter: &str,
    place: u64,
) -> Result<u64, RowFault>
    requires following { 2 ≤ place }
    requires place { place ≤ greatest_place }
    ensures same_reference { IsSameBorrow tx.old.conn tx.new.conn }
    ensures lower { IfOk result (λ before. before ≤ place) }
    ensures does { Goes (state S.Store tx.old.conn.now) (state S.Store tx.new.conn.now) result
        (ReportsOf result voids voided_columns (IsBefore meter.now place)) }
{
    for passed in 1..place - 1 {
        let before = place - passed;
        if !is_voided(tx, meter, before)? {
            return Ok(before);
        }
    }
    Ok(1)
}

/// Returns the first index after `place` that no row of `voids` cancels (each such row cancels one
/// meter entry). Queries one index after another, upward from `place`.
pub fn place_after<S: Alter>(
    tx: &mut Transaction<'_, S>,
    meter: &str,
    place: u64,
) -> Result<u64, RowFault>
    requires place { place ≤ greatest_place }
    ensures same_reference { IsSameBorrow tx.old.conn tx.new.conn }
    ensures high { IfOk result (λ next. next ≤ greatest_place) }
    ensures does { Goes (state S.Store tx.old.conn.now) (state S.Store tx.new.conn.now) result
        (ReportsOf result voids voided_columns (IsAfter meter.now place)) }
{
    for next in place + 1..GREATEST_PLACE + 1 {
        if !is_voided(tx, meter, next)? {
            return Ok(next);
        }
    }
    Err(RowFault::Damaged)
}
