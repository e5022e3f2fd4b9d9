//! Computes the energy by quarter hour that follows from a meter's entries.
ghost use Rattle.std.specs.Prelude.{◌<◌, ◌≤◌, ◌^◌, All, IfOk, IfSome};
ghost use Rattle.std.specs.List.Sorted.{IsNonDecreasingBy};
ghost use Rattle.interval_core.specs.Account.{energy_of};
ghost use Rattle.table_audit.specs.Booked.{AreBooked};

use crate::lawful::go_over;
use crate::opening::opened;
use energy_core::MAX_TOTAL;
use interval_core::{LAST_MOMENT, Share};
use meter_journal::audit::{Progress, TableRow, matching_rows_are_independent, start};
use meter_journal::{interval_rows_are_accounts, rows_lie_within};
use std::alloc::{AllocError, Global};

/// Returns the energy by quarter hour that follows from a meter's entries, which begin with its
/// opening. Returns None if the rules for meter entries refuse an entry.
pub fn booked(
    alloc: Global,
    range: u64,
    ceiling: u64,
    entries: &[TableRow],
) -> Result<Option<Vec<Share>>, AllocError>
    requires places { All (λ entry. entry.place < 2 ^ 63) entries.now }
    requires moments { All (λ entry. entry.moment ≤ LAST_MOMENT) entries.now }
    ensures booked { IfOk result (AreBooked range ceiling entries.now) }
    ensures in_order { IfOk result (λ found. IfSome found (λ shares.
        IsNonDecreasingBy (λ row. row.start) shares.items)) }
    ensures moments { IfOk result (λ found. IfSome found (λ shares.
        All (λ row. row.start ≤ LAST_MOMENT) shares.items)) }
    ensures energy { IfOk result (λ found. IfSome found (λ shares.
        energy_of shares.items ≤ MAX_TOTAL)) }
{
    interval_rows_are_accounts();
    rows_lie_within();
    matching_rows_are_independent();
    let Some(first) = entries.first() else {
        return Ok(None);
    };
    let Some(meter) = opened(range, ceiling, first) else {
        return Ok(None);
    };
    let mut progress = start(alloc, &meter);
    if let Some(_) = go_over(&meter, &mut progress, &entries[1..])? {
        return Ok(None);
    }
    let Progress { check: _, wanted } = progress;
    Ok(Some(wanted))
}
