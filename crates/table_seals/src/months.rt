//! Adds up the energy of a meter by calendar month.
ghost use Rattle.std.specs.Prelude.{◌≡◌, ◌<◌, ◌≤◌, ◌^◌, ◌++◌, ◌∷◌, [], List, map, All};
ghost use Rattle.std.specs.Prelude.{IfOk, OnOk, MatchOption};
ghost use Rattle.std.specs.List.Sorted.{IsNonDecreasingBy};
ghost use Rattle.interval_core.specs.declared.totals.DayTotal.{DayTotal as TheDay};
ghost use Rattle.interval_core.specs.Account.{energy_of};
ghost use Rattle.energy_report.specs.declared.form.Period.TheVariants.{Month};
ghost use Rattle.energy_report.specs.Rows.{rows_by, shown};
ghost use Rattle.table_seals.specs.Months.{AreMonths, HasMonths, month_of};
ghost use Rattle.table_seals.specs.Sealed.{SealedMonth, sealed_month_of};

use crate::seals::MonthSeal;
use energy_core::MAX_TOTAL;
use energy_report::{Period, Row, period_name};
use interval_core::{DayTotal, LAST_MOMENT, Share, Zone, by_day};
use meter_journal::audit::TableRow;
use std::alloc::{AllocError, Global};
use table_audit::booked;

/// Adds the next day to the rows of a monthly report. The day is added to the last row, or begins a
/// new row if its month is another one.
fn add_day(rows: &mut Vec<Row>, day: &DayTotal) -> Result<(), AllocError>
    ensures { OnOk result ((days : List TheDay)
        → rows.old.items ≡ map shown (rows_by Month days)
        → rows.new.items ≡ map shown (rows_by Month (days ++ day.now ∷ []))) }
{
    let Some(last) = rows.pop() else {
        rows.push(Row::new(day))?;
        return Ok(());
    };
    if Period::Month.has_both(last.first, day.day) {
        rows.push(last.and(day))?;
        return Ok(());
    }
    rows.push(last)?;
    rows.push(Row::new(day))?;
    Ok(())
}

/// Returns the rows of a monthly report on a list of days.
fn month_rows(alloc: Global, days: &[DayTotal]) -> Result<Vec<Row>, AllocError>
    ensures { IfOk result (λ rows. rows.items ≡ map shown (rows_by Month days.now)) }
{
    let mut rows: Vec<Row> = Vec::new(alloc);
    for day in days {
        add_day(&mut rows, day)?;
    }
    Ok(rows)
}

/// Returns the months of a seal from the rows of a monthly report.
fn month_seals(alloc: Global, rows: &[Row]) -> Result<Vec<MonthSeal>, AllocError>
    requires { All (λ row. row.mwh < 2 ^ 64) rows.now }
    ensures { IfOk result (λ months. map sealed_month_of months.items ≡ map month_of rows.now) }
{
    let mut months: Vec<MonthSeal> = Vec::new(alloc);
    for row in rows {
        let name = period_name(Period::Month, row.first);
        let month = name.bytes().to_vec(alloc)?;
        let mwh = row.mwh as u64;
        months.push(MonthSeal { month, mwh })?;
    }
    Ok(months)
}

/// Returns the energy of quarter hours by calendar month of the time zone, in order.
pub(crate) fn months_of(
    alloc: Global,
    zone: &Zone,
    shares: &[Share],
) -> Result<Vec<MonthSeal>, AllocError>
    requires in_order { IsNonDecreasingBy (λ row. row.start) shares.now }
    requires moments { All (λ row. row.start ≤ LAST_MOMENT) shares.now }
    requires energy { energy_of shares.now ≤ MAX_TOTAL }
    ensures { IfOk result (λ months.
        AreMonths zone.now shares.now (map sealed_month_of months.items)) }
{
    let Ok(days) = by_day(alloc, shares, zone) else {
        return Err(AllocError);
    };
    let rows = month_rows(alloc, days.as_slice())?;
    month_seals(alloc, rows.as_slice())
}

/// Returns the energy of a meter by calendar month, as it follows from its entries (the opening
/// first), or None if the rules for meter entries refuse an entry.
pub(crate) fn meter_months(
    alloc: Global,
    zone: &Zone,
    range: u64,
    ceiling: u64,
    entries: &[TableRow],
) -> Result<Option<Vec<MonthSeal>>, AllocError>
    requires places { All (λ entry. entry.place < 2 ^ 63) entries.now }
    requires moments { All (λ entry. entry.moment ≤ LAST_MOMENT) entries.now }
    ensures { IfOk result (λ found. MatchOption found
        ((months : List SealedMonth) → HasMonths zone.now range ceiling entries.now months → ⊥)
        (λ months.
        HasMonths zone.now range ceiling entries.now (map sealed_month_of months.items))) }
{
    let Some(shares) = booked(alloc, range, ceiling, entries)? else {
        return Ok(None);
    };
    let months = months_of(alloc, zone, shares.as_slice())?;
    Ok(Some(months))
}
