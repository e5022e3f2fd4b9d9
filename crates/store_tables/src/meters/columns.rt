//! Readers of the rows of `installations` and `ranges`, column by column.
ghost use Rattle.std.specs.Prelude.{◌≡◌, IfOk};
ghost use Rattle.sqlite.specs.Order.{column};
ghost use Rattle.store_tables.specs.Asking.{ReadsRow};
ghost use Rattle.store_tables.specs.Columns.{or_damaged};
ghost use Rattle.store_tables.specs.Meters.Rows.{range_shown, HasRange, IsRange, IsSoundRanged, flag_in};
ghost use Rattle.store_tables.specs.Meters.Rows.{last_in, installation_in, installed_shown, IsInstalled};
ghost use Rattle.store_tables.specs.Meters.Rows.{IsSoundInstallation, IsSoundInstalled};

use crate::meters::rows::{Installation, InstallationRow, LastRow};
use crate::{GREATEST_PLACE, LATEST_MOMENT, RowFault, scale, text, whole};
use energy_core::{MAX_CEILING, MAX_RANGE, MAX_SHOWN, MAX_TOTAL, MIN_RANGE};
use sqlite::Row;

fn flag(row: &Row, at: usize) -> Result<bool, RowFault>
    ensures { result ≡ or_damaged (flag_in (column row.now at)) }
{
    match whole(row, at, 0, 1)? {
        0 => Ok(false),
        1 => Ok(true),
        _ => Err(RowFault::Damaged),
    }
}

/// Reads a meter's last entry and total energy from a row of `installations`.
fn last(row: &Row) -> Result<LastRow, RowFault>
    ensures { result ≡ last_in row.now }
{
    let moment = whole(row, 5, 0, LATEST_MOMENT)?;
    let raw = whole(row, 6, 0, MAX_SHOWN)?;
    let sf = scale(row, 7)?;
    let total = whole(row, 8, 0, MAX_TOTAL)?;
    Ok(LastRow {
        moment,
        raw: raw as u32,
        sf,
        total,
    })
}

/// Reads all columns of a row of `installations` except the names of the meter and the accounting
/// register (a named counter).
fn numbers(row: &Row) -> Result<InstallationRow, RowFault>
    ensures { result ≡ installation_in row.now }
{
    let place = whole(row, 0, 1, GREATEST_PLACE)?;
    let ceiling = whole(row, 3, 1, MAX_CEILING)?;
    let is_ended = flag(row, 4)?;
    let last = last(row)?;
    Ok(InstallationRow {
        place,
        ceiling,
        is_ended,
        last,
    })
}

/// Reads the row of a meter from a result row of the query `installation_rows`.
pub fn read_installation(row: &Row) -> Result<Installation, RowFault>
    ensures read { ReadsRow row.now installed_shown IsInstalled IsSoundInstalled result }
    ensures sound { IfOk result (λ a. IsSoundInstallation a.row) }
{
    let numbers = numbers(row)?;
    let meter = text(row, 1)?;
    let register = text(row, 2)?;
    Ok(Installation {
        meter,
        register,
        row: numbers,
    })
}

/// Reads how many values a meter's counter has from a result row of the query `range_rows`.
pub fn read_range(row: &Row) -> Result<u64, RowFault>
    ensures read { ReadsRow row.now range_shown HasRange IsSoundRanged result }
    ensures sound { IfOk result IsRange }
{
    whole(row, 0, MIN_RANGE, MAX_RANGE)
}
