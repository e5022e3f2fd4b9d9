//! Readers of the rows of `intervals`, the table of energy by quarter hour.
ghost use Rattle.std.specs.Prelude.{◌≡◌};
ghost use Rattle.office_store.specs.Intervals.Rows.{share_in};

use crate::streams::RowReader;
use energy_core::MAX_TOTAL;
use interval_core::Share;
use sqlite::Row;
use store_tables::{LATEST_MOMENT, RowFault, whole};

/// Reads the energy of one quarter hour from a row of `intervals`.
fn read_share(row: &Row) -> Result<Share, RowFault>
    ensures { result ≡ share_in row.now }
{
    let start = whole(row, 0, 0, LATEST_MOMENT)?;
    let mwh = whole(row, 1, 0, MAX_TOTAL)?;
    Ok(Share { start, mwh })
}

/// A reader that converts result rows of a query on `intervals` to the energies of quarter hours.
#[derive(Drop)]
pub(crate) struct Shares;

impl RowReader<Share> for Shares {
    ghost use Rattle.office_store.specs.Intervals.Rows.{share_in, IsSoundShare};

    ghost reads = { λ reader row. share_in row };

    ghost is_row = { IsSoundShare };

    fn read(&self, row: &Row) -> Result<Share, RowFault> {
        read_share(row)
    }
}
