//! SQL statements on the table `ranges`: how many values each meter's counter has before it rolls
//! over.
ghost use Rattle.std.specs.Prelude.{IfOk, IfSome};
ghost use Rattle.sqlite.specs.Held.{state};
ghost use Rattle.store_tables.specs.Content.{Edits, with_row};
ghost use Rattle.store_tables.specs.Steps.{Steps, IsSameBorrow};
ghost use Rattle.store_tables.specs.Answer.{IsFound, AnyOrder};
ghost use Rattle.store_tables.specs.Asking.{Asks, AsksInside, ReportsRows, ShowsFirst, LooksUp};
ghost use Rattle.store_tables.specs.Meters.Rows.{ranged_columns, range_shown, is_range_of, HasRange};
ghost use Rattle.store_tables.specs.Meters.Rows.{IsRange, IsSoundRanged};
ghost use Rattle.store_tables.specs.Meters.Trees.{ranges};

use crate::{RowFault, first_whole, number};
use energy_core::{MAX_RANGE, MIN_RANGE};
use sqlite::{Alter, Connection, Error, Row, Transaction, params};

/// The query for the number of values that a meter's counter has.
const OF_METER: &str = "SELECT \"range\" FROM ranges WHERE meter = ?1 LIMIT 1";

/// Inserts the range of a meter's counter: how many values the counter has before it rolls over.
pub fn insert_range<S: Alter>(
    tx: &mut Transaction<'_, S>,
    meter: &str,
    range: u64,
) -> Result<usize, Error>
    requires sound { IsRange range }
    ensures same_reference { IsSameBorrow tx.old.conn tx.new.conn }
    ensures does { Steps (state S.Store tx.old.conn.now) (state S.Store tx.new.conn.now) result
        (Edits ranges ranged_columns (with_row (record { meter = meter.now; range = range }))) }
{
    let range = number(range);
    tx.execute(
        "INSERT INTO ranges (meter, \"range\") VALUES (?1, ?2)",
        params![meter, &range],
    )
}

/// Queries the range of a meter's counter: how many values the counter has before it rolls over.
fn rows_of<S: Alter>(conn: &mut Connection<S>, meter: &str) -> Result<Vec<Row>, Error>
    ensures asks { Asks S.Store conn.old conn.new }
    ensures shows { ReportsRows S.Store conn.old conn.new ranges ranged_columns result
        (ShowsFirst (is_range_of meter.now) AnyOrder range_shown) }
{
    conn.query_all(OF_METER, params![meter])
}

/// Returns the range of a meter's counter: how many values the counter has. Returns None if the
/// meter has no range.
pub fn range_of<S: Alter>(conn: &mut Connection<S>, meter: &str) -> Result<Option<u64>, RowFault>
    ensures finds { LooksUp S.Store conn.old conn.new ranges ranged_columns IsSoundRanged result
        (IsFound (is_range_of meter.now) HasRange) }
    ensures sound { IfOk result (λ found. IfSome found IsRange) }
{
    let rows = rows_of(conn, meter)?;
    first_whole(&rows, MIN_RANGE, MAX_RANGE)
}

/// Queries the number of values of a meter's counter inside a transaction. Use `read_range` to
/// decode the row.
pub fn range_rows<S: Alter>(tx: &mut Transaction<'_, S>, meter: &str) -> Result<Vec<Row>, Error>
    ensures same_reference { IsSameBorrow tx.old.conn tx.new.conn }
    ensures asks { AsksInside S.Store tx.old.conn.now tx.new.conn.now result }
    ensures shows { ReportsRows S.Store tx.old.conn.now tx.new.conn.now ranges ranged_columns result
        (ShowsFirst (is_range_of meter.now) AnyOrder range_shown) }
{
    tx.query_all(OF_METER, params![meter])
}
