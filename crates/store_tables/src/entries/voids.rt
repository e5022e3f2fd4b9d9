//! SQL statements on the table `voids`, whose rows cancel entries of meters.
ghost use Rattle.std.specs.Prelude.{◌≤◌};
ghost use Rattle.sqlite.specs.Held.{state};
ghost use Rattle.store_tables.specs.Content.{Edits, with_row};
ghost use Rattle.store_tables.specs.Steps.{Steps, IsSameBorrow};
ghost use Rattle.store_tables.specs.Answer.{FirstFirst};
ghost use Rattle.store_tables.specs.Asking.{Asks, ReportsRows, Shows};
ghost use Rattle.store_tables.specs.Limits.{IsPlace, latest_moment};
ghost use Rattle.store_tables.specs.Entries.Rows.{voided_at, voided_columns, voided_shown};
ghost use Rattle.store_tables.specs.Entries.Rows.{voided_place, is_void_of};
ghost use Rattle.store_tables.specs.Entries.Trees.{voids};

use crate::number;
use sqlite::{Alter, Connection, Error, Row, Transaction, params};

/// The query for the indices of a meter's cancelled entries, in ascending order.
const OF_METER: &str = "SELECT place FROM voids WHERE meter = ?1 ORDER BY place";

/// Inserts a row that cancels a meter's entry at index `place`, at the time `moment`.
pub fn insert_void<S: Alter>(
    tx: &mut Transaction<'_, S>,
    meter: &str,
    place: u64,
    moment: u64,
) -> Result<usize, Error>
    requires place { IsPlace place }
    requires moment { moment ≤ latest_moment }
    ensures same_reference { IsSameBorrow tx.old.conn tx.new.conn }
    ensures does { Steps (state S.Store tx.old.conn.now) (state S.Store tx.new.conn.now) result
        (Edits voids voided_columns (with_row (voided_at meter.now place moment))) }
{
    let place = number(place);
    let moment = number(moment);
    tx.execute(
        "INSERT INTO voids (meter, place, moment) VALUES (?1, ?2, ?3)",
        params![meter, &place, &moment],
    )
}

/// Queries the indices of a meter's cancelled entries in ascending order. Use `read_void` to decode
/// each row.
pub fn void_rows<S: Alter>(conn: &mut Connection<S>, meter: &str) -> Result<Vec<Row>, Error>
    ensures asks { Asks S.Store conn.old conn.new }
    ensures shows { ReportsRows S.Store conn.old conn.new voids voided_columns result
        (Shows (is_void_of meter.now) (FirstFirst voided_place) voided_shown) }
{
    conn.query_all(OF_METER, params![meter])
}
