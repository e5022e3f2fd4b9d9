//! The query for the meters that were installed at an accounting register (a named counter of a
//! device).
ghost use Rattle.store_tables.specs.Answer.{FirstFirst};
ghost use Rattle.store_tables.specs.Asking.{Asks, Shows, ReportsRows};
ghost use Rattle.store_tables.specs.Meters.Rows.{installed_columns, installed_place, installed_shown, is_at};
ghost use Rattle.store_tables.specs.Meters.Trees.{installations};

use sqlite::{Alter, Connection, Error, Row, params};

/// Queries the rows of `installations` for the meters that were installed at an accounting register
/// (a named energy counter), ordered by index. `read_installation` reads each row.
pub fn register_meter_rows<S: Alter>(
    conn: &mut Connection<S>,
    register: &str,
) -> Result<Vec<Row>, Error>
    ensures asks { Asks S.Store conn.old conn.new }
    ensures shows { ReportsRows S.Store conn.old conn.new installations installed_columns result
        (Shows (is_at register.now) (FirstFirst installed_place) installed_shown) }
{
    conn.query_all(
        "SELECT place, meter, register, ceiling, ended, last_moment, last_raw, last_sf, total FROM installations WHERE register = ?1 ORDER BY place",
        params![register],
    )
}
