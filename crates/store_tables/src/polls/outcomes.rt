//! SQL statements on the table `outcomes`, which stores how each poll ended.
ghost use Rattle.std.specs.Prelude.{◌≤◌, IfOk, IfSome};
ghost use Rattle.sqlite.specs.Held.{state};
ghost use Rattle.store_tables.specs.Content.{Edits, with_row};
ghost use Rattle.store_tables.specs.Steps.{Steps, IsSameBorrow};
ghost use Rattle.store_tables.specs.Limits.{greatest_place};
ghost use Rattle.store_tables.specs.Answer.{IsFound, AnyOrder};
ghost use Rattle.store_tables.specs.Asking.{Asks, ReportsRows, ShowsFirst, LooksUp};
ghost use Rattle.store_tables.specs.Polls.Rows.{outcome_columns, outcome_shown, is_outcome_of, IsOutcome};
ghost use Rattle.store_tables.specs.Polls.Rows.{IsSoundOutcome};
ghost use Rattle.store_tables.specs.Polls.Trees.{outcomes};

use crate::polls::columns::outcome;
use crate::polls::rows::OutcomeRow;
use crate::{RowFault, number};
use sqlite::{Alter, Connection, Error, Row, Transaction, params};

/// Inserts the outcome of a poll into the table `outcomes`.
pub fn insert_outcome<S: Alter>(
    tx: &mut Transaction<'_, S>,
    row: OutcomeRow,
) -> Result<usize, Error>
    requires sound { IsSoundOutcome row }
    ensures same_reference { IsSameBorrow tx.old.conn tx.new.conn }
    ensures does { Steps (state S.Store tx.old.conn.now) (state S.Store tx.new.conn.now) result
        (Edits outcomes outcome_columns (with_row row)) }
{
    let poll = number(row.poll);
    let moment = number(row.moment);
    tx.execute(
        "INSERT INTO outcomes (poll, moment, outcome, code) VALUES (?1, ?2, ?3, ?4)",
        params![
            &poll,
            &moment,
            u32::from(row.outcome.number()),
            u32::from(row.outcome.code())
        ],
    )
}

/// Queries the row of `outcomes` for a poll: how the poll ended.
fn rows_of<S: Alter>(conn: &mut Connection<S>, poll: u64) -> Result<Vec<Row>, Error>
    requires place { poll ≤ greatest_place }
    ensures asks { Asks S.Store conn.old conn.new }
    ensures shows { ReportsRows S.Store conn.old conn.new outcomes outcome_columns result
        (ShowsFirst (is_outcome_of poll) AnyOrder outcome_shown) }
{
    let poll = number(poll);
    conn.query_all(
        "SELECT poll, moment, outcome, code FROM outcomes WHERE poll = ?1 LIMIT 1",
        params![&poll],
    )
}

/// Returns the outcome of a poll, or None if the poll has no outcome.
pub fn outcome_of<S: Alter>(
    conn: &mut Connection<S>,
    poll: u64,
) -> Result<Option<OutcomeRow>, RowFault>
    requires place { poll ≤ greatest_place }
    ensures finds { LooksUp S.Store conn.old conn.new outcomes outcome_columns IsSoundOutcome result
        (IsFound (is_outcome_of poll) IsOutcome) }
    ensures sound { IfOk result (λ found. IfSome found IsSoundOutcome) }
{
    let rows = rows_of(conn, poll)?;
    match rows.first() {
        None => Ok(None),
        Some(row) => Ok(Some(outcome(row)?)),
    }
}
