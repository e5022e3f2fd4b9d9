//! Queries polls and their outcomes, one run of polls at a time. A run has `RUN` consecutive poll
//! numbers.
ghost use Rattle.std.specs.Prelude.{◌≡◌, ◌<◌, ◌^◌, false};
ghost use Rattle.sqlite.specs.declared.types.Value.TheVariants.{Int};
ghost use Rattle.store_tables.specs.Answer.{every};
ghost use Rattle.store_tables.specs.Asking.{Asks, ReportsRows, Shows, ShowsFirst};
ghost use Rattle.table_audit.specs.Looking.{itself, Finds};
ghost use Rattle.table_audit.specs.PollShowing as showing;
ghost use Rattle.table_audit.specs.Showing.{InPlace};

use crate::poll_rows::{RUN, RunRows};
use sqlite::types::Value;
use sqlite::{Alter, Connection, Error, Row, params};
use store_tables::{RowFault, check_open, number};

/// Returns the least poll number of a run of polls (`RUN` consecutive numbers) as an SQL integer.
/// The first run includes all numbers below 1, so that an audit also reads polls with such invalid
/// numbers.
fn low(run: u64) -> Value
    requires { run < 2 ^ 50 }
    ensures { result ≡ Int (showing.low_of run) }
{
    if run == 0 {
        return Value::Int(i64::MIN);
    }
    number(run * RUN + 1)
}

/// Returns the greatest poll number of a run of polls (`RUN` consecutive numbers) as an SQL
/// integer.
fn high(run: u64) -> Value
    requires { run < 2 ^ 50 }
    ensures { result ≡ Int (showing.high_of run) }
{
    number((run + 1) * RUN)
}

/// Queries the greatest poll number in the tables.
fn ask_last<S: Alter>(conn: &mut Connection<S>) -> Result<Vec<Row>, Error>
    ensures asks { Asks S.Store conn.old conn.new }
    ensures shows { ReportsRows S.Store conn.old conn.new showing.polls_tree itself result
        (ShowsFirst every showing.FromLast showing.number_shown) }
{
    conn.query_all("SELECT poll FROM polls ORDER BY poll DESC LIMIT 1", &[])
}

/// Queries the polls of a run (`RUN` consecutive numbers), in ascending order of their numbers.
fn ask_polls<S: Alter>(conn: &mut Connection<S>, run: u64) -> Result<Vec<Row>, Error>
    requires { run < 2 ^ 50 }
    ensures asks { Asks S.Store conn.old conn.new }
    ensures shows { ReportsRows S.Store conn.old conn.new showing.polls_tree itself result
        (Shows (showing.is_in_run run) InPlace showing.poll_shown) }
{
    let from = low(run);
    let till = high(run);
    conn.query_all(
        "SELECT poll, unit, started, tid, function, address, count, device FROM polls WHERE poll >= ?1 AND poll <= ?2 ORDER BY poll",
        params![&from, &till],
    )
}

/// Queries the outcomes of the polls in a run (`RUN` consecutive numbers), in ascending order of
/// poll numbers.
fn ask_outcomes<S: Alter>(conn: &mut Connection<S>, run: u64) -> Result<Vec<Row>, Error>
    requires { run < 2 ^ 50 }
    ensures asks { Asks S.Store conn.old conn.new }
    ensures shows { ReportsRows S.Store conn.old conn.new showing.outcomes_tree itself result
        (Shows (showing.is_in_run run) InPlace showing.outcome_shown) }
{
    let from = low(run);
    let till = high(run);
    conn.query_all(
        "SELECT poll, moment, outcome, code FROM outcomes WHERE poll >= ?1 AND poll <= ?2 ORDER BY poll",
        params![&from, &till],
    )
}

/// Queries the greatest poll number in the tables. The result row has this number in its first
/// column. If the tables have no polls, there is no result row.
pub fn last_poll<S: Alter>(conn: &mut Connection<S>) -> Result<Vec<Row>, RowFault>
    requires { conn.old.in_transaction ≡ false }
    ensures { Finds S.Store conn.old conn.new result
        (λ content rows. showing.ShowsLast content rows.items) }
{
    check_open(conn)?;
    let rows = ask_last(conn)?;
    Ok(rows)
}

/// Queries the polls of a run (`RUN` consecutive numbers), after checking that the database is
/// open.
fn polls<S: Alter>(conn: &mut Connection<S>, run: u64) -> Result<Vec<Row>, RowFault>
    requires mode { conn.old.in_transaction ≡ false }
    requires run { run < 2 ^ 50 }
    ensures { Finds S.Store conn.old conn.new result
        (λ content rows. showing.ShowsPolls run content rows.items) }
{
    check_open(conn)?;
    let rows = ask_polls(conn, run)?;
    Ok(rows)
}

/// Queries the outcomes of the polls in a run (`RUN` consecutive numbers), after checking that the
/// database is open.
fn outcomes<S: Alter>(conn: &mut Connection<S>, run: u64) -> Result<Vec<Row>, RowFault>
    requires mode { conn.old.in_transaction ≡ false }
    requires run { run < 2 ^ 50 }
    ensures { Finds S.Store conn.old conn.new result
        (λ content rows. showing.ShowsOutcomes run content rows.items) }
{
    check_open(conn)?;
    let rows = ask_outcomes(conn, run)?;
    Ok(rows)
}

/// Queries the polls of a run (`RUN` consecutive numbers) and their outcomes. `run` is the index of
/// the run, from 0.
pub fn run_rows<S: Alter>(conn: &mut Connection<S>, run: u64) -> Result<RunRows, RowFault>
    requires mode { conn.old.in_transaction ≡ false }
    requires run { run < 2 ^ 50 }
    ensures { Finds S.Store conn.old conn.new result (showing.AreRowsOfRun run) }
{
    let polls = polls(conn, run)?;
    let outcomes = outcomes(conn, run)?;
    Ok(RunRows { polls, outcomes })
}
