//! SQL statements on the table `replies`, which stores accepted requests by idempotency key.
ghost use Rattle.std.specs.Prelude.{◌≤◌};
ghost use Rattle.sqlite.specs.Held.{state};
ghost use Rattle.store_tables.specs.Content.{Edits, with_row};
ghost use Rattle.store_tables.specs.Steps.{Steps, IsSameBorrow};
ghost use Rattle.store_tables.specs.Limits.{latest_moment};
ghost use Rattle.store_tables.specs.Answer.{IsFound, AnyOrder};
ghost use Rattle.store_tables.specs.Asking.{Asks, ReportsRows, ShowsFirst, LooksUp};
ghost use Rattle.store_tables.specs.Polls.Rows.{kept_under, reply_columns, reply_shown, is_reply};
ghost use Rattle.store_tables.specs.Polls.Rows.{IsCallNumber, IsRepeat, IsSoundKept};
ghost use Rattle.store_tables.specs.Polls.Trees.{replies};

use crate::RowFault;
use crate::polls::columns::repeat;
use crate::polls::kinds::word_of;
use crate::polls::rows::Repeat;
use office_events::CommandKind;
use sqlite::{Alter, Connection, Error, Row, Transaction, params};

/// Stores an accepted request under its idempotency key (`caller` and `number`), with the kind of
/// its command, to detect retries.
pub fn insert_kept_request<S: Alter>(
    tx: &mut Transaction<'_, S>,
    caller: &str,
    number: u64,
    request: &[u8],
    kind: CommandKind,
    moment: u64,
) -> Result<usize, Error>
    requires number { IsCallNumber number }
    requires moment { moment ≤ latest_moment }
    ensures same_reference { IsSameBorrow tx.old.conn tx.new.conn }
    ensures does { Steps (state S.Store tx.old.conn.now) (state S.Store tx.new.conn.now) result
        (Edits replies reply_columns (with_row
        (kept_under caller.now number request.now kind moment))) }
{
    let number = crate::number(number);
    let moment = crate::number(moment);
    tx.execute(
        "INSERT INTO replies (caller, number, request, kind, moment) VALUES (?1, ?2, ?3, ?4, ?5)",
        params![caller, &number, request, word_of(kind), &moment],
    )
}

/// Queries the request that is stored under an idempotency key.
fn rows_of<S: Alter>(conn: &mut Connection<S>, caller: &str, number: u64) -> Result<Vec<Row>, Error>
    requires number { IsCallNumber number }
    ensures asks { Asks S.Store conn.old conn.new }
    ensures shows { ReportsRows S.Store conn.old conn.new replies reply_columns result
        (ShowsFirst (is_reply caller.now number) AnyOrder reply_shown) }
{
    let number = crate::number(number);
    conn.query_all(
        "SELECT request, kind FROM replies WHERE caller = ?1 AND number = ?2 LIMIT 1",
        params![caller, &number],
    )
}

/// Compares a request with the request that is stored under its idempotency key (`caller` and
/// `number`). Returns None if the key has no stored request.
pub fn repeat_of<S: Alter>(
    conn: &mut Connection<S>,
    caller: &str,
    number: u64,
    request: &[u8],
) -> Result<Option<Repeat>, RowFault>
    requires number { IsCallNumber number }
    ensures { LooksUp S.Store conn.old conn.new replies reply_columns IsSoundKept result
        (IsFound (is_reply caller.now number) (IsRepeat request.now)) }
{
    let rows = rows_of(conn, caller, number)?;
    match rows.first() {
        None => Ok(None),
        Some(row) => Ok(Some(repeat(row, request)?)),
    }
}
