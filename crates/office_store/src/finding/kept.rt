//! Queries for stored requests. The store keeps each accepted request, so that a retry has no
//! second effect.
ghost use Rattle.std.specs.Prelude.{◌≡◌, false, IsUtf8};
ghost use Rattle.office_books.specs.Repeats.{repeat_of};
ghost use Rattle.store_tables.specs.Polls.Rows.{IsCallNumber};
ghost use Rattle.office_store.specs.Finding.Finding.{Finds, OfLawful};
ghost use Rattle.office_store.specs.Finding.Reading.{repeat_from};
ghost use Rattle.office_store.specs.Finding.Showing.{FindsRepeat};
ghost use Rattle.office_store.specs.Finding.Sound.{HasReadableReplies};

use crate::text;
use office_books::Repeat;
use office_events::{MAX_REQUEST, Name};
use sqlite::{Alter, Connection};
use store_tables::{RowFault, check_open};

fn convert_repeat(repeat: store_tables::Repeat) -> Repeat
    ensures { result ≡ repeat_from repeat }
{
    match repeat {
        store_tables::Repeat::Same(kind) => Repeat::Same(kind),
        store_tables::Repeat::Other => Repeat::Other,
    }
}

/// Compares a request with the request that the table `replies` stores under its idempotency key
/// (`caller` and `number`).
fn row_of<S: Alter>(
    conn: &mut Connection<S>,
    caller: &str,
    number: u64,
    request: &[u8],
) -> Result<Option<store_tables::Repeat>, RowFault>
    requires idle { conn.old.in_transaction ≡ false }
    requires number { IsCallNumber number }
    ensures { Finds S.Store conn.old conn.new result
        (OfLawful (FindsRepeat caller.now number request.now)) HasReadableReplies }
{
    check_open(conn)?;
    store_tables::repeat_of(conn, caller, number, request)
}

/// Compares a request with the request that is stored under its idempotency key, to detect a retry.
/// Returns None if no request is stored under the key.
pub fn repeat<S: Alter>(
    conn: &mut Connection<S>,
    caller: &Name,
    number: u64,
    request: &[u8],
) -> Result<Option<Repeat>, RowFault>
    requires { conn.old.in_transaction ≡ false }
    ensures { Finds S.Store conn.old conn.new result
        (λ facts kept. kept ≡ repeat_of facts caller.now number request.now)
        (λ facts. IsUtf8 caller.now × HasReadableReplies facts) }
{
    if MAX_REQUEST < number {
        check_open(conn)?;
        return Ok(None);
    }
    let caller = text(caller)?;
    match row_of(conn, caller, number, request)? {
        None => Ok(None),
        Some(kept) => Ok(Some(convert_repeat(kept))),
    }
}
