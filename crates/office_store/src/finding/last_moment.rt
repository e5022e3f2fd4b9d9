//! Queries for the latest timestamp of all records, in seconds since 1970-01-01 UTC. Each query
//! scans a complete table, because no table has an index on timestamps.
ghost use Rattle.std.specs.Prelude.{◌≡◌, false, max};
ghost use Rattle.office_books.specs.Facts.{latest_in};
ghost use Rattle.office_store.specs.Finding.Finding.{Finds};
ghost use Rattle.office_store.specs.Finding.Latest.{latest_entered, latest_voided, latest_held};
ghost use Rattle.office_store.specs.Finding.Latest.{latest_started, latest_ended, latest_replied};
ghost use Rattle.office_store.specs.Finding.Latest.{latest_asked, HasReadableMoments};

use sqlite::{Alter, Connection};
use store_tables::{
    RowFault, check_open, latest_entry, latest_hold, latest_outcome, latest_reply, latest_start,
    latest_void,
};

/// Returns the latest timestamp in the table `entries`, or 0 if the table is empty. The table also
/// has each meter's first entry, its opening.
fn entered<S: Alter>(conn: &mut Connection<S>) -> Result<u64, RowFault>
    requires { conn.old.in_transaction ≡ false }
    ensures { Finds S.Store conn.old conn.new result
        (λ facts n. n ≡ latest_entered facts) HasReadableMoments }
{
    check_open(conn)?;
    Ok(latest_entry(conn)?.unwrap_or(0))
}

/// Returns the latest time at which a meter entry was voided (cancelled), or 0 if no entry was
/// voided.
fn voided<S: Alter>(conn: &mut Connection<S>) -> Result<u64, RowFault>
    requires { conn.old.in_transaction ≡ false }
    ensures { Finds S.Store conn.old conn.new result
        (λ facts n. n ≡ latest_voided facts) HasReadableMoments }
{
    check_open(conn)?;
    Ok(latest_void(conn)?.unwrap_or(0))
}

/// Returns the latest timestamp of all rejected readings, or 0 if no reading was rejected.
fn held<S: Alter>(conn: &mut Connection<S>) -> Result<u64, RowFault>
    requires { conn.old.in_transaction ≡ false }
    ensures { Finds S.Store conn.old conn.new result
        (λ facts n. n ≡ latest_held facts) HasReadableMoments }
{
    check_open(conn)?;
    Ok(latest_hold(conn)?.unwrap_or(0))
}

/// Returns the latest time at which a poll started, or 0 if no poll is stored.
fn started<S: Alter>(conn: &mut Connection<S>) -> Result<u64, RowFault>
    requires { conn.old.in_transaction ≡ false }
    ensures { Finds S.Store conn.old conn.new result
        (λ facts n. n ≡ latest_started facts) HasReadableMoments }
{
    check_open(conn)?;
    Ok(latest_start(conn)?.unwrap_or(0))
}

/// Returns the latest time at which a poll ended, or 0 if no outcome is stored.
fn ended<S: Alter>(conn: &mut Connection<S>) -> Result<u64, RowFault>
    requires { conn.old.in_transaction ≡ false }
    ensures { Finds S.Store conn.old conn.new result
        (λ facts n. n ≡ latest_ended facts) HasReadableMoments }
{
    check_open(conn)?;
    Ok(latest_outcome(conn)?.unwrap_or(0))
}

/// Returns the latest timestamp of all stored requests (kept to detect retries), or 0 if no request
/// is stored.
fn replied<S: Alter>(conn: &mut Connection<S>) -> Result<u64, RowFault>
    requires { conn.old.in_transaction ≡ false }
    ensures { Finds S.Store conn.old conn.new result
        (λ facts n. n ≡ latest_replied facts) HasReadableMoments }
{
    check_open(conn)?;
    Ok(latest_reply(conn)?.unwrap_or(0))
}

/// Returns the latest timestamp of all meter entries and of the records that void (cancel) entries,
/// or 0 if none is stored.
fn booked<S: Alter>(conn: &mut Connection<S>) -> Result<u64, RowFault>
    requires { conn.old.in_transaction ≡ false }
    ensures { Finds S.Store conn.old conn.new result
        (λ facts n. n ≡ max (latest_entered facts) (latest_voided facts)) HasReadableMoments }
{
    let entered = entered(conn)?;
    let voided = voided(conn)?;
    Ok(entered.max(voided))
}

/// Returns the latest timestamp of all starts and outcomes of polls, or 0 if no poll is stored.
fn polled<S: Alter>(conn: &mut Connection<S>) -> Result<u64, RowFault>
    requires { conn.old.in_transaction ≡ false }
    ensures { Finds S.Store conn.old conn.new result
        (λ facts n. n ≡ max (latest_started facts) (latest_ended facts)) HasReadableMoments }
{
    let started = started(conn)?;
    let ended = ended(conn)?;
    Ok(started.max(ended))
}

/// Returns the latest timestamp of all rejected readings and stored requests (kept to detect
/// retries), or 0 if none is stored.
fn noted<S: Alter>(conn: &mut Connection<S>) -> Result<u64, RowFault>
    requires { conn.old.in_transaction ≡ false }
    ensures { Finds S.Store conn.old conn.new result
        (λ facts n. n ≡ max (latest_held facts) (latest_replied facts)) HasReadableMoments }
{
    let held = held(conn)?;
    let replied = replied(conn)?;
    Ok(held.max(replied))
}

/// Returns the latest timestamp of all polls, outcomes, rejected readings and stored requests (kept
/// to detect retries), or 0 if none is stored.
fn asked<S: Alter>(conn: &mut Connection<S>) -> Result<u64, RowFault>
    requires { conn.old.in_transaction ≡ false }
    ensures { Finds S.Store conn.old conn.new result
        (λ facts n. n ≡ latest_asked facts) HasReadableMoments }
{
    let polled = polled(conn)?;
    let noted = noted(conn)?;
    Ok(polled.max(noted))
}

/// Returns the latest timestamp of all records, or 0 if no record is stored.
pub fn latest<S: Alter>(conn: &mut Connection<S>) -> Result<u64, RowFault>
    requires { conn.old.in_transaction ≡ false }
    ensures { Finds S.Store conn.old conn.new result
        (λ facts n. n ≡ latest_in facts) HasReadableMoments }
{
    let booked = booked(conn)?;
    let asked = asked(conn)?;
    Ok(booked.max(asked))
}
