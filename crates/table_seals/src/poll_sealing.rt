//! Computes the seal (a digest) of the polls in a file's tables, and compares the polls with an
//! earlier seal.
ghost use Rattle.std.specs.Prelude.{◌≡◌, ◌↔◌, ◌<◌, ◌≤◌, ◌+◌, ◌^◌, false, IfOk, IfErr, IfSome};
ghost use Rattle.sha2.specs.Hashers.{Holds256};
ghost use Rattle.store_tables.specs.Failing.{want_of_memory};
ghost use Rattle.store_tables.specs.Limits.{greatest_place};
ghost use Rattle.table_audit.specs.Looking.{Finds};
ghost use Rattle.table_seals.specs.PollSealing as said;
ghost use Rattle.table_seals.specs.Sealed.{sealed_polls_of};

use crate::poll_texts::write_rows;
use crate::sealing::memory;
use crate::seals::PollSeal;
use sha2::{Digest, Sha256};
use sqlite::{Alter, Connection};
use std::alloc::{AllocError, Global};
use store_tables::{GREATEST_PLACE, RowFault, first_whole};
use table_audit::{RUN, RunRows, last_poll, run_rows};

/// Adds to a SHA-256 hasher the text that a run of `RUN` polls had when they were sealed
/// (digested). Appends the numbers of the polls that are pending now to a list. Returns the next
/// poll number. Returns None if a row can't be parsed, a poll number is missing, or an outcome has
/// no poll.
fn add_run(
    alloc: Global,
    hasher: &mut Sha256,
    pending: &mut Vec<u64>,
    last: u64,
    hidden: &[u64],
    first: u64,
    rows: &RunRows,
) -> Result<Option<u64>, AllocError>
    requires { first ≤ greatest_place + 1 }
    ensures adds { IfOk result (said.AddsRun last hidden.now first rows.now
        hasher.old hasher.new pending.old.items pending.new.items) }
    ensures bound { IfOk result (λ found.
        IfSome found (λ next. (first ≤ next) × (next ≤ greatest_place + 1))) }
{
    let mut text = Vec::new(alloc);
    let found = write_rows(
        &mut text,
        pending,
        last,
        hidden,
        first,
        &rows.polls,
        &rows.outcomes,
    )?;
    hasher.update(text.as_slice());
    Ok(found)
}

/// Queries the polls of the run (`RUN` consecutive numbers) with the index `run`. Adds to a SHA-256
/// hasher the text that these polls had when they were sealed.
fn look_run<S: Alter>(
    alloc: Global,
    conn: &mut Connection<S>,
    run: u64,
    hasher: &mut Sha256,
    pending: &mut Vec<u64>,
    last: u64,
    hidden: &[u64],
    first: u64,
) -> Result<Option<u64>, RowFault>
    requires mode { conn.old.in_transaction ≡ false }
    requires run { run < 2 ^ 50 }
    requires first { first ≤ greatest_place + 1 }
    ensures finds { Finds S.Store conn.old conn.new result (said.LooksAtRun run last hidden.now
        first hasher.old hasher.new pending.old.items pending.new.items) }
    ensures bound { IfOk result (λ found.
        IfSome found (λ next. (first ≤ next) × (next ≤ greatest_place + 1))) }
{
    let rows = run_rows(conn, run)?;
    match add_run(alloc, hasher, pending, last, hidden, first, &rows) {
        Ok(found) => Ok(found),
        Err(_) => Err(memory()),
    }
}

/// Digests all polls, one run of `RUN` consecutive numbers at a time. Returns the number of polls,
/// the SHA-256 digest of the text that listed the polls and their outcomes at sealing time, and the
/// numbers of the polls pending now. Returns None if a row can't be parsed, a poll number is
/// missing, or an outcome has no poll.
fn digest_runs<S: Alter>(
    alloc: Global,
    conn: &mut Connection<S>,
    greatest: u64,
    last: u64,
    hidden: &[u64],
) -> Result<Option<PollSeal>, RowFault>
    requires mode { conn.old.in_transaction ≡ false }
    requires greatest { greatest ≤ greatest_place }
    ensures finds { Finds S.Store conn.old conn.new result
        (said.DigestsRuns greatest last hidden.now) }
    ensures bound { IfOk result (λ found. IfSome found (λ seal. seal.count ≤ greatest_place)) }
{
    let mut hasher = Sha256::new();
    let mut pending = Vec::new(alloc);
    let mut next = 1u64;
    let runs = greatest.div_ceil(RUN);
    for run in 0..runs {
        let found = look_run(
            alloc,
            conn,
            run,
            &mut hasher,
            &mut pending,
            last,
            hidden,
            next,
        )?;
        match found {
            Some(number) => next = number,
            None => return Ok(None),
        }
    }
    Ok(Some(PollSeal {
        count: next - 1,
        digest: hasher.finalize(),
        pending,
    }))
}

/// Queries the greatest poll number, and digests all polls in the tables with `digest_runs`.
fn digest_polls<S: Alter>(
    alloc: Global,
    conn: &mut Connection<S>,
    last: u64,
    hidden: &[u64],
) -> Result<Option<PollSeal>, RowFault>
    requires { conn.old.in_transaction ≡ false }
    ensures finds { Finds S.Store conn.old conn.new result (said.DigestsPolls last hidden.now) }
    ensures bound { IfOk result (λ found. IfSome found (λ seal. seal.count ≤ greatest_place)) }
{
    let rows = last_poll(conn)?;
    match first_whole(&rows, 1, GREATEST_PLACE) {
        Ok(found) => digest_runs(alloc, conn, found.unwrap_or(0), last, hidden),
        Err(_) => Ok(None),
    }
}

/// Computes the seal of all polls in the tables: their number, their digest, and the numbers of the
/// pending polls. Returns None if a row can't be parsed, a poll number is missing, or an outcome
/// has no poll.
pub(crate) fn seal_polls<S: Alter>(
    alloc: Global,
    conn: &mut Connection<S>,
) -> Result<Option<PollSeal>, RowFault>
    requires { conn.old.in_transaction ≡ false }
    ensures { Finds S.Store conn.old conn.new result said.SealsPolls }
{
    digest_polls(alloc, conn, GREATEST_PLACE, &[])
}

/// Returns whether the polls, digested as `found`, differ from a seal (an earlier digest). If the
/// polls can't be parsed from their rows, `found` is None, which counts as a difference.
fn differ(found: &Option<PollSeal>, seal: &PollSeal) -> bool
    ensures { (result ≡ false) ↔ said.AreAsSealed found.now (sealed_polls_of seal.now) }
{
    match found {
        Some(found) => {
            found.count < seal.count || found.digest.as_slice() != seal.digest.as_slice()
        }
        None => true,
    }
}

/// Returns whether the polls in the tables differ from a seal (digests of earlier records). Polls
/// that were added later, and outcomes of polls that were pending, don't count as differences.
/// Memory holds one run of `RUN` polls at a time.
pub(crate) fn check_polls<S: Alter>(
    alloc: Global,
    conn: &mut Connection<S>,
    seal: &PollSeal,
) -> Result<bool, RowFault>
    requires { conn.old.in_transaction ≡ false }
    ensures { Finds S.Store conn.old conn.new result
        (said.ReportsPolls (sealed_polls_of seal.now)) }
{
    let found = digest_polls(alloc, conn, seal.count, seal.pending.as_slice())?;
    Ok(differ(&found, seal))
}
