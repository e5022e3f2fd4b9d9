//! Audits polls and their outcomes, and all tables of a file.
ghost use Rattle.std.specs.Prelude.{◌≡◌, ◌≤◌, ◌<◌, ◌^◌, [], false, length, IfOk, IfErr, OnOk};
ghost use Rattle.store_tables.specs.Limits.{greatest_place};
ghost use Rattle.store_tables.specs.Failing.{want_of_memory};
ghost use Rattle.table_audit.specs.Looking.{Finds};
ghost use Rattle.table_audit.specs.Named.{IsReported};
ghost use Rattle.table_audit.specs.PollDifferences.{differences_of_run};
ghost use Rattle.table_audit.specs.Polls as said;

use crate::differences::{Difference, MOST, PollFault};
use crate::findings::{Finding, Findings};
use crate::meters::audit_meters;
use crate::names::audit_names;
use crate::poll_differences::{latest_start, run_differences};
use crate::poll_queries::{last_poll, run_rows};
use crate::poll_rows::{RUN, RunRows};
use sqlite::{Alter, Connection, Error, ErrorCode};
use std::alloc::{AllocError, Global};
use store_tables::{GREATEST_PLACE, RowFault, first_whole};

/// Reports the discrepancies in the rows of a run of polls (`RUN` consecutive numbers). `since` is
/// the latest start of the polls of earlier runs. Returns whether the audit continues with the next
/// run.
fn audit_rows_of(
    alloc: Global,
    run: u64,
    last: u64,
    since: u64,
    rows: &RunRows,
    findings: &mut Findings,
) -> Result<bool, AllocError>
    requires run { run < 2 ^ 50 }
    requires last { last ≤ greatest_place }
    requires few { length findings.old.first.items ≤ MOST }
    ensures reported { OnOk result
        (IsReported (differences_of_run run last since rows.now) findings.old findings.new) }
    ensures stops { IfOk result (λ goes_on. goes_on ≡ false → said.Stops rows.now findings.new) }
    ensures few { OnOk result (length findings.new.first.items ≤ MOST) }
{
    let found = run_differences(alloc, run, last, since, rows)?;
    findings.append_all(found.as_slice())?;
    Ok(rows.polls.len() > 0 || findings.first.len() < MOST)
}

/// Queries a run of polls (`RUN` consecutive numbers) and reports its discrepancies. `since` is the
/// latest start of the polls of earlier runs, and afterwards also of this run. Returns whether the
/// audit continues with the next run.
fn audit_run<S: Alter>(
    alloc: Global,
    conn: &mut Connection<S>,
    run: u64,
    last: u64,
    since: &mut u64,
    findings: &mut Findings,
) -> Result<bool, RowFault>
    requires mode { conn.old.in_transaction ≡ false }
    requires run { run < 2 ^ 50 }
    requires last { last ≤ greatest_place }
    requires few { length findings.old.first.items ≤ MOST }
    ensures finds { Finds S.Store conn.old conn.new result
        (said.ReportsRun run last since.old since.new findings.old findings.new) }
    ensures few { OnOk result (length findings.new.first.items ≤ MOST) }
{
    let rows = run_rows(conn, run)?;
    let before = *since;
    *since = latest_start(before, &rows.polls);
    match audit_rows_of(alloc, run, last, before, &rows, findings) {
        Ok(goes_on) => Ok(goes_on),
        Err(_) => Err(RowFault::Sql(Error::SqliteFailure(ErrorCode::OutOfMemory))),
    }
}

/// Reports the discrepancies of all polls, in runs of `RUN` consecutive poll numbers. After `MOST`
/// discrepancies are stored, the audit ends at the first run without polls. This bounds the time
/// for a damaged file with a very large poll number.
fn audit_runs<S: Alter>(
    alloc: Global,
    conn: &mut Connection<S>,
    last: u64,
    findings: &mut Findings,
) -> Result<(), RowFault>
    requires mode { conn.old.in_transaction ≡ false }
    requires last { last ≤ greatest_place }
    requires few { length findings.old.first.items ≤ MOST }
    ensures finds { Finds S.Store conn.old conn.new result
        (λ content _. said.ReportsRuns last findings.old findings.new content) }
    ensures few { OnOk result (length findings.new.first.items ≤ MOST) }
{
    let runs = last.div_ceil(RUN);
    let mut since = 0;
    for run in 0..runs {
        let goes_on = audit_run(alloc, conn, run, last, &mut since, findings)?;
        if !goes_on {
            return Ok(());
        }
    }
    Ok(())
}

/// Reports the discrepancies of all polls in the tables.
fn audit_polls<S: Alter>(
    alloc: Global,
    conn: &mut Connection<S>,
    findings: &mut Findings,
) -> Result<(), RowFault>
    requires mode { conn.old.in_transaction ≡ false }
    requires few { length findings.old.first.items ≤ MOST }
    ensures finds { Finds S.Store conn.old conn.new result
        (λ content _. said.ReportsPolls findings.old findings.new content) }
    ensures few { OnOk result (length findings.new.first.items ≤ MOST) }
{
    let rows = last_poll(conn)?;
    let Ok(found) = first_whole(&rows, 1, GREATEST_PLACE) else {
        return append_last(findings);
    };
    let last = found.unwrap_or(0);
    findings.count_polls(last);
    audit_runs(alloc, conn, last, findings)
}

/// Reports that the greatest poll number in the tables is out of its range.
fn append_last(findings: &mut Findings) -> Result<(), RowFault>
    requires few { length findings.old.first.items ≤ MOST }
    ensures reported { OnOk result (findings.new.first.items ≡ [] → ⊥) }
    ensures few { OnOk result (length findings.new.first.items ≤ MOST) }
    ensures fault { IfErr result (λ fault. fault ≡ RowFault.Sql want_of_memory) }
{
    let difference = Difference::Poll {
        poll: 0,
        fault: PollFault::OutOfRange,
    };
    let finding = Finding {
        meter: None,
        difference,
    };
    match findings.push(finding) {
        Ok(()) => Ok(()),
        Err(_) => Err(RowFault::Sql(Error::SqliteFailure(ErrorCode::OutOfMemory))),
    }
}

/// Audits all tables. Each meter must have the rows of a history that the rules accept, and the
/// meters of a register must follow each other. Devices, points, registers and meters must have
/// valid names, and all other values of devices and registers must be in their ranges. No poll may
/// be missing, start before an earlier poll, or end before its start. Returns the discrepancies,
/// and how many rows were read. Memory holds all rows of `installations`, all devices, all names,
/// and the rows of one meter or of `RUN` polls at a time.
pub fn audit_tables<S: Alter>(alloc: Global, conn: &mut Connection<S>) -> Result<Findings, RowFault>
    requires mode { conn.old.in_transaction ≡ false }
    ensures finds { Finds S.Store conn.old conn.new result said.ReportsTables }
    ensures few { IfOk result (λ findings. length findings.first.items ≤ MOST) }
{
    let mut findings = audit_meters(alloc, conn)?;
    audit_names(alloc, conn, &mut findings)?;
    audit_polls(alloc, conn, &mut findings)?;
    Ok(findings)
}
