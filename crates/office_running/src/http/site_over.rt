//! The response of `/site`: the accounting registers (named energy counters), with meters of the
//! current and earlier database files.
ghost use Rattle.std.specs.Prelude.{◌≡◌, IfOk, OnOk, map};
ghost use Rattle.run_http.specs.SiteReply.{RepliesSite};
ghost use Rattle.office_running.specs.Http.SiteOver as site;

use carried_books::{EarlierRegister, earlier_meters, latest_meter};
use office_books::Books;
use office_core::{Office, SiteRow};
use office_events::{Installation, Refusal};
use run_http::{SiteLine, write_site_reply};
use std::alloc::{AllocError, Global};

// Returns the entry for an accounting register (a named energy counter) in the HTTP response of
// `/site`, with the register's latest meter in all database files. `earlier` has the register's
// meters in the earlier files.
fn line_after(earlier: &[Installation], row: &SiteRow) -> SiteLine
    ensures { result ≡ site.line_after earlier.now row.now }
{
    match latest_meter(earlier, &row.meter) {
        Some(reported) => SiteLine {
            row: SiteRow {
                register: row.register,
                meter: Some(reported.meter),
            },
            earlier: reported.earlier,
        },
        None => SiteLine {
            row: *row,
            earlier: None,
        },
    }
}

// Returns the entries for accounting registers (named energy counters) in the HTTP response of
// `/site`, each with the register's latest meter in all database files (earlier and current).
fn lines_over(
    alloc: Global,
    earlier: &[EarlierRegister],
    rows: &[SiteRow],
) -> Result<Vec<SiteLine>, AllocError>
    ensures { IfOk result (λ lines. lines.items ≡ map (site.line_over earlier.now) rows.now) }
{
    let mut lines = Vec::new(alloc);
    for row in rows {
        let meters = earlier_meters(earlier, &row.register.name);
        lines.push(line_after(meters, row))?;
    }
    Ok(lines)
}

// Returns the entries for all accounting registers (named energy counters) in the HTTP response of
// `/site`, or the refusal if the program refused the query.
fn current_part(
    alloc: Global,
    earlier: &[EarlierRegister],
    answer: &Result<Vec<SiteRow>, Refusal>,
) -> Result<Result<Vec<SiteLine>, Refusal>, AllocError>
    ensures { IfOk result (site.IsReported earlier.now answer.now) }
{
    match answer {
        Ok(rows) => {
            let lines = lines_over(alloc, earlier, rows)?;
            Ok(Ok(lines))
        }
        Err(why) => Ok(Err(*why)),
    }
}

// Writes the response of `/site` with the entries for the accounting registers (named energy
// counters), or an error response if the program refused the query.
fn append_answer(
    alloc: Global,
    text: &mut Vec<u8>,
    earlier: &[EarlierRegister],
    moment: u64,
    answer: &Result<Vec<SiteRow>, Refusal>,
) -> Result<(), AllocError>
    ensures { OnOk result (text.new.items
        ≡ site.with_site_over earlier.now moment answer.now text.old.items) }
{
    let reported = current_part(alloc, earlier, answer)?;
    write_site_reply(alloc, text, moment, &reported)
}

/// Appends the response of `/site`: each accounting register (a named energy counter) with its
/// latest meter in all database files (earlier and current). `moment` is in seconds since
/// 1970-01-01 UTC. If memory runs out, a part of the response is appended.
pub(crate) fn reply_site_over<B: Books>(
    alloc: Global,
    text: &mut Vec<u8>,
    office: &mut Office<B>,
    earlier: &[EarlierRegister],
    moment: u64,
) -> Result<(), AllocError>
    ensures { RepliesSite B.ledger office.old office.new (site.with_site_over earlier.now moment)
        text.old.items text.new.items result }
{
    let answer = office.site();
    append_answer(alloc, text, earlier, moment, &answer)
}
