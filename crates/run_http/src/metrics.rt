//! The response to a query for `/metrics`.
ghost use Rattle.std.specs.Prelude.{◌≡◌, OnOk};
ghost use Rattle.run_http.specs.MetricsReply.{with_metrics_reply};
ghost use Rattle.run_http.specs.SiteReply.{RepliesSite};

use crate::route::append_reply;
use crate::site::append_refusal;
use crate::status::{Counts, DeviceState};
use crate::texts::write_metrics;
use office_books::Books;
use office_core::{Office, SiteRow};
use office_events::Refusal;
use office_http::messages::Status;
use std::alloc::{AllocError, Global};

// Appends the response with the metrics, or an error response if the program refused the query.
fn append_answer(
    alloc: Global,
    text: &mut Vec<u8>,
    counts: &Counts,
    devices: &[DeviceState],
    answer: &Result<Vec<SiteRow>, Refusal>,
) -> Result<(), AllocError>
    ensures { OnOk result (text.new.items
        ≡ with_metrics_reply counts.now devices.now answer.now text.old.items) }
{
    match answer {
        Ok(rows) => {
            let mut body = Vec::new(alloc);
            write_metrics(&mut body, counts, devices, rows)?;
            append_reply(text, Status::Fine, b"text/plain; version=0.0.4", &body)
        }
        Err(why) => append_refusal(text, *why),
    }
}

/// Queries the open meters, and appends the response with their energy and the program's counts of
/// polls and readings. If memory runs out, only a part of the response was appended.
pub fn reply_metrics<B: Books>(
    alloc: Global,
    text: &mut Vec<u8>,
    office: &mut Office<B>,
    counts: &Counts,
    devices: &[DeviceState],
) -> Result<(), AllocError>
    ensures { RepliesSite B.ledger office.old office.new
        (with_metrics_reply counts.now devices.now) text.old.items text.new.items result }
{
    let answer = office.site();
    append_answer(alloc, text, counts, devices, &answer)
}
