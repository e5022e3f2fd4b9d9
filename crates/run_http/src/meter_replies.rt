//! The responses to queries for the quarter hours or the entries of a meter.
ghost use Rattle.std.specs.Prelude.{◌≡◌, OnOk};
ghost use Rattle.interval_core.specs.Lines.{intervals_text};
ghost use Rattle.office_core.specs.Parts.{entries_within, intervals_within};
ghost use Rattle.run_http.specs.MeterReplies.{AsksRows, RepliesRows, with_rows_reply};
ghost use Rattle.run_http.specs.Texts.MeterLines.{entries_text};

use crate::kept_rows::KeptRows;
use crate::route::append_reply;
use crate::site::append_refusal;
use crate::texts::{write_entries, write_shares};
use interval_core::Share;
use office_books::{Books, MeterEntry, Span};
use office_core::Office;
use office_events::{Name, Refusal};
use office_http::messages::Status;
use std::alloc::{AllocError, Global};

/// The maximum number of meter entries in one response.
pub const MOST_ENTRIES: u32 = 4096;

/// Queries the quarter hours of a meter from the store.
pub(crate) fn ask_intervals<B: Books>(
    alloc: Global,
    office: &mut Office<B>,
    meter: &Option<Name>,
    span: Span,
) -> Result<Result<Vec<Share>, Refusal>, AllocError>
    ensures { AsksRows B.ledger office.old office.new
        (λ facts. intervals_within facts meter.now span) result }
{
    let mut kept = KeptRows::new(alloc);
    let answer = office.intervals_within(meter, span, &mut kept);
    let rows = kept.into_rows()?;
    match answer {
        Ok(()) => Ok(Ok(rows)),
        Err(why) => Ok(Err(why)),
    }
}

// Appends the response with the quarter hours of a meter, or an error response if the program
// refused the query.
fn write_reported_intervals(
    alloc: Global,
    text: &mut Vec<u8>,
    answer: &Result<Vec<Share>, Refusal>,
) -> Result<(), AllocError>
    ensures { OnOk result (text.new.items
        ≡ with_rows_reply intervals_text answer.now text.old.items) }
{
    match answer {
        Ok(rows) => {
            let mut body = Vec::new(alloc);
            write_shares(&mut body, rows)?;
            append_reply(text, Status::Fine, b"text/plain", &body)
        }
        Err(why) => append_refusal(text, *why),
    }
}

/// Queries the quarter hours of a meter, and appends the response. If memory runs out, only a part
/// of the response was appended.
pub fn reply_intervals<B: Books>(
    alloc: Global,
    text: &mut Vec<u8>,
    office: &mut Office<B>,
    meter: &Option<Name>,
    span: Span,
) -> Result<(), AllocError>
    ensures { RepliesRows B.ledger office.old office.new
        (λ facts. intervals_within facts meter.now span) intervals_text
        text.old.items text.new.items result }
{
    let answer = ask_intervals(alloc, office, meter, span)?;
    write_reported_intervals(alloc, text, &answer)
}

// Appends the response with the entries of a meter, or an error response if the program refused the
// query.
fn write_reported_entries(
    alloc: Global,
    text: &mut Vec<u8>,
    answer: &Result<Vec<MeterEntry>, Refusal>,
) -> Result<(), AllocError>
    ensures { OnOk result (text.new.items
        ≡ with_rows_reply entries_text answer.now text.old.items) }
{
    match answer {
        Ok(entries) => {
            let mut body = Vec::new(alloc);
            write_entries(&mut body, entries)?;
            append_reply(text, Status::Fine, b"text/plain", &body)
        }
        Err(why) => append_refusal(text, *why),
    }
}

/// Queries at most 4,096 entries of a meter, beginning at a sequence number, and appends the
/// response. If memory runs out, only a part of the response was appended.
pub fn reply_entries<B: Books>(
    alloc: Global,
    text: &mut Vec<u8>,
    office: &mut Office<B>,
    meter: &Option<Name>,
    from: u64,
) -> Result<(), AllocError>
    ensures { RepliesRows B.ledger office.old office.new
        (λ facts. entries_within facts meter.now from MOST_ENTRIES) entries_text
        text.old.items text.new.items result }
{
    let answer = office.entries(meter, from, MOST_ENTRIES);
    write_reported_entries(alloc, text, &answer)
}
