//! The response to a query for all meters of an accounting register (a named energy counter),
//! present and earlier.
ghost use Rattle.std.specs.Prelude.{◌≡◌, OnOk};
ghost use Rattle.office_core.specs.Parts.{meters_named};
ghost use Rattle.run_http.specs.MeterReplies.{RepliesRows, with_rows_reply};
ghost use Rattle.run_http.specs.Texts.RegisterLines.{meters_text};

use crate::route::append_reply;
use crate::site::append_refusal;
use crate::texts::write_register_meters;
use office_books::Books;
use office_core::Office;
use office_events::{Installation, Name, Refusal};
use office_http::messages::Status;
use std::alloc::{AllocError, Global};

// Appends the response with the past and present meters of an accounting register (a named energy
// counter), or an error response if the program refused the query.
fn write_reported_meters(
    alloc: Global,
    text: &mut Vec<u8>,
    answer: &Result<Vec<Installation>, Refusal>,
) -> Result<(), AllocError>
    ensures { OnOk result (text.new.items
        ≡ with_rows_reply meters_text answer.now text.old.items) }
{
    match answer {
        Ok(meters) => {
            let mut body = Vec::new(alloc);
            write_register_meters(&mut body, meters)?;
            append_reply(text, Status::Fine, b"text/plain", &body)
        }
        Err(why) => append_refusal(text, *why),
    }
}

/// Queries all meters of an accounting register (a named energy counter), open and closed, in the
/// order of their installation, and appends the response. If memory runs out, only a part of the
/// response was appended.
pub fn reply_meters<B: Books>(
    alloc: Global,
    text: &mut Vec<u8>,
    office: &mut Office<B>,
    register: &Option<Name>,
) -> Result<(), AllocError>
    ensures { RepliesRows B.ledger office.old office.new
        (λ facts. meters_named facts register.now) meters_text
        text.old.items text.new.items result }
{
    let answer = office.meters(register);
    write_reported_meters(alloc, text, &answer)
}
