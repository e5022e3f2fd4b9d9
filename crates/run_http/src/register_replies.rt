//! The response to a query for the energy of an accounting register (a named energy counter).
ghost use Rattle.std.specs.Prelude.{◌≡◌, IfOk, OnOk};
ghost use Rattle.run_http.specs.RegisterReplies.{AsksEnergy, PutsLast, RepliesEnergy};
ghost use Rattle.run_http.specs.RegisterReplies.{with_energy_reply};

use crate::route::append_reply;
use crate::site::append_refusal;
use energy_report::{ReportForm, ReportRows};
use office_books::Books;
use office_core::Office;
use office_events::{Name, Refusal};
use office_http::messages::Status;
use std::alloc::{AllocError, Global};
use std::io::Write;

// Writes the remaining lines of an energy report, unless the program refused the query. A failed
// write means that memory ran out.
fn add_rest<W: Write>(
    reported: Result<(), Refusal>,
    rows: &mut ReportRows<'_, W>,
) -> Result<Result<(), Refusal>, AllocError>
    ensures gives { IfOk result (λ left. left ≡ reported) }
    ensures output { rows.new.output.ghost_name ≡ rows.old.output.ghost_name }
    ensures last { OnOk reported (PutsLast W.contents result rows.old rows.new) }
{
    match reported {
        Ok(()) => {
            rows.finish();
            if rows.has_failed() {
                Err(AllocError)
            } else {
                Ok(Ok(()))
            }
        }
        Err(why) => Ok(Err(why)),
    }
}

// Queries the daily energy of an accounting register (a named energy counter), and writes the
// energy report to `output`.
fn write_energy<B: Books, W: Write>(
    office: &mut Office<B>,
    register: &Option<Name>,
    form: &ReportForm,
    output: &mut W,
) -> Result<Result<(), Refusal>, AllocError>
    ensures { AsksEnergy B.ledger office.old office.new register.now form.now
        (W.contents output.old) (W.contents output.new) result }
{
    let mut rows = ReportRows::to(*form, output);
    let reported = office.days_within(register, form.range, &mut rows);
    add_rest(reported, &mut rows)
}

/// Appends the response to a query for the energy of an accounting register (a named energy
/// counter): the report, or an error response if the program refused the query. If memory runs out,
/// only a part of the response was appended.
pub fn write_energy_reply(
    text: &mut Vec<u8>,
    answer: &Result<(), Refusal>,
    body: &[u8],
) -> Result<(), AllocError>
    ensures { OnOk result (text.new.items
        ≡ with_energy_reply answer.now body.now text.old.items) }
{
    match answer {
        Ok(()) => append_reply(text, Status::Fine, b"text/plain", body),
        Err(why) => append_refusal(text, *why),
    }
}

/// Queries the daily energy of an accounting register (a named energy counter), and appends the
/// response with the report.
///
/// If the requested range of days has a first and a last day, the store reads only quarter hours of
/// the range and two days on each side. If memory runs out, only a part of the response was
/// appended.
pub fn reply_energy<B: Books>(
    alloc: Global,
    text: &mut Vec<u8>,
    office: &mut Office<B>,
    register: &Option<Name>,
    form: &ReportForm,
) -> Result<(), AllocError>
    ensures { RepliesEnergy B.ledger office.old office.new register.now form.now
        text.old.items text.new.items result }
{
    let mut body = Vec::new(alloc);
    let answer = write_energy(office, register, form, &mut body)?;
    write_energy_reply(text, &answer, &body)
}
