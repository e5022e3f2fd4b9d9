//! Executes the query or command of a request, and writes the response.
ghost use Rattle.std.specs.Prelude.{◌≡◌};
ghost use Rattle.office_http.specs.Messages.Routing.Routes.{routes};
ghost use Rattle.office_http.specs.Wants.Wanting.{IsAskedFor, IsQuestion, Wants, HasFewFaults};
ghost use Rattle.office_http.specs.Answering as answering;
ghost use Rattle.office_http.specs.Serving.{AreDaysAsked, AreIntervalsAsked, IsPollAsked, PutsReply};

use crate::messages::{
    Found, ResponseWriter, Route, append_fault, append_meter, append_poll, append_refusal,
    kind_answered, name_asked, number_asked, write_command_fault, write_done,
};
use crate::rows::{Replied, RowLines};
use crate::wants::Want;
use mb_wire::Link;
use meter_journal::{interval_rows_are_accounts, rows_lie_within, voids_go_no_further};
use office_books::{Books, facts_are_lawful};
use office_core::Office;
use office_events::{Answer, Asked, CommandKind, Event, Name, Refusal, StoreCause};

// Converts the program's answer to a command into the command's kind. The answer `Noted` (to an
// event without a command) belongs to no command, so this function reports it as a damaged store.
fn command_result(answer: Result<Answer, Refusal>) -> Result<CommandKind, Refusal>
    ensures { result ≡ answering.reported answer }
{
    match kind_answered(answer?) {
        Some(kind) => Ok(kind),
        None => Err(Refusal::Store(StoreCause::Damaged)),
    }
}

// Executes a command, and writes the response to the client's connection.
fn write_asked<'l, L: Link, B: Books>(
    bytes: &[u8],
    asked: Asked,
    office: &mut Office<B>,
    moment: u64,
    mut writer: ResponseWriter<'l, L>,
) -> Replied<'l, L>
    requires { IsAskedFor routes bytes.now asked }
    ensures { PutsReply B.ledger moment bytes.now office.old office.new
        writer.entry result.writer result.cut }
{
    let answer = office.feed(moment, &Event::Asked(asked));
    write_done(command_result(answer), &mut writer);
    Replied { writer, cut: None }
}

// Queries the poll with the given number from the store, and writes the response to the client's
// connection.
fn write_poll_asked<'l, L: Link, B: Books>(
    bytes: &[u8],
    number: Option<u64>,
    office: &mut Office<B>,
    moment: u64,
    mut writer: ResponseWriter<'l, L>,
) -> Replied<'l, L>
    requires { IsPollAsked bytes.now number }
    ensures { PutsReply B.ledger moment bytes.now office.old office.new
        writer.entry result.writer result.cut }
{
    match number {
        None => {
            append_refusal(Refusal::NotFound, &mut writer);
            Replied { writer, cut: None }
        }
        Some(number) => {
            let answer = office.poll(number);
            append_poll(&answer, &mut writer);
            Replied { writer, cut: None }
        }
    }
}

// Queries the energy of a meter by quarter hours, and writes the rows to the response one after
// another.
fn write_intervals<'l, L: Link, B: Books>(
    bytes: &[u8],
    meter: &Option<Name>,
    office: &mut Office<B>,
    moment: u64,
    writer: ResponseWriter<'l, L>,
) -> Replied<'l, L>
    requires { AreIntervalsAsked bytes.now meter.now }
    ensures { PutsReply B.ledger moment bytes.now office.old office.new
        writer.entry result.writer result.cut }
{
    facts_are_lawful();
    interval_rows_are_accounts();
    rows_lie_within();
    voids_go_no_further();
    let mut lines = RowLines::new(writer);
    let answer = office.intervals(meter, &mut lines);
    lines.finish_report(answer)
}

// Queries the daily energy of an accounting register (a named energy counter), and writes one line
// for each day to the response.
fn write_days<'l, L: Link, B: Books>(
    bytes: &[u8],
    register: &Option<Name>,
    office: &mut Office<B>,
    moment: u64,
    writer: ResponseWriter<'l, L>,
) -> Replied<'l, L>
    requires { AreDaysAsked bytes.now register.now }
    ensures { PutsReply B.ledger moment bytes.now office.old office.new
        writer.entry result.writer result.cut }
{
    let mut lines = RowLines::new(writer);
    let answer = office.days(register, &mut lines);
    lines.finish_report(answer)
}

fn write_question<'l, L: Link, B: Books>(
    bytes: &[u8],
    found: &Found<'_>,
    office: &mut Office<B>,
    moment: u64,
    mut writer: ResponseWriter<'l, L>,
) -> Replied<'l, L>
    requires { IsQuestion routes bytes.now found.now }
    ensures { PutsReply B.ledger moment bytes.now office.old office.new
        writer.entry result.writer result.cut }
{
    match found.route {
        Route::Meter => {
            let answer = office.meter(&name_asked(found.name));
            append_meter(&answer, &mut writer);
            Replied { writer, cut: None }
        }
        Route::Poll => write_poll_asked(bytes, number_asked(found.name), office, moment, writer),
        Route::Intervals => write_intervals(bytes, &name_asked(found.name), office, moment, writer),
        Route::Days => write_days(bytes, &name_asked(found.name), office, moment, writer),
        Route::Devices
        | Route::List
        | Route::Registers
        | Route::Install
        | Route::Exchange
        | Route::Reset
        | Route::Rescale
        | Route::Manual
        | Route::Close
        | Route::Void => unreachable!(),
    }
}

/// Executes the query or command of a request, and writes the response.
pub fn append_reply<'l, L: Link, B: Books>(
    bytes: &[u8],
    want: Want<'_>,
    office: &mut Office<B>,
    moment: u64,
    mut writer: ResponseWriter<'l, L>,
) -> Replied<'l, L>
    requires wants { Wants routes bytes.now want }
    requires few { HasFewFaults want }
    ensures { PutsReply B.ledger moment bytes.now office.old office.new
        writer.entry result.writer result.cut }
{
    match want {
        Want::Rejected(status) => {
            append_fault(status, &mut writer);
            Replied { writer, cut: None }
        }
        Want::Refused(why) => {
            write_command_fault(&why, &mut writer);
            Replied { writer, cut: None }
        }
        Want::Answer(found) => write_question(bytes, &found, office, moment, writer),
        Want::Command(asked) => write_asked(bytes, asked, office, moment, writer),
    }
}
