//! Writes HTTP responses. No function in this module allocates.
ghost use Rattle.std.specs.Prelude.{Err};
ghost use Rattle.office_http.specs.Messages.Commands.Few.{HasFewRows};
ghost use Rattle.office_http.specs.Messages.Sending.Sending.{Puts};
ghost use Rattle.office_http.specs.Messages.Replies.{fault, fault_said, refused, reply_bytes, row_reply};
ghost use Rattle.office_http.specs.Messages.Kinds.{done_text};
ghost use Rattle.office_http.specs.Messages.Rows.{meter_text, poll_text};

use crate::messages::Status;
use crate::messages::commands::CommandFault;
use crate::messages::faults::faults_body;
use crate::messages::kinds::done_body;
use crate::messages::rows::{meter_body, poll_body};
use crate::messages::sending::{ResponseWriter, fault_body, refused_body, write_json};
use crate::messages::statuses::status_of;
use mb_wire::Link;
use office_events::{CommandKind, Installation, PollRow, Refusal};

/// Writes the error response to a request that fails a test before it is executed.
pub fn append_fault<L: Link>(status: Status, writer: &mut ResponseWriter<'_, L>)
    ensures { Puts writer.old writer.new (reply_bytes (fault status)) }
{
    let body = fault_body(status);
    write_json(status, body.bytes(), writer);
}

/// Writes the response that reports why the program refused a request.
pub fn append_refusal<L: Link>(refusal: Refusal, writer: &mut ResponseWriter<'_, L>)
    ensures { Puts writer.old writer.new (reply_bytes (refused refusal)) }
{
    let body = refused_body(refusal.number());
    write_json(status_of(refusal), body.bytes(), writer);
}

/// Writes the response to a command: the kind of the executed command, or the reason why the
/// program refused the command.
pub fn write_done<L: Link>(answer: Result<CommandKind, Refusal>, writer: &mut ResponseWriter<'_, L>)
    ensures { Puts writer.old writer.new (reply_bytes (row_reply done_text answer)) }
{
    match answer {
        Ok(kind) => write_json(Status::Fine, done_body(kind), writer),
        Err(refusal) => append_refusal(refusal, writer),
    }
}

/// Writes the response to a request whose body contains no valid command. `Malformed` gets status
/// 400. `Negative` (a negative number) and `Faulty` (a faulty point list) get 422, and `Memory`
/// gets 503.
pub fn write_command_fault<L: Link>(fault: &CommandFault, writer: &mut ResponseWriter<'_, L>)
    requires { HasFewRows (Err fault.now) }
    ensures { Puts writer.old writer.new (reply_bytes (fault_said fault.now)) }
{
    match fault {
        CommandFault::Malformed => append_fault(Status::BadRequest, writer),
        CommandFault::Negative => append_refusal(Refusal::Limit, writer),
        CommandFault::Faulty(rows) => {
            let body = faults_body(rows.rows());
            write_json(Status::Unprocessable, body.bytes(), writer);
        }
        CommandFault::Memory => append_refusal(Refusal::Memory, writer),
    }
}

/// Writes the response to the query for a meter: the meter as JSON, or an error response if the
/// program refused the query.
pub fn append_meter<L: Link>(
    answer: &Result<Installation, Refusal>,
    writer: &mut ResponseWriter<'_, L>,
)
    ensures { Puts writer.old writer.new (reply_bytes (row_reply meter_text answer.now)) }
{
    match answer {
        Ok(row) => {
            let body = meter_body(row);
            write_json(Status::Fine, body.bytes(), writer);
        }
        Err(refusal) => append_refusal(*refusal, writer),
    }
}

/// Writes the response to the query for a poll: the poll as JSON, or an error response if the
/// program refused the query.
pub fn append_poll<L: Link>(answer: &Result<PollRow, Refusal>, writer: &mut ResponseWriter<'_, L>)
    ensures { Puts writer.old writer.new (reply_bytes (row_reply poll_text answer.now)) }
{
    match answer {
        Ok(row) => {
            let body = poll_body(row);
            write_json(Status::Fine, body.bytes(), writer);
        }
        Err(refusal) => append_refusal(*refusal, writer),
    }
}
