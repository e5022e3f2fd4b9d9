//! Formats the status line and headers of HTTP responses.
ghost use Rattle.std.specs.Prelude.{◌++◌, decimal};
ghost use Rattle.office_http.specs.Messages.Sending.Sending.{Puts};
ghost use Rattle.office_http.specs.Messages.Sending.Replies.{json_reply, status_line, text_head};

use crate::messages::Status;
use crate::messages::sending::writer::ResponseWriter;
use itoa::Buffer;
use mb_wire::Link;

fn write_number<L: Link>(number: u64, writer: &mut ResponseWriter<'_, L>)
    ensures { Puts writer.old writer.new (decimal number) }
{
    let mut buffer = Buffer::new();
    writer.write_bytes(buffer.format(number).as_bytes());
}

fn write_status<L: Link>(status: Status, writer: &mut ResponseWriter<'_, L>)
    ensures { Puts writer.old writer.new (status_line status) }
{
    writer.write_bytes(b"HTTP/1.1 ");
    write_number(u64::from(status.number()), writer);
    writer.write_bytes(b" ");
    writer.write_bytes(status.reason());
    writer.write_bytes(b"\r\n");
}

/// Writes a response with a JSON body.
pub fn write_json<L: Link>(status: Status, body: &[u8], writer: &mut ResponseWriter<'_, L>)
    ensures { Puts writer.old writer.new (json_reply status body.now) }
{
    write_status(status, writer);
    writer.write_bytes(b"Content-Type: application/json\r\nContent-Length: ");
    write_number(body.len() as u64, writer);
    writer.write_bytes(b"\r\nConnection: close\r\n\r\n");
    writer.write_bytes(body);
}

/// Writes the head of a plain-text response. The caller then writes the lines of the text with
/// [`ResponseWriter::write_bytes`].
pub fn write_text_head<L: Link>(writer: &mut ResponseWriter<'_, L>)
    ensures { Puts writer.old writer.new text_head }
{
    write_status(Status::Fine, writer);
    writer.write_bytes(b"Content-Type: text/plain\r\nConnection: close\r\n\r\n");
}
