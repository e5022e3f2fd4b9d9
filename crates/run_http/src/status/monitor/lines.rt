//! Formats the log lines that the program prints for operators.
ghost use Rattle.std.specs.Prelude.{◌≡◌, OnOk};
ghost use Rattle.run_http.specs.Status.Monitor.Lines as lines;

use crate::status::status::{append_bytes, write_number, write_word};
use office_events::{Answer, Event, Name, Note, Refusal};
use poll_core::Closing;
use std::alloc::AllocError;

/// Appends the beginning of a log line: a timestamp and a device's name, or `-` for a name that is
/// not valid. If memory runs out, only a part of the text was appended.
pub fn write_head(text: &mut Vec<u8>, at: u64, name: &Option<Name>) -> Result<(), AllocError>
    ensures { OnOk result (text.new.items ≡ lines.with_head at name.now text.old.items) }
{
    write_number(text, b"", at)?;
    match name {
        Some(name) => write_word(text, b" ", name.as_bytes()),
        None => append_bytes(text, b" -"),
    }
}

// Appends the log line of an event that begins or ends a connection. Other events have no line.
fn write_event(
    text: &mut Vec<u8>,
    at: u64,
    name: &Option<Name>,
    event: &Event,
) -> Result<(), AllocError>
    ensures { OnOk result (text.new.items
        ≡ lines.with_event at name.now event.now text.old.items) }
{
    match event {
        Event::Connected(_) => {
            write_head(text, at, name)?;
            append_bytes(text, b" connected\n")
        }
        Event::Gone(_, Closing::Gone) => {
            write_head(text, at, name)?;
            append_bytes(text, b" gone\n")
        }
        Event::Gone(_, Closing::Failed) => {
            write_head(text, at, name)?;
            append_bytes(text, b" failed\n")
        }
        Event::Bytes(_, _) => Ok(()),
        Event::Tick => Ok(()),
        Event::Command(_) => Ok(()),
        Event::Asked(_) => Ok(()),
    }
}

// Appends the log line of a device's event. If the program refused the event, the line reports the
// refusal.
fn write_answered(
    text: &mut Vec<u8>,
    at: u64,
    name: &Option<Name>,
    event: &Event,
    answer: Result<Answer, Refusal>,
) -> Result<(), AllocError>
    ensures { OnOk result (text.new.items
        ≡ lines.with_answer at name.now event.now answer text.old.items) }
{
    match answer {
        Ok(_) => write_event(text, at, name, event),
        Err(why) => {
            write_head(text, at, name)?;
            write_number(text, b" refused ", u64::from(why.number()))?;
            append_bytes(text, b"\n")
        }
    }
}

// Appends the log line of a notification that reports a rejected reading, with the cause. Other
// notifications have no line.
fn append_note(
    text: &mut Vec<u8>,
    at: u64,
    name: &Option<Name>,
    note: &Note,
) -> Result<(), AllocError>
    ensures { OnOk result (text.new.items ≡ lines.with_note at name.now note.now text.old.items) }
{
    match note {
        Note::Outcome { .. } => Ok(()),
        Note::Reading { .. } => Ok(()),
        Note::Held { meter, raw, cause } => {
            write_head(text, at, name)?;
            write_word(text, b" held ", meter.as_bytes())?;
            write_number(text, b" ", u64::from(*raw))?;
            write_number(text, b" cause ", u64::from(cause.number()))?;
            append_bytes(text, b"\n")
        }
    }
}

fn append_notes(
    text: &mut Vec<u8>,
    at: u64,
    name: &Option<Name>,
    notes: &[Note],
) -> Result<(), AllocError>
    ensures { OnOk result (text.new.items
        ≡ lines.with_notes at name.now notes.now text.old.items) }
{
    for note in notes {
        append_note(text, at, name, note)?;
    }
    Ok(())
}

/// Appends the log lines of one event of a device.
///
/// A connection that begins or ends, a refused event, and each rejected reading give one log line.
/// A poll gives no line. If memory runs out, only a part of the text was appended.
pub fn write_lines(
    text: &mut Vec<u8>,
    at: u64,
    name: &Option<Name>,
    event: &Event,
    answer: Result<Answer, Refusal>,
    notes: &[Note],
) -> Result<(), AllocError>
    ensures { OnOk result (text.new.items
        ≡ lines.with_lines at name.now event.now answer notes.now text.old.items) }
{
    write_answered(text, at, name, event, answer)?;
    append_notes(text, at, name, notes)
}

/// Appends the log line of a polling round: how many of its polls were answered, timed out
/// (`silent`), or ended otherwise (`failed`).
pub fn write_sum(
    text: &mut Vec<u8>,
    at: u64,
    name: &Option<Name>,
    answered: u64,
    silent: u64,
    failed: u64,
) -> Result<(), AllocError>
    ensures { OnOk result (text.new.items
        ≡ lines.with_sum at name.now answered silent failed text.old.items) }
{
    write_head(text, at, name)?;
    write_number(text, b" round answered ", answered)?;
    write_number(text, b" silent ", silent)?;
    write_number(text, b" failed ", failed)?;
    append_bytes(text, b"\n")
}
