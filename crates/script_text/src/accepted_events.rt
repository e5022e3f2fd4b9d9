//! Writes the lines for an accepted event: its notifications (such as a recorded reading), and its
//! answer (the started polls, or `ok`).
ghost use Rattle.std.specs.Prelude.{◌≡◌, ◌++◌, codes, flat_map};
ghost use Rattle.hex.specs.Hex.{encode_lower};
ghost use Rattle.sun_points.specs.Writing.{GotText};
ghost use Rattle.script_text.specs.AnswerText as text;

use crate::notes::write_note;
use crate::parts::{write_hex, write_text};
use crate::row_lines::Line;
use office_events::{Answer, Note};
use std::io::{self, Write};

/// Writes a line for each notification (such as a recorded reading) of an accepted event, and then
/// a line for the answer (the started polls, or `ok`). `frames` are the Modbus frames to send.
pub fn write_accepted<W: Write>(
    answer: &Answer,
    notes: &[Note],
    frames: &[u8],
    output: &mut W,
) -> io::Result<()>
    ensures { GotText result (text.accepted_text answer.now notes.now frames.now)
        (W.contents output.old) (W.contents output.new) }
{
    write_notes(notes, output)?;
    write_answer(answer, frames, output)
}

/// Writes one line for each notification of an accepted event, such as a recorded reading, in the
/// order of the slice `notes`.
pub fn write_notes<W: Write>(notes: &[Note], output: &mut W) -> io::Result<()>
    ensures { GotText result (flat_map text.note_line notes.now)
        (W.contents output.old) (W.contents output.new) }
{
    for note in notes {
        write_note(note, output)?;
    }
    Ok(())
}

/// Writes the line `started FIRST COUNT OF HEX` if the event started polls, otherwise the line
/// `ok`. FIRST is the number of the first poll, COUNT the number of polls, and OF the number of
/// reads that cover the device's point list. HEX are the Modbus frames to send.
pub fn write_answer<W: Write>(answer: &Answer, frames: &[u8], output: &mut W) -> io::Result<()>
    ensures { GotText result (text.answer_line answer.now frames.now)
        (W.contents output.old) (W.contents output.new) }
{
    match *answer {
        Answer::Noted | Answer::Done(_) | Answer::Again(_) => write_text(b"ok\n", output),
        Answer::Started { first, count, of } => {
            write_started(counts_text(first, count, of).bytes(), frames, output)
        }
    }
}

fn counts_text(first: u64, count: u64, of: u64) -> Line
    ensures { result ≡ text.counts_text first count of }
{
    let mut line = Line::new();
    line.push_number(b"started ", first);
    line.push_number(b" ", count);
    line.push_number(b" ", of);
    line.push(b" ");
    line
}

fn write_started<W: Write>(counts: &[u8], frames: &[u8], output: &mut W) -> io::Result<()>
    ensures { GotText result (counts.now ++ encode_lower frames.now ++ codes "\n")
        (W.contents output.old) (W.contents output.new) }
{
    write_text(counts, output)?;
    write_hex_line(frames, output)
}

fn write_hex_line<W: Write>(bytes: &[u8], output: &mut W) -> io::Result<()>
    ensures { GotText result (encode_lower bytes.now ++ codes "\n")
        (W.contents output.old) (W.contents output.new) }
{
    write_hex(bytes, output)?;
    write_text(b"\n", output)
}
