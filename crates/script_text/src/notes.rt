//! Writes the lines of notifications, which report ended polls and meter readings.
ghost use Rattle.std.specs.Prelude.{◌≡◌, ◌≤◌, ◌+◌, ◌++◌, length};
ghost use Rattle.sun_points.specs.Writing.{GotText};
ghost use Rattle.script_text.specs.AnswerText as text;

use crate::parts::{write_named, write_text};
use crate::row_lines::Line;
use office_events::Note;
use poll_core::Outcome;
use std::io::{self, Write};

/// Writes the line for a notification: `poll N OUTCOME`, `reading METER RAW rolls R step MWH` for
/// an accepted reading (R rollovers, MWH mWh), or `held METER RAW cause N` for a rejected one.
pub fn write_note<W: Write>(note: &Note, output: &mut W) -> io::Result<()>
    ensures { GotText result (text.note_line note.now)
        (W.contents output.old) (W.contents output.new) }
{
    match *note {
        Note::Outcome { poll, outcome } => write_text(outcome_line(poll, outcome).bytes(), output),
        Note::Reading {
            ref meter,
            raw,
            rolls,
            step,
        } => write_named(
            b"reading ",
            meter.as_bytes(),
            reading_text(raw, rolls, step).bytes(),
            output,
        ),
        Note::Held {
            ref meter,
            raw,
            cause,
        } => write_named(
            b"held ",
            meter.as_bytes(),
            held_text(raw, cause.number()).bytes(),
            output,
        ),
    }
}

fn outcome_line(poll: u64, outcome: Outcome) -> Line
    ensures { result ≡ text.outcome_line poll outcome }
{
    let mut line = Line::new();
    line.push_number(b"poll ", poll);
    line.push(b" ");
    push_outcome(&mut line, outcome);
    line.push(b"\n");
    line
}

/// Appends the text for the outcome of a poll, such as `answered` or `exception 2`.
pub(crate) fn push_outcome(line: &mut Line, outcome: Outcome)
    requires { length line.old ≤ 64 }
    ensures bytes { line.new ≡ line.old ++ text.outcome_text outcome }
    ensures size { length line.new ≤ length line.old + 16 }
{
    match outcome {
        Outcome::Answered => line.push(b"answered"),
        Outcome::Exception(code) => line.push_number(b"exception ", code),
        Outcome::Silent => line.push(b"silent"),
        Outcome::Malformed(wrong) => line.push_number(b"malformed ", wrong.number()),
        Outcome::Lost(cause) => line.push_number(b"lost ", cause.number()),
    }
}

fn reading_text(raw: u32, rolls: u8, step: u64) -> Line
    ensures { result ≡ text.reading_text raw rolls step }
{
    let mut line = Line::new();
    line.push_number(b" ", raw);
    line.push_number(b" rolls ", rolls);
    line.push_number(b" step ", step);
    line.push(b"\n");
    line
}

fn held_text(raw: u32, cause: u8) -> Line
    ensures { result ≡ text.held_text raw cause }
{
    let mut line = Line::new();
    line.push_number(b" ", raw);
    line.push_number(b" cause ", cause);
    line.push(b"\n");
    line
}
