//! Writes the lines for a refusal, a meter, a poll, a faulty row of a point list, and a malformed
//! input line.
ghost use Rattle.std.specs.Prelude.{◌≡◌, ◌≤◌, ◌+◌, ◌++◌, flat_map, length};
ghost use Rattle.sun_points.specs.Writing.{GotText};
ghost use Rattle.script_text.specs.AnswerText as text;

use crate::notes::push_outcome;
use crate::parts::{write_named, write_text};
use crate::row_lines::Line;
use energy_core::Last;
use office_events::{EndedPoll, Installation, PollRow, Refusal};
use point_list::FaultyRow;
use std::io::{self, Write};

/// Writes the line `refused N` for a refused event or command, where N is the numeric code of the
/// reason.
pub fn write_refusal<W: Write>(refusal: Refusal, output: &mut W) -> io::Result<()>
    ensures { GotText result (text.refused_line refusal)
        (W.contents output.old) (W.contents output.new) }
{
    write_text(refused_line(refusal).bytes(), output)
}

fn refused_line(refusal: Refusal) -> Line
    ensures { result ≡ text.refused_line refusal }
{
    let mut line = Line::new();
    line.push_number(b"refused ", refusal.number());
    line.push(b"\n");
    line
}

/// Writes the line `meter NAME last RAW sf SF at MOMENT total MWH open`: the last count, its scale
/// factor, its timestamp and the total energy of a meter. The last word is `ended` for a closed
/// meter.
pub fn write_meter<W: Write>(row: &Installation, output: &mut W) -> io::Result<()>
    ensures { GotText result (text.meter_line row.now)
        (W.contents output.old) (W.contents output.new) }
{
    write_named(
        b"meter ",
        row.opening.meter.as_bytes(),
        standing_text(&row.last, row.total, row.ended).bytes(),
        output,
    )
}

fn standing_text(last: &Last, total: u64, ended: bool) -> Line
    ensures { result ≡ text.standing_text last.now total ended }
{
    let Last { at, raw, sf } = *last;
    let mut line = Line::new();
    line.push_number(b" last ", raw);
    line.push_number(b" sf ", sf);
    line.push_number(b" at ", at);
    line.push_number(b" total ", total);
    line.push(end_word(ended));
    line
}

fn end_word(ended: bool) -> &'static [u8]
    ensures word { result.now ≡ text.end_word ended }
    ensures few { length result.now ≤ 7 }
{
    if ended { b" ended\n" } else { b" open\n" }
}

/// Writes the output line `poll N OUTCOME` for a poll (a Modbus read), with `pending` as the
/// outcome before the poll has ended.
pub fn write_poll<W: Write>(row: &PollRow, output: &mut W) -> io::Result<()>
    ensures { GotText result (text.poll_line row.now)
        (W.contents output.old) (W.contents output.new) }
{
    write_text(poll_line(row).bytes(), output)
}

fn poll_line(row: &PollRow) -> Line
    ensures { result ≡ text.poll_line row.now }
{
    let mut line = Line::new();
    line.push_number(b"poll ", row.poll.number);
    line.push(b" ");
    push_ending(&mut line, &row.ended);
    line.push(b"\n");
    line
}

fn push_ending(line: &mut Line, ended: &Option<EndedPoll>)
    requires { length line.old ≤ 64 }
    ensures bytes { line.new ≡ line.old ++ text.ending_text ended.now }
    ensures size { length line.new ≤ length line.old + 16 }
{
    match ended {
        None => line.push(b"pending"),
        Some(ended) => push_outcome(line, ended.outcome),
    }
}

/// Writes the line `row R fault N` for each faulty row of a point list, where N is the numeric code
/// of the fault. The header is row 1.
pub fn write_faults<W: Write>(faults: &[FaultyRow], output: &mut W) -> io::Result<()>
    ensures { GotText result (flat_map text.fault_line faults.now)
        (W.contents output.old) (W.contents output.new) }
{
    for faulty in faults {
        write_fault(faulty, output)?;
    }
    Ok(())
}

fn write_fault<W: Write>(faulty: &FaultyRow, output: &mut W) -> io::Result<()>
    ensures { GotText result (text.fault_line faulty.now)
        (W.contents output.old) (W.contents output.new) }
{
    write_text(fault_line(faulty).bytes(), output)
}

fn fault_line(faulty: &FaultyRow) -> Line
    ensures { result ≡ text.fault_line faulty.now }
{
    let mut line = Line::new();
    line.push_number(b"row ", faulty.row);
    line.push_number(b" fault ", faulty.fault.number());
    line.push(b"\n");
    line
}

/// Writes the line `bad line N`, which reports that input line N is no command, event or query.
pub fn write_bad_line<W: Write>(number: u64, output: &mut W) -> io::Result<()>
    ensures { GotText result (text.bad_line number)
        (W.contents output.old) (W.contents output.new) }
{
    write_text(bad_line(number).bytes(), output)
}

fn bad_line(number: u64) -> Line
    ensures { result ≡ text.bad_line number }
{
    let mut line = Line::new();
    line.push_number(b"bad line ", number);
    line.push(b"\n");
    line
}
