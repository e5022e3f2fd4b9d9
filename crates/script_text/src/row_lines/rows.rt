//! Builds and writes the lines for the energies of quarter hours and of days.
ghost use Rattle.std.specs.Prelude.{◌≡◌, ◌≤◌, ◌<◌, ◌+◌, ◌++◌, codes, length};
ghost use Rattle.jiff.specs.Words.{date_text};
ghost use Rattle.jiff_core.specs.Calendar.{IsYear};
ghost use Rattle.jiff_fmt.specs.Text.{pad2, year_text};
ghost use Rattle.script_text.specs.RowLines.Rows as rows;

use crate::row_lines::line::Line;
use interval_core::{Day, DayTotal, Share};
use std::io;
use sun_points::Sink;

/// Returns the line `START MWH`: the start of a quarter hour in seconds since 1970-01-01 UTC, and
/// its energy in mWh.
pub fn interval_line(row: Share) -> Line
    ensures { result ≡ rows.share_line row }
{
    let mut line = Line::new();
    line.push_number(b"", row.start);
    line.push_number(b" ", row.mwh);
    line.push(b"\n");
    line
}

/// Returns the line `DAY COUNT MWH`: the day as `YYYY-MM-DD`, the number of its recorded quarter
/// hours in 3 columns, and its energy in mWh in 24 columns. Both numbers are right-aligned.
pub fn day_line(total: &DayTotal) -> Line
    ensures { result ≡ rows.day_line total.now }
{
    let mut line = Line::new();
    push_day(&mut line, total.day);
    line.push(b" ");
    line.push_right(3, total.count);
    line.push(b" ");
    line.push_right(24, total.mwh);
    line.push(b"\n");
    line
}

/// Returns the line `end N`, which follows a report of N rows.
pub fn end_line(count: u64) -> Line
    ensures { result ≡ rows.end_line count }
{
    let mut line = Line::new();
    line.push_number(b"end ", count);
    line.push(b"\n");
    line
}

/// Appends a year in four digits. A year before 0 gets a minus sign and six digits.
pub fn push_year(line: &mut Line, year: i16)
    requires room { length line.old ≤ 64 }
    requires few { IsYear year }
    ensures bytes { line.new ≡ line.old ++ year_text year }
    ensures size { length line.new ≤ length line.old + 7 }
{
    if year < 0 {
        line.push(b"-00");
    }
    let number = year.unsigned_abs();
    line.push_pair((number / 100) as u8);
    line.push_pair((number % 100) as u8);
}

// Appends a day as `YYYY-MM-DD`. A year before 0 gets a minus sign and six digits.
fn push_day(line: &mut Line, day: Day)
    requires { length line.old ≤ 64 }
    ensures bytes { line.new ≡ line.old ++ date_text day }
    ensures size { length line.new ≤ length line.old + 13 }
{
    push_year(line, day.year());
    push_part(line, month_of(day));
    push_part(line, day_of_month(day));
}

/// Appends a hyphen, and a number below 100 in two digits.
pub fn push_part(line: &mut Line, number: u8)
    requires room { length line.old ≤ 124 }
    requires few { number < 100 }
    ensures bytes { line.new ≡ line.old ++ codes "-" ++ pad2 number }
    ensures size { length line.new ≤ length line.old + 3 }
{
    line.push(b"-");
    line.push_pair(number);
}

/// Returns the month of a day, from 1 for January.
pub fn month_of(day: Day) -> u8
    ensures value { result ≡ day.month }
    ensures few { result < 100 }
{
    day.month() as u8
}

/// Returns the day of the month of a date, from 1.
pub fn day_of_month(day: Day) -> u8
    ensures value { result ≡ day.day }
    ensures few { result < 100 }
{
    day.day() as u8
}

/// Writes the line `START MWH` for the energy of a quarter hour, in mWh.
pub fn write_interval<S: Sink>(row: Share, output: &mut S) -> io::Result<()>
    ensures { S.takes output.old (rows.share_line row) result output.new }
{
    output.take_text(interval_line(row).bytes())
}

/// Writes the line `DAY COUNT MWH` for the energy of a day, in mWh.
pub fn write_day<S: Sink>(total: &DayTotal, output: &mut S) -> io::Result<()>
    ensures { S.takes output.old (rows.day_line total.now) result output.new }
{
    output.take_text(day_line(total).bytes())
}

/// Writes the line `end N`, which follows a report of N rows.
pub fn write_end<S: Sink>(count: u64, output: &mut S) -> io::Result<()>
    ensures { S.takes output.old (rows.end_line count) result output.new }
{
    output.take_text(end_line(count).bytes())
}
