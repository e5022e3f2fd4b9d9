//! Formats the rows of a report, and the texts before, between and after the rows. No function
//! allocates memory.
ghost use Rattle.std.specs.Prelude.{◌≡◌, ◌≤◌, ◌<◌, ◌+◌, ◌++◌, length, replicate};
ghost use Rattle.sun_points.specs.Decimal.{low_digits};
ghost use Rattle.interval_core.specs.Report.{right};
ghost use Rattle.energy_report.specs.Texts as text;

use crate::form::{EnergyUnit, Format, Period, ReportForm};
use crate::row::Row;
use interval_core::Day;
use script_text::{Line, Text, day_of_month, month_of, push_part, push_year};

// The text of an energy in mWh or kWh, which has at most 46 characters.
pub(crate) type Energy = Text<48>;

/// Returns the text of a report row, preceded by the text before the row. Before the first row,
/// this is the beginning of the report, otherwise the separator between two rows.
pub(crate) fn row_piece(form: &ReportForm, is_first: bool, row: &Row) -> Line
    ensures { result ≡ text.lead is_first form.now ++ text.row_text form.now row.now }
{
    let mut line = Line::new();
    push_lead(&mut line, is_first, form);
    push_row(&mut line, form, row);
    line
}

/// Returns the text that a report writes at its end, after `count` rows. If `count` is 0, this text
/// also contains the beginning of the report.
pub(crate) fn last_piece(form: &ReportForm, count: u64) -> Line
    ensures { result ≡ text.last_text form.now count }
{
    let mut line = Line::new();
    if count == 0 {
        push_lead(&mut line, true, form);
    }
    push_ending(&mut line, form.format, count);
    line
}

fn push_lead(line: &mut Line, is_first: bool, form: &ReportForm)
    requires { length line.old ≡ 0 }
    ensures bytes { line.new ≡ line.old ++ text.lead is_first form.now }
    ensures size { length line.new ≤ 20 }
{
    match form.format {
        Format::Text => {}
        Format::Csv => {
            if is_first {
                push_header(line, form.period, form.unit);
            }
        }
        Format::Json => line.push(if is_first { b"[" } else { b",\n" }),
    }
}

fn push_header(line: &mut Line, period: Period, unit: EnergyUnit)
    requires { length line.old ≡ 0 }
    ensures bytes { line.new ≡ line.old ++ text.csv_header period unit }
    ensures size { length line.new ≤ 20 }
{
    line.push(period_word(period));
    line.push(b",energy_");
    line.push(unit_word(unit));
    line.push(b"\r\n");
}

fn push_ending(line: &mut Line, format: Format, count: u64)
    requires { length line.old ≤ 20 }
    ensures { line.new ≡ line.old ++ text.ending_by format count }
{
    match format {
        Format::Text => {
            line.push_number(b"end ", count);
            line.push(b"\n");
        }
        Format::Csv => {}
        Format::Json => line.push(b"]\n"),
    }
}

fn push_row(line: &mut Line, form: &ReportForm, row: &Row)
    requires { length line.old ≤ 20 }
    ensures { line.new ≡ line.old ++ text.row_text form.now row.now }
{
    match form.format {
        Format::Text => push_text_row(line, form, row),
        Format::Csv => push_csv_row(line, form, row),
        Format::Json => push_json_row(line, form, row),
    }
}

fn push_text_row(line: &mut Line, form: &ReportForm, row: &Row)
    requires { length line.old ≤ 20 }
    ensures { line.new ≡ line.old ++ text.text_row form.now row.now }
{
    push_period(line, form.period, row.first);
    line.push(b" ");
    line.push_right(count_width(form.period), row.count);
    line.push(b" ");
    push_energy_right(line, form.unit, row.mwh);
    line.push(b"\n");
}

fn push_csv_row(line: &mut Line, form: &ReportForm, row: &Row)
    requires { length line.old ≤ 20 }
    ensures { line.new ≡ line.old ++ text.csv_row form.now row.now }
{
    push_period(line, form.period, row.first);
    line.push(b",");
    line.push(energy(form.unit, row.mwh).bytes());
    line.push(b"\r\n");
}

fn push_json_row(line: &mut Line, form: &ReportForm, row: &Row)
    requires { length line.old ≤ 20 }
    ensures { line.new ≡ line.old ++ text.json_row form.now row.now }
{
    line.push(b"{\"");
    line.push(period_word(form.period));
    line.push(b"\":\"");
    push_period(line, form.period, row.first);
    line.push(b"\",\"");
    line.push(unit_word(form.unit));
    line.push(b"\":\"");
    line.push(energy(form.unit, row.mwh).bytes());
    line.push(b"\"}");
}

fn period_word(period: Period) -> &'static [u8]
    ensures word { result.now ≡ text.period_word period }
    ensures size { length result.now ≤ 5 }
{
    match period {
        Period::Day => b"day",
        Period::Month => b"month",
        Period::Year => b"year",
    }
}

pub(crate) fn unit_word(unit: EnergyUnit) -> &'static [u8]
    ensures word { result.now ≡ text.unit_word unit }
    ensures size { length result.now ≡ 3 }
{
    match unit {
        EnergyUnit::MilliwattHours => b"mwh",
        EnergyUnit::KilowattHours => b"kwh",
    }
}

fn count_width(period: Period) -> usize
    ensures width { result ≡ text.count_width period }
    ensures few { result ≤ 5 }
{
    match period {
        Period::Day => 3,
        Period::Month => 4,
        Period::Year => 5,
    }
}

/// Returns the text of the period that contains a day, such as `2026-11-25`, `2026-11` or `2026`.
pub fn period_name(period: Period, day: Day) -> Line
    ensures { result ≡ text.period_text period day }
{
    let mut line = Line::new();
    push_period(&mut line, period, day);
    line
}

fn push_period(line: &mut Line, period: Period, day: Day)
    requires { length line.old ≤ 64 }
    ensures bytes { line.new ≡ line.old ++ text.period_text period day }
    ensures size { length line.new ≤ length line.old + 13 }
{
    push_year(line, day.year());
    match period {
        Period::Day => {
            push_part(line, month_of(day));
            push_part(line, day_of_month(day));
        }
        Period::Month => push_part(line, month_of(day)),
        Period::Year => {}
    }
}

// Returns the text of an energy, as mWh or as kWh with six decimals.

pub(crate) fn energy(unit: EnergyUnit, mwh: u128) -> Energy
    ensures bytes { result ≡ text.energy_text unit mwh }
    ensures size { length result ≤ 46 }
{
    let mut energy = Energy::new();
    match unit {
        EnergyUnit::MilliwattHours => energy.push_number(b"", mwh),
        EnergyUnit::KilowattHours => {
            energy.push_number(b"", mwh / 1_000_000);
            energy.push(b".");
            push_decimals(&mut energy, (mwh % 1_000_000) as u32);
        }
    }
    energy
}

// Appends a number below 1,000,000 as six decimal digits, with leading zeros.
fn push_decimals(energy: &mut Energy, number: u32)
    requires room { length energy.old ≤ 40 }
    requires few { number < 1_000_000 }
    ensures bytes { energy.new ≡ energy.old ++ low_digits 10 6 number }
    ensures size { length energy.new ≡ length energy.old + 6 }
{
    energy.push_pair((number / 10_000) as u8);
    energy.push_pair((number / 100 % 100) as u8);
    energy.push_pair((number % 100) as u8);
}

// Appends the text of an energy, right-aligned in 24 columns.
fn push_energy_right(line: &mut Line, unit: EnergyUnit, mwh: u128)
    requires { length line.old ≤ 70 }
    ensures bytes { line.new ≡ line.old ++ right 24 (text.energy_text unit mwh) }
    ensures size { length line.new ≤ length line.old + 46 }
{
    let text = energy(unit, mwh);
    let bytes = text.bytes();
    if bytes.len() < 24 {
        push_spaces(line, 24 - bytes.len());
    }
    line.push(bytes);
}

// Appends `count` spaces, at most 24, to a line of a report.
fn push_spaces(line: &mut Line, count: usize)
    requires few { count ≤ 24 }
    requires room { length line.old + count ≤ 128 }
    ensures bytes { line.new ≡ line.old ++ replicate count 32 }
    ensures size { length line.new ≡ length line.old + count }
{
    line.push(&[b' '; 24][..count]);
}
