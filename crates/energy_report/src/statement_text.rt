//! Writes the statements (billing reports) of meters in a range of days. No function of this module
//! allocates memory.
ghost use Rattle.std.specs.Prelude.{◌≡◌, ◌≤◌, ◌+◌, ◌++◌, ◌&&◌, ◌==◌, length};
ghost use Rattle.sun_points.specs.Writing.{GotText};
ghost use Rattle.energy_core.specs.Verdict.{cause_number};
ghost use Rattle.energy_report.specs.Statements.{worth_of};
ghost use Rattle.energy_report.specs.StatementTexts as text;
ghost use Rattle.energy_report.specs.Texts.{ending_by};

use crate::form::{EnergyUnit, Format, StatementForm};
use crate::held_counts::{HeldCount, RejectedCounts};
use crate::meter_statement::MeterStatement;
use crate::row_text::{energy, unit_word};
use crate::tallies::{EntryTally, both};
use energy_core::{Last, MAX_SCALE, MIN_SCALE, energy_up_to};
use script_text::Text;
use std::io::{self, Write};
use sun_points::Sink;

// The text of a row of a statement (billing report) and of the separator before it, together at
// most 900 characters.
type Page = Text<1024>;

/// Writes the statements (billing reports) of all meters. If a write fails, only a beginning of the
/// text is written.
pub fn write_statement<W: Write>(
    form: &StatementForm,
    rows: &[MeterStatement],
    output: &mut W,
) -> io::Result<()>
    ensures { GotText result (text.statement_text form.now rows.now)
        (W.contents output.old) (W.contents output.new) }
{
    output.take_text(opening_page(form).bytes())?;
    let mut is_first = true;
    for row in rows {
        output.take_text(row_page(form, is_first, row).bytes())?;
        is_first = false;
    }
    output.take_text(ending_page(form, rows.len() as u64).bytes())
}

fn opening_page(form: &StatementForm) -> Page
    ensures { result ≡ text.opening form.now }
{
    let mut page = Page::new();
    match form.format {
        Format::Text => {}
        Format::Csv => push_header(&mut page, form.unit),
        Format::Json => page.push(b"["),
    }
    page
}

fn push_header(page: &mut Page, unit: EnergyUnit)
    requires { length page.old ≡ 0 }
    ensures { page.new ≡ page.old ++ text.csv_header unit }
{
    page.push(b"meter,first,first_");
    page.push(unit_word(unit));
    page.push(b",last,last_");
    page.push(unit_word(unit));
    page.push(b",energy_");
    page.push(unit_word(unit));
    page.push(b",by_hand,resets,rescales,voids,held,openings,closings\r\n");
}

fn ending_page(form: &StatementForm, count: u64) -> Page
    ensures { result ≡ ending_by form.now.format count }
{
    let mut page = Page::new();
    match form.format {
        Format::Text => {
            page.push_number(b"end ", count);
            page.push(b"\n");
        }
        Format::Csv => {}
        Format::Json => page.push(b"]\n"),
    }
    page
}

// Returns the text of a row of a statement (billing report). The separator between two rows
// precedes it, unless the row is the first.
fn row_page(form: &StatementForm, is_first: bool, row: &MeterStatement) -> Page
    ensures { result ≡ text.lead is_first form.now ++ text.row_text form.now row.now }
{
    let mut page = Page::new();
    push_lead(&mut page, form, is_first);
    push_row(&mut page, form, row);
    page
}

fn push_lead(page: &mut Page, form: &StatementForm, is_first: bool)
    requires { length page.old ≡ 0 }
    ensures bytes { page.new ≡ page.old ++ text.lead is_first form.now }
    ensures size { length page.new ≤ 2 }
{
    if is_first {
        return;
    }
    match form.format {
        Format::Text | Format::Csv => {}
        Format::Json => page.push(b",\n"),
    }
}

fn push_row(page: &mut Page, form: &StatementForm, row: &MeterStatement)
    requires { length page.old ≤ 2 }
    ensures { page.new ≡ page.old ++ text.row_text form.now row.now }
{
    match form.format {
        Format::Text => {
            push_fields(page, form, b" ", row);
            page.push(b"\n");
        }
        Format::Csv => {
            push_fields(page, form, b",", row);
            page.push(b"\r\n");
        }
        Format::Json => push_object(page, form.unit, row),
    }
}

// Returns the energy in mWh that the state of a counter shows, or 0 if the counter's scale factor
// is out of range.
fn reading_value(stand: &Last) -> u128
    ensures { result ≡ worth_of stand.now }
{
    if stand.sf < MIN_SCALE || MAX_SCALE < stand.sf {
        return 0;
    }
    let none = Last {
        at: stand.at,
        raw: 0,
        sf: stand.sf,
    };
    energy_up_to(&none, u128::from(stand.raw))
}

fn nothing(format: Format) -> &'static [u8]
    ensures word { result.now ≡ text.nothing format }
    ensures size { length result.now ≤ 4 }
{
    match format {
        Format::Text => b"-",
        Format::Csv => b"",
        Format::Json => b"null",
    }
}

fn quote(format: Format) -> &'static [u8]
    ensures word { result.now ≡ text.quote format }
    ensures size { length result.now ≤ 1 }
{
    match format {
        Format::Text | Format::Csv => b"",
        Format::Json => b"\"",
    }
}

fn push_moment(page: &mut Page, format: Format, stand: &Option<Last>)
    requires { length page.old ≤ 800 }
    ensures bytes { page.new ≡ page.old ++ text.moment_text format stand.now }
    ensures size { length page.new ≤ length page.old + 20 }
{
    match stand {
        None => page.push(nothing(format)),
        Some(stand) => page.push_number(b"", stand.at),
    }
}

fn push_worth(page: &mut Page, format: Format, unit: EnergyUnit, stand: &Option<Last>)
    requires { length page.old ≤ 800 }
    ensures bytes { page.new ≡ page.old ++ text.worth_text format unit stand.now }
    ensures size { length page.new ≤ length page.old + 48 }
{
    match stand {
        None => page.push(nothing(format)),
        Some(stand) => {
            page.push(quote(format));
            page.push(energy(unit, reading_value(stand)).bytes());
            page.push(quote(format));
        }
    }
}

// Returns the separator between two counts of rejected readings.

fn held_mark(format: Format) -> &'static [u8]
    ensures word { result.now ≡ text.held_mark format }
    ensures size { length result.now ≤ 1 }
{
    match format {
        Format::Text | Format::Json => b",",
        Format::Csv => b";",
    }
}

fn count_mark(format: Format) -> &'static [u8]
    ensures word { result.now ≡ text.count_mark format }
    ensures size { length result.now ≤ 1 }
{
    match format {
        Format::Text | Format::Csv => b"=",
        Format::Json => b":",
    }
}

fn push_held(page: &mut Page, format: Format, held: &RejectedCounts)
    requires { length page.old ≤ 700 }
    ensures bytes { page.new ≡ page.old ++ text.held_text format held.now }
    ensures size { length page.new ≤ length page.old + 218 }
{
    match format {
        Format::Text | Format::Csv => push_counts_or_zero(page, format, held),
        Format::Json => {
            page.push(b"{");
            push_counts(page, format, held);
            page.push(b"}");
        }
    }
}

fn push_counts_or_zero(page: &mut Page, format: Format, held: &RejectedCounts)
    requires { length page.old ≤ 700 }
    ensures bytes { page.new ≡ page.old ++ text.counts_or_zero format (text.held_some held.now) }
    ensures size { length page.new ≤ length page.old + 217 }
{
    let are_none = push_counts(page, format, held);
    if are_none {
        page.push(b"0");
    }
}

// Appends the text of those counts of rejected readings that are not 0. Returns whether all counts
// are 0.
fn push_counts(page: &mut Page, format: Format, held: &RejectedCounts) -> bool
    requires { length page.old ≤ 710 }
    ensures bytes { page.new ≡ page.old ++ text.counts_text format (text.held_some held.now) }
    ensures none { result ≡ text.are_none (text.held_some held.now) }
    ensures size { length page.new ≤ length page.old + 216 }
{
    let counts = held.by_cause();
    let mut are_none = true;
    for one in &counts {
        push_count(page, format, are_none, one);
        are_none = both(are_none, one.count == 0);
    }
    are_none
}

// Appends the text of a count of rejected readings, preceded by a separator if the count is not the
// first. Appends nothing if the count is 0.
fn push_count(page: &mut Page, format: Format, is_first: bool, one: &HeldCount)
    requires { length page.old ≤ 910 }
    ensures bytes { page.new ≡ page.old ++ text.count_piece format is_first one.now }
    ensures size { length page.new ≤ length page.old + 27 }
{
    if one.count == 0 {
        return;
    }
    if !is_first {
        page.push(held_mark(format));
    }
    push_one(page, format, one);
}

fn push_one(page: &mut Page, format: Format, one: &HeldCount)
    requires { length page.old ≤ 911 }
    ensures bytes { page.new ≡ page.old ++ text.count_text format one.now }
    ensures size { length page.new ≤ length page.old + 26 }
{
    page.push(quote(format));
    page.push_number(b"", one.cause.number());
    page.push(quote(format));
    page.push_number(count_mark(format), one.count);
}

// Appends the statement (billing report) of a meter, with the separator `mark` between its fields.

fn push_fields(page: &mut Page, form: &StatementForm, mark: &[u8], row: &MeterStatement)
    requires room { length page.old ≤ 2 }
    requires few { length mark.now ≤ 1 }
    ensures bytes { page.new ≡ page.old ++ text.fields form.now mark.now row.now }
    ensures size { length page.new ≤ length page.old + 750 }
{
    page.push(row.meter.as_bytes());
    push_counter_fields(page, form, mark, &row.entries.first);
    push_counter_fields(page, form, mark, &row.entries.last);
    page.push(mark);
    page.push(energy(form.unit, row.mwh).bytes());
    push_count_fields(page, mark, &row.entries);
    page.push(mark);
    push_held(page, form.format, &row.held);
    push_opening_and_closing_fields(page, mark, &row.entries);
}

fn push_counter_fields(page: &mut Page, form: &StatementForm, mark: &[u8], stand: &Option<Last>)
    requires room { length page.old ≤ 500 }
    requires few { length mark.now ≤ 1 }
    ensures bytes { page.new ≡ page.old ++ text.stand_fields form.now mark.now stand.now }
    ensures size { length page.new ≤ length page.old + 70 }
{
    page.push(mark);
    push_moment(page, form.format, stand);
    page.push(mark);
    push_worth(page, form.format, form.unit, stand);
}

fn push_count_fields(page: &mut Page, mark: &[u8], tally: &EntryTally)
    requires room { length page.old ≤ 500 }
    requires few { length mark.now ≤ 1 }
    ensures bytes { page.new ≡ page.old ++ text.count_fields mark.now tally.now }
    ensures size { length page.new ≤ length page.old + 84 }
{
    page.push_number(mark, tally.by_hand);
    page.push_number(mark, tally.resets);
    page.push_number(mark, tally.rescales);
    page.push_number(mark, tally.voids);
}

fn push_opening_and_closing_fields(page: &mut Page, mark: &[u8], tally: &EntryTally)
    requires room { length page.old ≤ 800 }
    requires few { length mark.now ≤ 1 }
    ensures bytes { page.new ≡ page.old ++ text.opening_and_closing_fields mark.now tally.now }
    ensures size { length page.new ≤ length page.old + 42 }
{
    page.push_number(mark, tally.openings);
    page.push_number(mark, tally.closings);
}

// Appends the statement (billing report) of a meter as a JSON object.

fn push_object(page: &mut Page, unit: EnergyUnit, row: &MeterStatement)
    requires { length page.old ≤ 2 }
    ensures { page.new ≡ page.old ++ text.object unit row.now }
{
    page.push(b"{\"meter\":\"");
    page.push(row.meter.as_bytes());
    page.push(b"\",");
    push_counter_members(page, unit, b"first", &row.entries.first);
    push_counter_members(page, unit, b"last", &row.entries.last);
    page.push(b"\"energy_");
    page.push(unit_word(unit));
    page.push(b"\":\"");
    page.push(energy(unit, row.mwh).bytes());
    page.push(b"\"");
    push_count_members(page, &row.entries);
    page.push(b",\"held\":");
    push_held(page, Format::Json, &row.held);
    page.push(b"}");
}

fn push_counter_members(page: &mut Page, unit: EnergyUnit, word: &[u8], stand: &Option<Last>)
    requires room { length page.old ≤ 500 }
    requires few { length word.now ≤ 5 }
    ensures bytes { page.new ≡ page.old ++ text.stand_members unit word.now stand.now }
    ensures size { length page.new ≤ length page.old + 100 }
{
    page.push(b"\"");
    page.push(word);
    page.push(b"\":");
    push_moment(page, Format::Json, stand);
    page.push(b",\"");
    page.push(word);
    page.push(b"_");
    page.push(unit_word(unit));
    page.push(b"\":");
    push_worth(page, Format::Json, unit, stand);
    page.push(b",");
}

fn push_count_members(page: &mut Page, tally: &EntryTally)
    requires { length page.old ≤ 500 }
    ensures bytes { page.new ≡ page.old ++ text.count_members tally.now }
    ensures size { length page.new ≤ length page.old + 200 }
{
    page.push_number(b",\"by_hand\":", tally.by_hand);
    page.push_number(b",\"resets\":", tally.resets);
    page.push_number(b",\"rescales\":", tally.rescales);
    page.push_number(b",\"voids\":", tally.voids);
    page.push_number(b",\"openings\":", tally.openings);
    page.push_number(b",\"closings\":", tally.closings);
}
