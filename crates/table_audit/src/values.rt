//! Writes the numbers in the printed lines of an audit: with a noun, as an energy with its unit, or
//! as a timestamp with its date and time in UTC.
ghost use Rattle.std.specs.Prelude.{◌≡◌, ◌≤◌, ◌<◌, ◌%◌, ◌++◌, ◌↔◌, false, codes, decimal};
ghost use Rattle.std.specs.Prelude.{OnOk, IsSome, IfSome, unsigned_abs};
ghost use Rattle.std.specs.Fmt.{digit_glyph, signed_decimal};
ghost use Rattle.jiff_fmt.specs.Text.{pad2, pad4};
ghost use Rattle.sun_points.specs.Decimal.{low_digits};
ghost use Rattle.table_audit.specs.Values as value;

use interval_core::LAST_MOMENT;
use itoa::Buffer;
use jiff::Timestamp;
use jiff::civil::Date;
use jiff::tz::TimeZone;
use std::alloc::AllocError;

// Functions that append parts of a printed line to a text. If memory runs out, the text is
// incomplete.

pub(crate) fn append_bytes(text: &mut Vec<u8>, bytes: &[u8]) -> Result<(), AllocError>
    ensures { OnOk result (text.new.items ≡ text.old.items ++ bytes.now) }
{
    text.extend_from_slice(bytes)
}

pub(crate) fn write_word(text: &mut Vec<u8>, before: &[u8], word: &[u8]) -> Result<(), AllocError>
    ensures { OnOk result (text.new.items ≡ text.old.items ++ before.now ++ word.now) }
{
    append_bytes(text, before)?;
    append_bytes(text, word)
}

pub(crate) fn write_number(text: &mut Vec<u8>, before: &[u8], number: u64) -> Result<(), AllocError>
    ensures { OnOk result (text.new.items ≡ text.old.items ++ before.now ++ decimal number) }
{
    append_bytes(text, before)?;
    let mut buffer = Buffer::new();
    append_bytes(text, buffer.format(number).as_bytes())
}

pub(crate) fn write_scale(text: &mut Vec<u8>, before: &[u8], sf: i16) -> Result<(), AllocError>
    ensures { OnOk result (text.new.items ≡ text.old.items ++ before.now ++ signed_decimal sf) }
{
    let mut buffer = Buffer::new();
    write_word(text, before, buffer.format(sf).as_bytes())
}

/// Appends the prefix `before`, a number and a noun: `one` for the number 1, and otherwise `many`.
/// If memory runs out, the text is incomplete.
pub fn write_count(
    text: &mut Vec<u8>,
    before: &[u8],
    number: u64,
    one: &[u8],
    many: &[u8],
) -> Result<(), AllocError>
    ensures { OnOk result (text.new.items
        ≡ text.old.items ++ before.now ++ value.number_of number one.now many.now) }
{
    write_number(text, before, number)?;
    if number == 1 {
        return write_word(text, b" ", one);
    }
    write_word(text, b" ", many)
}

fn last_digit(number: u64) -> u8
    ensures { result ≡ digit_glyph false (number % 10) }
{
    b'0' + (number % 10) as u8
}

/// Returns the last six digits of a number.
fn last_digits(number: u64) -> [u8; 6]
    ensures { result ≡ low_digits 10 6 number }
{
    [
        last_digit(number / 100_000),
        last_digit(number / 10_000),
        last_digit(number / 1_000),
        last_digit(number / 100),
        last_digit(number / 10),
        last_digit(number),
    ]
}

/// Appends the prefix `before`, an energy in mWh, and in brackets the same energy in kWh with six
/// decimals. If memory runs out, the text is incomplete.
pub fn write_energy(text: &mut Vec<u8>, before: &[u8], mwh: u64) -> Result<(), AllocError>
    ensures { OnOk result (text.new.items
        ≡ text.old.items ++ before.now ++ value.energy_text mwh) }
{
    write_number(text, before, mwh)?;
    write_number(text, b" mWh (", mwh / 1_000_000)?;
    write_word(text, b".", &last_digits(mwh))?;
    append_bytes(text, b" kWh)")
}

/// Returns the UTC date of a timestamp up to `LAST_MOMENT`.
fn date_at(at: u64) -> Option<Date>
    ensures some { IsSome result ↔ (at ≤ LAST_MOMENT) }
    ensures date { IfSome result
        (λ date. value.shown_date date ≡ value.date_on (value.day_number at)) }
{
    if at > LAST_MOMENT {
        return None;
    }
    let Ok(instant) = Timestamp::from_second(at as i64) else {
        return None;
    };
    Some(TimeZone::UTC.to_datetime(instant).date())
}

/// Appends the bytes `before`, and a number below 100 in two digits.
fn write_pair(text: &mut Vec<u8>, before: &[u8], number: u8) -> Result<(), AllocError>
    requires { number < 100 }
    ensures { OnOk result (text.new.items ≡ text.old.items ++ before.now ++ pad2 number) }
{
    write_word(text, before, &[b'0' + number / 10, b'0' + number % 10])
}

/// Appends a year in four digits, without its sign.
fn write_year(text: &mut Vec<u8>, date: Date) -> Result<(), AllocError>
    ensures { OnOk result (text.new.items ≡ text.old.items ++ pad4 (unsigned_abs date.year)) }
{
    let year = date.year().unsigned_abs();
    write_pair(text, b"", (year / 100) as u8)?;
    write_pair(text, b"", (year % 100) as u8)
}

/// Appends a date from the year 0 on, as `YYYY-MM-DD`.
fn write_date(text: &mut Vec<u8>, date: Date) -> Result<(), AllocError>
    ensures { OnOk result (text.new.items ≡ text.old.items ++ value.shown_date date) }
{
    write_year(text, date)?;
    write_pair(text, b"-", date.month() as u8)?;
    write_pair(text, b"-", date.day() as u8)
}

/// Appends the time of day in UTC at a timestamp, as `HH:MM:SS`.
fn write_clock(text: &mut Vec<u8>, at: u64) -> Result<(), AllocError>
    ensures { OnOk result (text.new.items ≡ text.old.items ++ value.clock_text at) }
{
    write_pair(text, b"", (at % 86_400 / 3_600) as u8)?;
    write_pair(text, b":", (at % 3_600 / 60) as u8)?;
    write_pair(text, b":", (at % 60) as u8)
}

/// Appends in brackets a date and the time of day in UTC at a timestamp.
fn write_calendar(text: &mut Vec<u8>, date: Date, at: u64) -> Result<(), AllocError>
    ensures { OnOk result (text.new.items ≡ text.old.items ++ codes " (" ++ value.shown_date date
        ++ codes " " ++ value.clock_text at ++ codes " UTC)") }
{
    append_bytes(text, b" (")?;
    write_date(text, date)?;
    append_bytes(text, b" ")?;
    write_clock(text, at)?;
    append_bytes(text, b" UTC)")
}

/// Appends the prefix `before`, a timestamp in seconds since 1970-01-01 UTC, and in brackets its
/// date and time in UTC. A timestamp after `LAST_MOMENT` gets no brackets. If memory runs out, the
/// text is incomplete.
pub fn write_moment(text: &mut Vec<u8>, before: &[u8], at: u64) -> Result<(), AllocError>
    ensures { OnOk result (text.new.items
        ≡ text.old.items ++ before.now ++ value.moment_text at) }
{
    write_number(text, before, at)?;
    match date_at(at) {
        None => Ok(()),
        Some(date) => write_calendar(text, date, at),
    }
}
