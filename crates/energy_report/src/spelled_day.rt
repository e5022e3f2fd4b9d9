//! Parses the text of a civil day, such as `2026-11-25`.
ghost use Rattle.energy_report.specs.Days.{DigitIs, IsReadAs, PairIs, PartsAre};

use interval_core::Day;

// The parts of a date as numbers of two digits: the century, the year within the century, the month
// and the day.
#[derive(Clone, Copy)]
struct Parts {
    century: u8,
    year: u8,
    month: u8,
    day: u8,
}

fn digit_of(byte: u8) -> Option<u8>
    ensures { DigitIs byte result }
{
    match byte {
        b'0'..=b'9' => Some(byte - b'0'),
        _ => None,
    }
}

fn pair_of(tens: u8, ones: u8) -> Option<u8>
    ensures { PairIs tens ones result }
{
    let tens = digit_of(tens)?;
    let ones = digit_of(ones)?;
    Some(tens * 10 + ones)
}

// Returns the century, year, month and day in a text of the form `YYYY-MM-DD`, or `None` for a text
// of another form.
fn parts_of(text: &[u8]) -> Option<Parts>
    ensures { PartsAre text.now result }
{
    if text.len() != 10 {
        return None;
    }
    if text[4] != b'-' {
        return None;
    }
    if text[7] != b'-' {
        return None;
    }
    let century = pair_of(text[0], text[1])?;
    let year = pair_of(text[2], text[3])?;
    let month = pair_of(text[5], text[6])?;
    let day = pair_of(text[8], text[9])?;
    Some(Parts {
        century,
        year,
        month,
        day,
    })
}

/// Parses a civil day of the form `YYYY-MM-DD`, in the years 0000 to 9999. Returns `None` if the
/// text is not a day of the calendar.
pub fn read_day(text: &str) -> Option<Day>
    ensures { IsReadAs text.now result }
{
    let parts = parts_of(text.as_bytes())?;
    let year = u16::from(parts.century) * 100 + u16::from(parts.year);
    match Day::new(year as i16, parts.month as i8, parts.day as i8) {
        Ok(day) => Some(day),
        Err(_) => None,
    }
}
