//! Removes the days outside a range from a list, and computes a time span that contains the range's
//! days in every time zone.
ghost use Rattle.std.specs.Prelude.{◌≡◌, ℕ, true, pos, ◌+ℤ◌, ◌-ℤ◌};
ghost use Rattle.jiff.specs.Words.{epoch_day};
ghost use Rattle.interval_core.specs.Ranges.{days_in, has_day};
ghost use Rattle.interval_core.specs.Zone.{day_at};
ghost use Rattle.interval_core.specs.declared.zone.Zone.{Zone};
ghost use Rattle.office_books.specs.Spans.{is_within};
ghost use Rattle.office_core.specs.DayRange as range;
ghost use Rattle.office_core.specs.DayRange.{span_of, utc_start};

use interval_core::{Day, DayRange, DayTotal};
use office_books::Span;

/// An upper bound of UTC offsets, in days.
const MARGIN: i32 = 2;

/// Removes the days (energy by civil day) outside the range of days from the list.
pub fn keep_within(days: &mut Vec<DayTotal>, range: &DayRange)
    ensures { days.new.items ≡ days_in range.now days.old.items }
{
    days.retain(|total| range.has(total.day));
}

/// Returns the start of the UTC day with the given day number, in seconds since 1970-01-01 UTC, or
/// 0 for a day before 1970.
fn begin_of(day: i32) -> u64
    ensures { result ≡ utc_start day }
{
    if day < 0 { 0 } else { day as u64 * 86_400 }
}

/// Returns a timestamp at or before the start of `day` in every time zone.
fn earliest(day: Day) -> u64
    ensures { result ≡ utc_start (epoch_day day -ℤ pos 2) }
{
    begin_of(day.to_plain().to_unix_epoch_day() - MARGIN)
}

/// Returns a timestamp at or after the start of `day` in every time zone.
fn latest(day: Day) -> u64
    ensures { result ≡ utc_start (epoch_day day +ℤ pos 2) }
{
    begin_of(day.to_plain().to_unix_epoch_day() + MARGIN)
}

/// Returns the time span from two days before `from` to two days after `till`. If `from` or `till`
/// is `None`, the span contains all times.
fn span_between(from: Option<Day>, till: Option<Day>) -> Span
    ensures { result ≡ range.span_between from till }
{
    let Some(first) = from else {
        return Span::All;
    };
    let Some(last) = till else {
        return Span::All;
    };
    Span::Between {
        from: earliest(first),
        till: latest(last),
    }
}

/// Returns a time span that contains each quarter hour of the range's days, in every time zone.
///
/// The returned time span has at most two additional days at each end. If the range of days has no
/// first day or no end, the span is `Span::All`.
pub fn span_around(range: DayRange) -> Span
    ensures span { result ≡ span_of range }
    ensures around { (zone : Zone) (start : ℕ) → has_day range (day_at zone start) ≡ true
        → is_within result start ≡ true }
{
    span_between(range.from, range.till)
}
