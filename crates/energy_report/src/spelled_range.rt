//! Parses the range of civil days that two arguments on the command line select.
ghost use Rattle.std.specs.Prelude.{MatchResult};
ghost use Rattle.energy_report.specs.Days.{IsEnd, IsNoEnd, IsRange, IsRangeFault};

use crate::spelled_day::read_day;
use interval_core::{Day, DayRange};

/// The reason why two arguments do not select a range of days.
#[derive(Clone, Copy)]
pub enum RangeFault {
    /// The command line argument for the first day of a report's range is not a civil day.
    From,
    /// The command line argument for the end of a report's range (the day after the last day) is
    /// not a civil day.
    Till,
    /// The end of the range of days is before the range's first day.
    Backward,
}

#[derive(Clone, Copy)]
struct NoDay;

// Parses the command line argument for one end of a range of days. If there is no argument, the
// range is open at this end.
fn read_end(word: Option<&str>) -> Result<Option<Day>, NoDay>
    ensures { MatchResult result (IsEnd word.entry) (λ none. IsNoEnd word.entry) }
{
    match word {
        None => Ok(None),
        Some(text) => match read_day(text) {
            Some(day) => Ok(Some(day)),
            None => Err(NoDay),
        },
    }
}

/// Parses a range of days from two command line arguments: the first day, and the day after the
/// last day. Both arguments have the form `YYYY-MM-DD`.
///
/// If the command line argument for the first or the end day is `None`, the range is open at this
/// end.
pub fn read_range(from: Option<&str>, till: Option<&str>) -> Result<DayRange, RangeFault>
    ensures { MatchResult result (IsRange from.entry till.entry)
        (IsRangeFault from.entry till.entry) }
{
    let Ok(from) = read_end(from) else {
        return Err(RangeFault::From);
    };
    let Ok(till) = read_end(till) else {
        return Err(RangeFault::Till);
    };
    let range = DayRange { from, till };
    if range.is_backward() {
        return Err(RangeFault::Backward);
    }
    Ok(range)
}
