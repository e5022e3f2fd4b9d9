//! The statement (billing report) of the entries, energy and rejected readings of one meter.
ghost use Rattle.std.specs.Prelude.{◌≡◌};
ghost use Rattle.energy_report.specs.Statements as statements;

use crate::held_counts::RejectedCounts;
use crate::tallies::EntryTally;
use interval_core::{DayRange, Zone};
use office_events::{Installation, Name};

/// The statement (billing report) of a meter for a range of days. The statement has the tally
/// (first and last entry, corrections) of the meter's entries, the energy in mWh, and the rejected
/// readings by cause.
#[derive(Clone, Copy)]
pub struct MeterStatement {
    pub meter: Name,
    pub entries: EntryTally,
    pub mwh: u128,
    pub held: RejectedCounts,
}

/// Returns whether a meter was installed on at least one day of a range, by the clocks of a time
/// zone.
///
/// The result is true if the range contains a day, and the meter was installed before the end of
/// the range and not closed before its beginning. In a range that ends on its first day, no meter
/// was installed.
pub fn was_installed(zone: &Zone, range: &DayRange, row: &Installation) -> bool
    ensures { result ≡ statements.was_installed zone.now range.now row.now }
{
    let until = DayRange {
        from: None,
        till: range.till,
    };
    let since = DayRange {
        from: range.from,
        till: None,
    };
    has_a_day(range)
        && until.has_moment(zone, row.opening.at)
        && (!row.ended || since.has_moment(zone, row.last.at))
}

// Returns whether the first day of a range is before its end, so that the range contains at least
// one day. Also true if the range lacks one of these bounds.
fn has_a_day(range: &DayRange) -> bool
    ensures { result ≡ statements.has_a_day range.now }
{
    let until = DayRange {
        from: None,
        till: range.till,
    };
    match range.from {
        None => true,
        Some(from) => until.has(from),
    }
}
