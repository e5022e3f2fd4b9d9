//! Finds the reason to refuse a meter entry (such as a reset or a closing) that a command adds.
ghost use Rattle.std.specs.Prelude.{◌≡◌};
ghost use Rattle.office_books.specs.Ranges.{IsSound};
ghost use Rattle.office_core.specs.Refusing.Given.{entry_of};
ghost use Rattle.office_core.specs.Refusing.Entries.{entry_refusal, BefitsEntry};

use crate::refusing::arrivals::Arrival;
use crate::refusing::faults::{goes_back, is_full, is_long, is_not_later, is_not_shown};
use crate::refusing::given::GivenEntry;
use office_events::{Installation, Refusal};

/// Returns the first reason to refuse a meter entry at the latest meter of an accounting register
/// (a named energy counter), or `None` if no reason applies.
///
/// `off_scale` is true if the command's scale is out of range, and `off_limits` is true if another
/// number of the command is out of range.
pub fn refusal_of_entry(
    arrival: &Arrival,
    off_scale: bool,
    off_limits: bool,
    row: &Installation,
    given: &GivenEntry,
) -> Option<Refusal>
    requires { IsSound row.now }
    ensures found { result ≡ entry_refusal arrival.now off_scale off_limits row.now
        (entry_of given.now) }
    ensures befits { BefitsEntry arrival.now off_scale off_limits (entry_of given.now) result }
{
    if arrival.is_back {
        return Some(Refusal::ClockBack);
    }
    if off_scale {
        return Some(Refusal::BadScale);
    }
    if row.ended {
        return Some(Refusal::Ended);
    }
    if goes_back(row, given) {
        return Some(Refusal::NegativeStep);
    }
    if is_not_later(row, given) {
        return Some(Refusal::NotLater);
    }
    if is_long(row, given) {
        return Some(Refusal::SpanTooLong);
    }
    if is_full(row, given) {
        return Some(Refusal::TotalFull);
    }
    if arrival.is_beyond || off_limits || is_not_shown(row, given) {
        return Some(Refusal::Limit);
    }
    None
}
