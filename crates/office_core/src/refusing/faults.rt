//! Finds the faults of a meter entry that a command adds. The command's numbers have 64 bits, so
//! their sums and products use 128 bits.
ghost use Rattle.std.specs.Prelude.{◌≡◌, ◌≤◌, ◌^◌};
ghost use Rattle.energy_core.specs.Account.{moment_of, reached};
ghost use Rattle.energy_core.specs.declared.admission.TermFault.TheVariants as fault;
ghost use Rattle.office_books.specs.Ranges.{IsSound};
ghost use Rattle.office_core.specs.Refusing.Given.{entry_of};
ghost use Rattle.office_core.specs.Refusing.Entries.{entry_has_fault};

use crate::refusing::given::GivenEntry;
use energy_core::{INTERVAL_SECONDS, MAX_INTERVALS, MAX_RANGE, MAX_TOTAL, energy_up_to};
use office_events::Installation;

/// Returns the timestamp of the meter entry that a command adds, in seconds since 1970-01-01 UTC.
fn moment(given: &GivenEntry) -> u64
    ensures { result ≡ moment_of (entry_of given.now) }
{
    match *given {
        GivenEntry::Step { at, .. } | GivenEntry::Change { at, .. } => at,
    }
}

/// Returns the counter value that was reached at a meter entry. For a `Step` (the counter
/// advanced), the value includes the full range of each rollover. For a `Change` (the counter was
/// set), it is the value before the change.
fn reach(range: u64, given: &GivenEntry) -> u128
    requires { range ≤ MAX_RANGE }
    ensures value { result ≡ reached range (entry_of given.now) }
    ensures small { result ≤ 2 ^ 97 }
{
    match *given {
        GivenEntry::Step { raw, rolls, .. } => {
            u128::from(raw) + u128::from(rolls) * u128::from(range)
        }
        GivenEntry::Change { before, .. } => u128::from(before),
    }
}

/// Returns true if the counter would have decreased from the meter's last entry to the given entry.
pub fn goes_back(row: &Installation, given: &GivenEntry) -> bool
    requires { IsSound row.now }
    ensures { result ≡ entry_has_fault row.now (entry_of given.now) fault.NegativeStep }
{
    reach(row.opening.range, given) < u128::from(row.last.raw)
}

/// Returns true if the given entry's timestamp is at or before the timestamp of the meter's last
/// entry.
pub fn is_not_later(row: &Installation, given: &GivenEntry) -> bool
    ensures { result ≡ entry_has_fault row.now (entry_of given.now) fault.NotLater }
{
    moment(given) <= row.last.at
}

/// Returns true if the time from the meter's last entry to the given entry overlaps more than the
/// maximum number of quarter hours.
pub fn is_long(row: &Installation, given: &GivenEntry) -> bool
    ensures { result ≡ entry_has_fault row.now (entry_of given.now) fault.SpanTooLong }
{
    let last = moment(given).saturating_sub(1) / INTERVAL_SECONDS;
    MAX_INTERVALS < last.saturating_sub(row.last.at / INTERVAL_SECONDS) + 1
}

/// Returns true if the given entry would raise the meter's total energy above its limit.
pub fn is_full(row: &Installation, given: &GivenEntry) -> bool
    requires { IsSound row.now }
    ensures { result ≡ entry_has_fault row.now (entry_of given.now) fault.TotalFull }
{
    let energy = energy_up_to(&row.last, reach(row.opening.range, given));
    u128::from(MAX_TOTAL) < u128::from(row.total) + energy
}

/// Returns true if a counter value of the given entry exceeds the greatest value that the counter
/// can show.
pub fn is_not_shown(row: &Installation, given: &GivenEntry) -> bool
    ensures { result ≡ entry_has_fault row.now (entry_of given.now) fault.NotBelowRange }
{
    match *given {
        GivenEntry::Step { raw, .. } => row.opening.range <= raw,
        GivenEntry::Change { before, after, .. } => {
            row.opening.range <= before || row.opening.range <= after
        }
    }
}
