//! Records or refuses the manual entries of an operator for a meter.
ghost use Rattle.std.specs.Prelude.{◌≡◌, ◌≤◌, ◌<◌, ◌+◌, ◌*◌, ◌≤ℤ◌};
ghost use Rattle.std.specs.Prelude.{IfOk};
ghost use Rattle.energy_core.specs.Admission.{AccountsGoOnBy, entered, is_beyond, has_bad_scale, fault_number};
ghost use Rattle.energy_core.specs.Account.{moment_of, reached, after, energy_of};
ghost use Rattle.energy_core.specs.Account.{intervals_touched};

use crate::counters::Counter;
use crate::energies::energy_up_to;
use crate::entries::{Entry, Last, Step};
use crate::limits::{MAX_INTERVALS, MAX_RANGE, MAX_SCALE, MAX_TOTAL, MAX_UNIT, MIN_SCALE};
use crate::measures::is_long_span;
use crate::verdicts::Terms;

/// The reason why a manual entry of a meter is refused.
#[derive(Clone, Copy, Debug, PartialEq, Eq)]
pub enum TermFault {
    /// Fault of a new meter entry: its count is less than the count at the meter's last entry.
    NegativeStep,
    /// Fault of a new meter entry: its time is not later than that of the meter's last entry.
    NotLater,
    /// Fault of a new meter entry: the time from the meter's last entry to it would touch more than
    /// 3,000 quarter hours.
    SpanTooLong,
    /// Fault of a new meter entry: with it, the total energy of the installed meter would exceed
    /// 4 * 10^18 mWh.
    TotalFull,
    /// Fault of a new meter entry: its scale factor is not from -3 to 3.
    BadScale,
    /// Fault of a new meter entry: a count in it is not below the counter's range, so the counter
    /// cannot show it.
    NotBelowRange,
}

impl TermFault {
    /// Returns the numeric code of a manual entry's fault, from 1 to 6.
    pub fn number(self) -> u8
        ensures { result ≡ fault_number self }
    {
        match self {
            TermFault::NegativeStep => 1,
            TermFault::NotLater => 2,
            TermFault::SpanTooLong => 3,
            TermFault::TotalFull => 4,
            TermFault::BadScale => 5,
            TermFault::NotBelowRange => 6,
        }
    }
}

/// Returns the time of an entry, in seconds since 1970-01-01 UTC.
fn moment(entry: &Entry) -> u64
    ensures { result ≡ moment_of entry.now }
{
    match *entry {
        Entry::Step { at, .. } | Entry::Change { at, .. } => at,
    }
}

/// Returns the count that the counter reached at an entry. For a `Step` (a reading), the count
/// includes the full turns since the last entry. For a `Change` (a reset or rescale), it is the
/// count before the counter was set.
fn reach(range: u64, entry: &Entry) -> u64
    requires { range ≤ MAX_RANGE }
    ensures value { result ≡ reached range entry.now }
    ensures small { result ≤ 256 * MAX_RANGE }
{
    match *entry {
        Entry::Step { raw, rolls, .. } => u64::from(raw) + u64::from(rolls) * range,
        Entry::Change { before, .. } => u64::from(before),
    }
}

/// Returns the energy in mWh from the counter's last entry to `entry`. The count of `entry` is at
/// least the count at the last entry.
pub(crate) fn energy(range: u64, last: &Last, entry: &Entry) -> u64
    requires range { range ≤ MAX_RANGE }
    requires scale_low { MIN_SCALE ≤ℤ last.now.sf }
    requires scale_high { last.now.sf ≤ℤ MAX_SCALE }
    requires rises { last.now.raw ≤ reached range entry.now }
    ensures value { result ≡ energy_of range last.now entry.now }
    ensures small { result ≤ 256 * MAX_RANGE * MAX_UNIT }
{
    energy_up_to(last, u128::from(reach(range, entry))) as u64
}

/// Returns whether an entry sets a scale factor that is not from -3 to 3.
fn is_off_scale(entry: &Entry) -> bool
    ensures { result ≡ has_bad_scale entry.now }
{
    match *entry {
        Entry::Step { .. } => false,
        Entry::Change { sf, .. } => sf < MIN_SCALE || MAX_SCALE < sf,
    }
}

/// Returns whether an entry contains a count that the counter cannot show.
fn is_out_of_range(range: u64, entry: &Entry) -> bool
    ensures { result ≡ is_beyond range entry.now }
{
    match *entry {
        Entry::Step { raw, .. } => range <= u64::from(raw),
        Entry::Change { before, after, .. } => {
            range <= u64::from(before) || range <= u64::from(after)
        }
    }
}

/// Returns the counter's state (time, count and scale factor) after an entry.
fn last_after(last: &Last, entry: &Entry) -> Last
    ensures { result ≡ after last.now entry.now }
{
    match *entry {
        Entry::Step { at, raw, .. } => Last {
            at,
            raw,
            sf: last.sf,
        },
        Entry::Change { at, after, sf, .. } => Last { at, raw: after, sf },
    }
}

/// Records a meter's entry after the counter's last entry. Returns the counter's state after the
/// new entry, and the energy and times between the two entries. On error, returns the first fault
/// that applies.
pub fn enter<C: Counter>(
    counter: &C,
    terms: &Terms,
    last: &Last,
    entry: &Entry,
) -> Result<(Last, Step), TermFault>
    requires total { terms.now.total ≤ MAX_TOTAL }
    requires raw { last.now.raw < C.range counter.now }
    requires scale_low { MIN_SCALE ≤ℤ last.now.sf }
    requires scale_high { last.now.sf ≤ℤ MAX_SCALE }
    ensures booked { result ≡ entered (C.range counter.now) terms.now.total last.now entry.now }
    ensures account { let range = C.range counter.now in
        AccountsGoOnBy range terms.now.total last.now entry.now result }

    // On success, the returned state and the new total energy satisfy the preconditions of the
    // function `enter`, so it can record the next entry too.
    ensures total { IfOk result (λ r. terms.now.total + r.1.mwh ≤ MAX_TOTAL) }
    ensures raw { IfOk result (λ r. r.0.raw < C.range counter.now) }
    ensures scale_low { IfOk result (λ r. MIN_SCALE ≤ℤ r.0.sf) }
    ensures scale_high { IfOk result (λ r. r.0.sf ≤ℤ MAX_SCALE) }

    // On success, the energy of the returned step (the time between two entries) can be divided
    // among the quarter-hour intervals that it touches.
    ensures later { IfOk result (λ r. r.1.from < r.1.till) }
    ensures span { IfOk result (λ r. intervals_touched r.1.from r.1.till ≤ MAX_INTERVALS) }
{
    let range = counter.range();
    if reach(range, entry) < u64::from(last.raw) {
        return Err(TermFault::NegativeStep);
    }
    let till = moment(entry);
    if till <= last.at {
        return Err(TermFault::NotLater);
    }
    if is_long_span(last.at, till) {
        return Err(TermFault::SpanTooLong);
    }
    let mwh = energy(range, last, entry);
    if terms.total + mwh > MAX_TOTAL {
        return Err(TermFault::TotalFull);
    }
    if is_off_scale(entry) {
        return Err(TermFault::BadScale);
    }
    if is_out_of_range(range, entry) {
        return Err(TermFault::NotBelowRange);
    }
    let step = Step {
        from: last.at,
        till,
        mwh,
    };
    Ok((last_after(last, entry), step))
}
