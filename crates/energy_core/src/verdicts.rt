//! Accepts or rejects a reading of a meter's counter.
ghost use Rattle.std.specs.Prelude.{◌≡◌, ◌≤◌, ◌<◌, ◌*◌, ◌≤ℤ◌, nat_lt, if◌then◌else◌};
ghost use Rattle.energy_core.specs.Value.{unit_of};
ghost use Rattle.energy_core.specs.Verdict.{verdict_of, can_count, distance, cause_number};

use crate::admission::energy;
use crate::counters::Counter;
use crate::entries::{Entry, Last};
use crate::limits::{
    INTERVAL_SECONDS, MAX_CEILING, MAX_INTERVALS, MAX_RANGE, MAX_SCALE, MAX_TOTAL, MAX_UNIT,
    MIN_SCALE,
};
use crate::measures::{is_long_span, unit};

/// The limits by which a reading or an entry is judged: the ceiling (the greatest power, in W), and
/// the total energy so far, in mWh.
#[derive(Clone, Copy)]
pub struct Terms {
    pub ceiling: u64,
    pub total: u64,
}

/// A reading of a meter: the time in seconds since 1970-01-01 UTC, the count that the meter shows,
/// and the count's scale factor. A scale factor that the device does not implement is read as 0.
#[derive(Clone, Copy, PartialEq, Eq)]
pub struct Reading {
    pub at: u64,
    pub raw: u32,
    pub sf: i16,
}

/// The cause for which a reading is rejected.
#[derive(Clone, Copy, Debug, PartialEq, Eq)]
pub enum Cause {
    /// Cause of rejection: the counter shows 0, which SunSpec defines as the value of an
    /// accumulator that does not count.
    NotAccumulated,
    /// Cause of rejection: the scale factor of the reading differs from the scale factor of the
    /// meter's last entry.
    ScaleChanged,
    /// Cause of rejection: the reading is not later than the meter's last entry.
    NotLater,
    /// Cause of rejection: the time from the meter's last entry to the reading would touch more
    /// than 3,000 quarter hours.
    SpanTooLong,
    /// Cause of rejection: the counter could have made a full turn since the meter's last entry, so
    /// its advance is unknown.
    GapTooLong,
    /// Cause of rejection: the counter advanced further than the ceiling (the meter's greatest
    /// power) allows.
    TooFast,
    /// Cause of rejection: with the reading, the total energy of the installed meter would exceed
    /// this limit:
    /// * 4 * 10^18 mWh.
    TotalFull,
    /// Cause of rejection: the count of the reading is not below the counter's range.
    NotBelowRange,
}

impl Cause {
    /// Returns the numeric code under which the cause of a rejection is printed and stored.
    pub fn number(self) -> u8
        ensures { result ≡ cause_number self }
    {
        match self {
            Cause::NotAccumulated => 1,
            Cause::ScaleChanged => 2,
            Cause::NotLater => 3,
            Cause::SpanTooLong => 4,
            Cause::GapTooLong => 5,
            Cause::TooFast => 6,
            Cause::TotalFull => 7,
            Cause::NotBelowRange => 8,
        }
    }
}

/// The verdict on a reading of a meter's counter: accepted or rejected.
#[derive(Clone, Copy, PartialEq, Eq)]
pub enum Verdict {
    /// The reading becomes an entry. `rolls` is how often the counter rolled over since the last
    /// entry, 0 or 1. `step` is the energy since the last entry, in mWh.
    Accepted { rolls: u8, step: u64 },
    /// The reading is rejected and does not become an entry.
    Held(Cause),
}

/// Returns whether a power of at most `ceiling` W can advance a meter by `count` counts in
/// `seconds` seconds.
fn may_count(ceiling: u64, unit: u64, seconds: u64, count: u64) -> bool
    requires ceiling { ceiling ≤ MAX_CEILING }
    requires unit { unit ≤ MAX_UNIT }
    requires seconds { seconds ≤ MAX_INTERVALS * INTERVAL_SECONDS }
    requires count { count ≤ MAX_RANGE }
    ensures { result ≡ can_count ceiling unit seconds count }
{
    count.saturating_sub(1) * unit * 18 <= ceiling * seconds * 5
}

/// Returns the number of counts that a counter advanced from one shown number to another, if it
/// made less than a full turn.
fn distance_between(range: u64, from: u64, to: u64) -> u64
    requires some { 0 < range }
    requires range { range ≤ MAX_RANGE }
    requires from { from < range }
    requires to { to < range }
    ensures value { result ≡ distance range from to }
    ensures below { result < range }
{
    if to < from {
        to + range - from
    } else {
        to - from
    }
}

/// Returns the energy in mWh that an accepted reading adds to the meter's total. `rolls` is the
/// number of rollovers since the last entry.
fn energy_to(range: u64, last: &Last, reading: &Reading, rolls: u8) -> u64
    requires range { range ≤ MAX_RANGE }
    requires from { last.now.raw < range }
    requires to { reading.now.raw < range }
    requires scale_low { MIN_SCALE ≤ℤ last.now.sf }
    requires scale_high { last.now.sf ≤ℤ MAX_SCALE }
    requires rolls { rolls ≡ (if nat_lt reading.now.raw last.now.raw then 1 else 0) }
    ensures value { result ≡ distance range last.now.raw reading.now.raw * unit_of last.now.sf }
    ensures small { result ≤ 256 * MAX_RANGE * MAX_UNIT }
{
    let entry = Entry::Step {
        at: reading.at,
        raw: reading.raw,
        rolls,
    };
    energy(range, last, &entry)
}

/// Accepts a reading, or rejects the reading for the first cause that applies. The causes are
/// checked in the order of their numeric codes 1, 2, 8, 3, 4, 5, 6, 7.
pub fn judge<C: Counter>(counter: &C, terms: &Terms, last: &Last, reading: &Reading) -> Verdict
    requires ceiling_low { 1 ≤ terms.now.ceiling }
    requires ceiling_high { terms.now.ceiling ≤ MAX_CEILING }
    requires total { terms.now.total ≤ MAX_TOTAL }
    requires raw { last.now.raw < C.range counter.now }
    requires scale_low { MIN_SCALE ≤ℤ last.now.sf }
    requires scale_high { last.now.sf ≤ℤ MAX_SCALE }
    ensures { result ≡ verdict_of (C.range counter.now) terms.now last.now reading.now }
{
    let range = counter.range();
    let raw = u64::from(reading.raw);
    if reading.raw == 0 {
        return Verdict::Held(Cause::NotAccumulated);
    }
    if reading.sf != last.sf {
        return Verdict::Held(Cause::ScaleChanged);
    }
    if range <= raw {
        return Verdict::Held(Cause::NotBelowRange);
    }
    if reading.at <= last.at {
        return Verdict::Held(Cause::NotLater);
    }
    if is_long_span(last.at, reading.at) {
        return Verdict::Held(Cause::SpanTooLong);
    }
    let unit = unit(last.sf);
    let seconds = reading.at - last.at;
    if may_count(terms.ceiling, unit, seconds, range) {
        return Verdict::Held(Cause::GapTooLong);
    }
    let distance = distance_between(range, u64::from(last.raw), raw);
    if !may_count(terms.ceiling, unit, seconds, distance) {
        return Verdict::Held(Cause::TooFast);
    }
    let rolls = u8::from(reading.raw < last.raw);
    let step = energy_to(range, last, reading, rolls);
    if terms.total + step > MAX_TOTAL {
        return Verdict::Held(Cause::TotalFull);
    }
    Verdict::Accepted { rolls, step }
}
