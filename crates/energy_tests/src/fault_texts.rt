//! Tests the texts of the causes of rejected readings, and of the faults of entries, time zones and
//! days.
use crate::texts::assert_texts;
use energy_core::{Cause, TermFault};
use interval_core::{DayFault, ZoneFault};

const HELD: [(Cause, &str); 8] = [
    (
        Cause::NotAccumulated,
        "the counter shows 0, as one does that does not count",
    ),
    (
        Cause::ScaleChanged,
        "the scale factor is not that of the last entry",
    ),
    (
        Cause::NotLater,
        "the reading is not later than the last entry",
    ),
    (
        Cause::SpanTooLong,
        "more than 3000 quarter hours passed since the last entry",
    ),
    (
        Cause::GapTooLong,
        "the counter could have made a full turn since the last entry",
    ),
    (
        Cause::TooFast,
        "the counter went further than the ceiling allows",
    ),
    (
        Cause::TotalFull,
        "the energy of the installation would pass 4 * 10^18 mWh",
    ),
    (
        Cause::NotBelowRange,
        "the counter shows a number that is not below its range",
    ),
];

const ENTRIES: [(TermFault, &str); 6] = [
    (
        TermFault::NegativeStep,
        "the counter would have gone back since the last entry",
    ),
    (
        TermFault::NotLater,
        "the entry is not later than the last one",
    ),
    (
        TermFault::SpanTooLong,
        "more than 3000 quarter hours passed since the last entry",
    ),
    (
        TermFault::TotalFull,
        "the energy of the installation would pass 4 * 10^18 mWh",
    ),
    (TermFault::BadScale, "the scale factor is not from -3 to 3"),
    (
        TermFault::NotBelowRange,
        "a number of the entry is not below the counter's range",
    ),
];

const DAYS: [(DayFault, &str); 2] = [
    (
        DayFault::Zone,
        "the calendar has no such moment in this time zone",
    ),
    (DayFault::Memory, "memory ran out"),
];

const ZONES: [(ZoneFault, &str); 2] = [
    (
        ZoneFault::Text,
        "the text is no POSIX time zone of at most 64 bytes, as UTC0 or CET-1CEST,M3.5.0,M10.5.0/3",
    ),
    (ZoneFault::Memory, "memory ran out"),
];

/// Checks the text of each value of four types: causes of a rejected reading, faults of meter
/// entries, faults of days and faults of time zones.
#[test]
fn energy(rt: HostRuntime) {
    assert_texts(&rt, rt.alloc(), &HELD);
    assert_texts(&rt, rt.alloc(), &ENTRIES);
    assert_texts(&rt, rt.alloc(), &DAYS);
    assert_texts(&rt, rt.alloc(), &ZONES)
}
