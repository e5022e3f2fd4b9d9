//! Tests the numeric codes by which causes of rejected readings and faults are printed and stored.
use energy_core::{Cause, TermFault};
use interval_core::{DayFault, ZoneFault};

static CAUSES: [(Cause, u8); 8] = [
    (Cause::NotAccumulated, 1),
    (Cause::ScaleChanged, 2),
    (Cause::NotLater, 3),
    (Cause::SpanTooLong, 4),
    (Cause::GapTooLong, 5),
    (Cause::TooFast, 6),
    (Cause::TotalFull, 7),
    (Cause::NotBelowRange, 8),
];

static FAULTS: [(TermFault, u8); 6] = [
    (TermFault::NegativeStep, 1),
    (TermFault::NotLater, 2),
    (TermFault::SpanTooLong, 3),
    (TermFault::TotalFull, 4),
    (TermFault::BadScale, 5),
    (TermFault::NotBelowRange, 6),
];

/// Checks the numeric code of each cause of a rejected reading.
#[test]
fn causes_have_numbers(rt: HostRuntime) {
    for (cause, number) in &CAUSES {
        assert!(rt; cause.number() == *number, "{number}");
    }
}

/// Checks the numeric code of each fault of a meter entry.
#[test]
fn faults_of_entries_have_numbers(rt: HostRuntime) {
    for (fault, number) in &FAULTS {
        assert!(rt; fault.number() == *number, "{number}");
    }
}

/// Checks the numeric code of each fault of a time zone or a civil day.
#[test]
fn faults_of_zones_and_days_have_numbers(rt: HostRuntime) {
    assert!(rt; ZoneFault::Text.number() == 1);
    assert!(rt; ZoneFault::Memory.number() == 2);
    assert!(rt; DayFault::Zone.number() == 1);
    assert!(rt; DayFault::Memory.number() == 2);
}
