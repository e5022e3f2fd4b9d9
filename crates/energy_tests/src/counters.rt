//! Tests counters that roll over.
use crate::verdicts::ranged;
use energy_core::{Acc32, Counter, Ranged};
use std::process::Abort;

/// A true count of pulses, and the number that the counter shows: the remainder of the count after
/// all complete rollovers.
struct Shown {
    count: u64,
    shown: u32,
}

macro_rules! shown {
    ($count:expr, $shown:expr) => {
        Shown {
            count: $count,
            shown: $shown,
        }
    };
}

static OF_32_BITS: [Shown; 4] = [
    shown!(0, 0),
    shown!(4_294_967_295, 4_294_967_295),
    shown!(4_294_967_296, 0),
    shown!(8_589_934_599, 7),
];

static OF_16_BITS: [Shown; 3] = [
    shown!(65_535, 65_535),
    shown!(65_536, 0),
    shown!(131_080, 8),
];

static BELOW_A_MILLION: [Shown; 3] = [
    shown!(999_999, 999_999),
    shown!(1_000_000, 0),
    shown!(2_000_007, 7),
];

static UNLAWFUL: [u64; 4] = [0, 65_535, 4_294_967_297, u64::MAX];

fn shows<C: Counter>(rt: &impl Abort, counter: &C, range: u64, cases: &[Shown]) {
    assert!(rt; counter.range() == range);
    for Shown { count, shown } in cases {
        assert!(rt; counter.shown(*count) == *shown, "at {count}");
    }
}

/// Checks that a counter shows the remainder of its true count after all complete rollovers.
#[test]
fn counters_show_the_count_without_its_turns(rt: HostRuntime) {
    shows(&rt, &Acc32, 4_294_967_296, &OF_32_BITS);
    shows(&rt, &ranged(&rt, 4_294_967_296), 4_294_967_296, &OF_32_BITS);
}

/// Checks that a counter may roll over at a value other than 2^32.
#[test]
fn a_counter_may_have_a_range_of_its_own(rt: HostRuntime) {
    shows(&rt, &ranged(&rt, 65_536), 65_536, &OF_16_BITS);
    shows(&rt, &ranged(&rt, 1_000_000), 1_000_000, &BELOW_A_MILLION);
}

/// Checks that a counter's range is refused if it is too small or too great.
#[test]
fn ranges_have_bounds(rt: HostRuntime) {
    for range in UNLAWFUL {
        assert!(rt; Ranged::new(range).is_none(), "at {range}");
    }
}
