//! Tests which readings are accepted, and for which causes other readings are rejected.
use crate::terms::{PREVIOUS, TOTAL_LIMIT, last};
use energy_core::{Acc32, Cause, Counter, Last, Ranged, Reading, Terms, Verdict, judge};
use std::process::Abort;

struct Case {
    ceiling: u64,
    total: u64,
    last: Last,
    reading: Reading,
    verdict: Verdict,
}

macro_rules! reading {
    ($at:expr, $raw:expr, $sf:expr) => {
        Reading {
            at: $at,
            raw: $raw,
            sf: $sf,
        }
    };
}

macro_rules! accepted {
    ($rolls:expr, $step:expr) => {
        Verdict::Accepted {
            rolls: $rolls,
            step: $step,
        }
    };
}

macro_rules! held {
    ($cause:ident) => {
        Verdict::Held(Cause::$cause)
    };
}

const HIGH: Last = last!(1000, 4_294_967_200, 0);

static CASES: [Case; 22] = [
    Case {
        ceiling: 100_000,
        total: 0,
        last: last!(1000, 5000, 0),
        reading: reading!(1900, 5200, 0),
        verdict: accepted!(0, 200_000),
    },
    // Tests of readings without an advance of the counter, and with the least advance.
    Case {
        ceiling: 1,
        total: 0,
        last: PREVIOUS,
        reading: reading!(1901, 5200, 0),
        verdict: accepted!(0, 0),
    },
    Case {
        ceiling: 1,
        total: 0,
        last: PREVIOUS,
        reading: reading!(1901, 5201, 0),
        verdict: accepted!(0, 1000),
    },
    Case {
        ceiling: 1,
        total: 0,
        last: PREVIOUS,
        reading: reading!(1901, 5202, 0),
        verdict: held!(TooFast),
    },
    // Tests of readings after a rollover, with power at the ceiling (the meter's greatest power)
    // and below it.
    Case {
        ceiling: 1000,
        total: 0,
        last: HIGH,
        reading: reading!(1900, 104, 0),
        verdict: accepted!(1, 200_000),
    },
    Case {
        ceiling: 796,
        total: 0,
        last: HIGH,
        reading: reading!(1900, 104, 0),
        verdict: accepted!(1, 200_000),
    },
    Case {
        ceiling: 795,
        total: 0,
        last: HIGH,
        reading: reading!(1900, 104, 0),
        verdict: held!(TooFast),
    },
    // Tests that a reading with a lower count than the last entry is rejected with `TooFast` if the
    // time is too short for a rollover.
    Case {
        ceiling: 100_000,
        total: 0,
        last: PREVIOUS,
        reading: reading!(2800, 5199, 0),
        verdict: held!(TooFast),
    },
    // Tests that a reading is accepted after the longest time in which the counter cannot complete
    // a rollover. One second later, it is rejected with `GapTooLong`.
    Case {
        ceiling: 1_000_000,
        total: 0,
        last: last!(0, 500, -3),
        reading: reading!(15461, 501, -3),
        verdict: accepted!(0, 1),
    },
    Case {
        ceiling: 1_000_000,
        total: 0,
        last: last!(0, 500, -3),
        reading: reading!(15462, 501, -3),
        verdict: held!(GapTooLong),
    },
    // Tests of a reading after a rescale of the counter, and of a reading after a reset.
    Case {
        ceiling: 100_000,
        total: 200_000,
        last: last!(2000, 520, 1),
        reading: reading!(2800, 521, 1),
        verdict: accepted!(0, 10_000),
    },
    Case {
        ceiling: 100_000,
        total: 200_000,
        last: last!(2000, 520, 1),
        reading: reading!(2800, 521, 0),
        verdict: held!(ScaleChanged),
    },
    Case {
        ceiling: 100_000,
        total: 250_000,
        last: last!(2000, 0, 0),
        reading: reading!(2800, 0, 0),
        verdict: held!(NotAccumulated),
    },
    Case {
        ceiling: 100_000,
        total: 250_000,
        last: last!(2000, 0, 0),
        reading: reading!(3700, 30, 0),
        verdict: accepted!(0, 30_000),
    },
    // Tests that a reading is accepted if the meter's total energy reaches its limit, and rejected
    // with `TotalFull` if the total would exceed the limit.
    Case {
        ceiling: 1_000_000,
        total: 3_999_999_999_999_999_000,
        last: last!(0, 1, 0),
        reading: reading!(900, 2, 0),
        verdict: accepted!(0, 1000),
    },
    Case {
        ceiling: 1_000_000,
        total: 3_999_999_999_999_999_000,
        last: last!(0, 1, 0),
        reading: reading!(900, 3, 0),
        verdict: held!(TotalFull),
    },
    // Tests of readings whose time since the last entry touches 3,000 quarter hours, which is the
    // limit.
    Case {
        ceiling: 1000,
        total: 0,
        last: last!(0, 1, 0),
        reading: reading!(2_700_000, 2, 0),
        verdict: accepted!(0, 1000),
    },
    Case {
        ceiling: 1000,
        total: 0,
        last: last!(0, 1, 0),
        reading: reading!(2_700_001, 2, 0),
        verdict: held!(SpanTooLong),
    },
    // Tests of readings with several causes of rejection. The cause that is checked first is
    // reported.
    Case {
        ceiling: 1000,
        total: 0,
        last: PREVIOUS,
        reading: reading!(1900, 5300, 0),
        verdict: held!(NotLater),
    },
    Case {
        ceiling: 1000,
        total: 0,
        last: PREVIOUS,
        reading: reading!(1900, 5300, 1),
        verdict: held!(ScaleChanged),
    },
    Case {
        ceiling: 1000,
        total: 0,
        last: PREVIOUS,
        reading: reading!(1900, 0, 1),
        verdict: held!(NotAccumulated),
    },
    // Test of a reading of a meter with the greatest ceiling (power limit) that is allowed.
    Case {
        ceiling: 1_000_000_000,
        total: 0,
        last: last!(0, 1, 3),
        reading: reading!(5, 2, 3),
        verdict: accepted!(0, 1_000_000),
    },
];

const NEAR_A_MILLION: Last = last!(0, 999_900, 0);

static BELOW_A_MILLION: [Case; 7] = [
    Case {
        ceiling: 1000,
        total: 0,
        last: NEAR_A_MILLION,
        reading: reading!(900, 100, 0),
        verdict: accepted!(1, 200_000),
    },
    Case {
        ceiling: 1000,
        total: 0,
        last: NEAR_A_MILLION,
        reading: reading!(900, 999_999, 0),
        verdict: accepted!(0, 99_000),
    },
    Case {
        ceiling: 1000,
        total: 0,
        last: NEAR_A_MILLION,
        reading: reading!(900, 1_000_000, 0),
        verdict: held!(NotBelowRange),
    },
    Case {
        ceiling: 1000,
        total: 0,
        last: NEAR_A_MILLION,
        reading: reading!(900, 1_000_000, 1),
        verdict: held!(ScaleChanged),
    },
    Case {
        ceiling: 1000,
        total: 0,
        last: NEAR_A_MILLION,
        reading: reading!(0, 1_000_000, 0),
        verdict: held!(NotBelowRange),
    },
    Case {
        ceiling: 100_000,
        total: 0,
        last: last!(0, 5, 0),
        reading: reading!(35_999, 6, 0),
        verdict: accepted!(0, 1000),
    },
    Case {
        ceiling: 100_000,
        total: 0,
        last: last!(0, 5, 0),
        reading: reading!(36_000, 6, 0),
        verdict: held!(GapTooLong),
    },
];

/// Creates a case with a total energy of 0. Its arguments are the ceiling (the meter's greatest
/// power), the scale factor, the last entry's time and count, the reading's time and count, and the
/// verdict.
macro_rules! case {
    ($ceiling:expr, $sf:expr, $from:expr, $before:expr, $at:expr, $raw:expr, $verdict:expr) => {
        Case {
            ceiling: $ceiling,
            total: 0,
            last: last!($from, $before, $sf),
            reading: reading!($at, $raw, $sf),
            verdict: $verdict,
        }
    };
}

static LEAST_RANGE: [Case; 5] = [
    case!(100_000, 0, 0, 65_535, 900, 65_535, accepted!(0, 0)),
    case!(100_000, 0, 0, 65_535, 900, 1, accepted!(1, 2000)),
    case!(100_000, 0, 0, 5, 900, 65_536, held!(NotBelowRange)),
    // A complete rollover of the counter, 65,536 Wh, takes 2,359.26 seconds at 100 kW.
    case!(100_000, 0, 0, 5, 2359, 6, accepted!(0, 1000)),
    case!(100_000, 0, 0, 5, 2360, 6, held!(GapTooLong)),
];

static GREATEST_RANGE: [Case; 22] = [
    case!(1, 0, 0, 4_294_967_295, 4, 4_294_967_295, accepted!(0, 0)),
    case!(1, 0, 0, 4_294_967_294, 4, 4_294_967_295, accepted!(0, 1000)),
    case!(1000, 0, 0, 4_294_967_295, 900, 1, accepted!(1, 2000)),
    // A complete rollover of the counter, 4,294,967,296 Wh, takes 15,461.88 seconds at the greatest
    // ceiling of 1 GW. In 15,461 seconds, 1 GW is 4,294,722,222.2 Wh.
    case!(1_000_000_000, 0, 0, 5, 15_461, 6, accepted!(0, 1000)),
    case!(1_000_000_000, 0, 0, 5, 15_462, 6, held!(GapTooLong)),
    case!(1_000_000_000, 0, 0, 1, 15_461, 4_294_722_224, FARTHEST),
    case!(
        1_000_000_000,
        0,
        0,
        1,
        15_461,
        4_294_722_225,
        held!(TooFast)
    ),
    // In 18 seconds, 1 W is 5 mWh, and the greatest ceiling (power limit) of 1 GW is 5,000 kWh. The
    // counter may advance by one count more than this energy.
    case!(1, -3, 0, 1, 18, 7, accepted!(0, 6)),
    case!(1, -3, 0, 1, 18, 8, held!(TooFast)),
    case!(
        1_000_000_000,
        3,
        0,
        1,
        18,
        5002,
        accepted!(0, 5_001_000_000)
    ),
    case!(1_000_000_000, 3, 0, 1, 18, 5003, held!(TooFast)),
    // Tests of readings with an advance of one count at each scale factor.
    case!(1_000_000, -3, 0, 1, 900, 2, accepted!(0, 1)),
    case!(1_000_000, -2, 0, 1, 900, 2, accepted!(0, 10)),
    case!(1_000_000, -1, 0, 1, 900, 2, accepted!(0, 100)),
    case!(1_000_000, 0, 0, 1, 900, 2, accepted!(0, 1000)),
    case!(1_000_000, 1, 0, 1, 900, 2, accepted!(0, 10_000)),
    case!(1_000_000, 2, 0, 1, 900, 2, accepted!(0, 100_000)),
    case!(1_000_000, 3, 0, 1, 900, 2, accepted!(0, 1_000_000)),
    // Tests of steps (energy between two entries) over 3,000 quarter hours, the limit. A step
    // begins in the last or in the first second of a quarter hour. Each step is also tested with
    // one second more.
    case!(1000, 0, 899, 1, 2_700_000, 2, accepted!(0, 1000)),
    case!(1000, 0, 899, 1, 2_700_001, 2, held!(SpanTooLong)),
    case!(1000, 0, 900, 1, 2_700_900, 2, accepted!(0, 1000)),
    case!(1000, 0, 900, 1, 2_700_901, 2, held!(SpanTooLong)),
];

const FARTHEST: Verdict = accepted!(0, 4_294_722_223_000);

fn judged<C: Counter>(rt: &impl Abort, counter: &C, case: &Case) -> Verdict {
    let Case { ceiling, total, .. } = *case;
    assert!(rt; 1 <= ceiling && ceiling <= 1_000_000_000);
    assert!(rt; total <= TOTAL_LIMIT);
    assert!(rt; u64::from(case.last.raw) < counter.range());
    assert!(rt; -3 <= case.last.sf && case.last.sf <= 3);
    judge(
        counter,
        &Terms { ceiling, total },
        &case.last,
        &case.reading,
    )
}

fn judges<C: Counter>(rt: &impl Abort, counter: &C, cases: &[Case]) {
    for (i, case) in cases.iter().enumerate() {
        assert!(rt; judged(rt, counter, case) == case.verdict, "case {i}");
    }
}

/// Returns a counter with the given range in counts.
pub(crate) fn ranged(rt: &impl Abort, range: u64) -> Ranged {
    Ranged::new(range).expect(rt, "no lawful range")
}

/// Checks which readings of a 32-bit counter are accepted, and why others are rejected.
#[test]
fn readings_are_judged_on_a_counter_of_32_bits(rt: HostRuntime) {
    judges(&rt, &Acc32, &CASES);
}

/// Checks which readings of a counter that rolls over at 1,000,000 counts are accepted, and why
/// others are rejected.
#[test]
fn readings_are_judged_below_a_million(rt: HostRuntime) {
    judges(&rt, &ranged(&rt, 1_000_000), &BELOW_A_MILLION);
}

/// Checks which readings of counters with the least and the greatest range are accepted, and why
/// others are rejected.
#[test]
fn readings_are_judged_at_both_ends_of_ranges(rt: HostRuntime) {
    judges(&rt, &ranged(&rt, 65_536), &LEAST_RANGE);
    judges(&rt, &ranged(&rt, 4_294_967_296), &GREATEST_RANGE);
}
