//! Tests which entries of a meter are recorded, and with which energy.
use crate::terms::{PREVIOUS, TOTAL_LIMIT, booked, last};
use crate::verdicts::ranged;
use energy_core::{Acc32, Counter, Entry, Last, Step, TermFault, Terms, enter};
use std::process::Abort;

struct Case {
    total: u64,
    last: Last,
    entry: Entry,
    answer: Result<(Last, Step), TermFault>,
}

const NEARLY_FULL: u64 = 3_999_999_999_999_999_000;

macro_rules! step {
    ($at:expr, $raw:expr, $rolls:expr) => {
        Entry::Step {
            at: $at,
            raw: $raw,
            rolls: $rolls,
        }
    };
}

macro_rules! change {
    ($at:expr, $before:expr, $after:expr, $sf:expr) => {
        Entry::Change {
            at: $at,
            before: $before,
            after: $after,
            sf: $sf,
        }
    };
}

static CASES: [Case; 21] = [
    Case {
        total: 200_000,
        last: PREVIOUS,
        entry: step!(2000, 5100, 0),
        answer: Err(TermFault::NegativeStep),
    },
    Case {
        total: 200_000,
        last: PREVIOUS,
        entry: step!(1900, 5300, 0),
        answer: Err(TermFault::NotLater),
    },
    Case {
        total: 200_000,
        last: PREVIOUS,
        entry: step!(2_701_801, 5300, 0),
        answer: Err(TermFault::SpanTooLong),
    },
    Case {
        total: 200_000,
        last: PREVIOUS,
        entry: step!(2_701_800, 5300, 0),
        answer: booked!(last!(2_701_800, 5300, 0), 1900, 100_000),
    },
    Case {
        total: 200_000,
        last: PREVIOUS,
        entry: step!(5_000_000, 5300, 0),
        answer: Err(TermFault::SpanTooLong),
    },
    Case {
        total: 300_000,
        last: last!(2_701_800, 5300, 0),
        entry: step!(5_000_000, 5300, 0),
        answer: booked!(last!(5_000_000, 5300, 0), 2_701_800, 0),
    },
    // Tests of steps (energy between two entries) over 3,000 quarter hours, the limit. A step
    // begins in the last or in the first second of a quarter hour. Each step is also tested with
    // one second more.
    Case {
        total: 0,
        last: last!(899, 5200, 0),
        entry: step!(2_700_000, 5300, 0),
        answer: booked!(last!(2_700_000, 5300, 0), 899, 100_000),
    },
    Case {
        total: 0,
        last: last!(899, 5200, 0),
        entry: step!(2_700_001, 5300, 0),
        answer: Err(TermFault::SpanTooLong),
    },
    Case {
        total: 0,
        last: last!(900, 5200, 0),
        entry: step!(2_700_900, 5300, 0),
        answer: booked!(last!(2_700_900, 5300, 0), 900, 100_000),
    },
    Case {
        total: 0,
        last: last!(900, 5200, 0),
        entry: step!(2_700_901, 5300, 0),
        answer: Err(TermFault::SpanTooLong),
    },
    // Tests that the entry check accepts a meter entry with 255 rollovers, the greatest number, and
    // computes its energy.
    Case {
        total: 0,
        last: last!(1900, 5200, -3),
        entry: step!(2000, 0, 255),
        answer: booked!(last!(2000, 0, -3), 1900, 1_095_216_655_280),
    },
    // Tests of meter entries that reach the limit of the total energy, and entries that exceed it.
    Case {
        total: NEARLY_FULL,
        last: PREVIOUS,
        entry: step!(2000, 5201, 0),
        answer: booked!(last!(2000, 5201, 0), 1900, 1000),
    },
    Case {
        total: NEARLY_FULL,
        last: PREVIOUS,
        entry: step!(2000, 5202, 0),
        answer: Err(TermFault::TotalFull),
    },
    // Tests of a reset and a rescale of the counter. The energy is counted up to the value before
    // the change, and the counter continues from the value after the change.
    Case {
        total: 200_000,
        last: PREVIOUS,
        entry: change!(2000, 5200, 520, 1),
        answer: booked!(last!(2000, 520, 1), 1900, 0),
    },
    Case {
        total: 200_000,
        last: PREVIOUS,
        entry: change!(2000, 5250, 0, 0),
        answer: booked!(last!(2000, 0, 0), 1900, 50_000),
    },
    // Tests of scale factors that a meter entry may set, and scale factors that a meter entry may
    // not set.
    Case {
        total: 0,
        last: PREVIOUS,
        entry: change!(2000, 5200, 1, -4),
        answer: Err(TermFault::BadScale),
    },
    Case {
        total: 0,
        last: PREVIOUS,
        entry: change!(2000, 5200, 1, -3),
        answer: booked!(last!(2000, 1, -3), 1900, 0),
    },
    Case {
        total: 0,
        last: PREVIOUS,
        entry: change!(2000, 5200, 1, 3),
        answer: booked!(last!(2000, 1, 3), 1900, 0),
    },
    Case {
        total: 0,
        last: PREVIOUS,
        entry: change!(2000, 5200, 1, 4),
        answer: Err(TermFault::BadScale),
    },
    // Tests of meter entries with several faults. The fault that is checked first is reported.
    Case {
        total: NEARLY_FULL,
        last: PREVIOUS,
        entry: change!(1900, 5202, 1, 4),
        answer: Err(TermFault::NotLater),
    },
    Case {
        total: NEARLY_FULL,
        last: PREVIOUS,
        entry: change!(2000, 5202, 1, 4),
        answer: Err(TermFault::TotalFull),
    },
];

static BELOW_A_MILLION: [Case; 7] = [
    Case {
        total: 0,
        last: PREVIOUS,
        entry: step!(2000, 999_999, 0),
        answer: booked!(last!(2000, 999_999, 0), 1900, 994_799_000),
    },
    Case {
        total: 0,
        last: PREVIOUS,
        entry: step!(2000, 1_000_000, 0),
        answer: Err(TermFault::NotBelowRange),
    },
    Case {
        total: 0,
        last: PREVIOUS,
        entry: step!(2000, 5200, 1),
        answer: booked!(last!(2000, 5200, 0), 1900, 1_000_000_000),
    },
    Case {
        total: 0,
        last: PREVIOUS,
        entry: change!(2000, 999_999, 999_999, 0),
        answer: booked!(last!(2000, 999_999, 0), 1900, 994_799_000),
    },
    Case {
        total: 0,
        last: PREVIOUS,
        entry: change!(2000, 1_000_000, 0, 0),
        answer: Err(TermFault::NotBelowRange),
    },
    Case {
        total: 0,
        last: PREVIOUS,
        entry: change!(2000, 5200, 1_000_000, 0),
        answer: Err(TermFault::NotBelowRange),
    },
    Case {
        total: 0,
        last: PREVIOUS,
        entry: change!(2000, 5200, 1_000_000, 4),
        answer: Err(TermFault::BadScale),
    },
];

/// Tests of meter entries of a counter with the least range: 255 rollovers of 65,536 counts, and
/// the greatest number that the counter shows.
static BELOW_65536: [Case; 5] = [
    Case {
        total: 0,
        last: PREVIOUS,
        entry: step!(2000, 65_535, 0),
        answer: booked!(last!(2000, 65_535, 0), 1900, 60_335_000),
    },
    Case {
        total: 0,
        last: PREVIOUS,
        entry: step!(2000, 65_536, 0),
        answer: Err(TermFault::NotBelowRange),
    },
    Case {
        total: 0,
        last: PREVIOUS,
        entry: step!(2000, 5200, 255),
        answer: booked!(last!(2000, 5200, 0), 1900, 16_711_680_000),
    },
    Case {
        total: 0,
        last: PREVIOUS,
        entry: change!(2000, 5200, 65_535, 0),
        answer: booked!(last!(2000, 65_535, 0), 1900, 0),
    },
    Case {
        total: 0,
        last: PREVIOUS,
        entry: change!(2000, 5200, 65_536, 0),
        answer: Err(TermFault::NotBelowRange),
    },
];

fn entered<C: Counter>(
    rt: &impl Abort,
    counter: &C,
    case: &Case,
) -> Result<(Last, Step), TermFault> {
    let total = case.total;
    assert!(rt; total <= TOTAL_LIMIT);
    assert!(rt; u64::from(case.last.raw) < counter.range());
    assert!(rt; -3 <= case.last.sf && case.last.sf <= 3);
    enter(
        counter,
        &Terms { ceiling: 1, total },
        &case.last,
        &case.entry,
    )
}

fn enters<C: Counter>(rt: &impl Abort, counter: &C, cases: &[Case]) {
    for (i, case) in cases.iter().enumerate() {
        assert!(rt; entered(rt, counter, case) == case.answer, "case {i}");
    }
}

/// Checks for each of 21 test cases that a meter entry is recorded, or refused for the expected
/// fault, which is the first fault that applies.
#[test]
fn entries_are_booked_or_refused(rt: HostRuntime) {
    enters(&rt, &Acc32, &CASES);
}

/// Checks that an entry with a count that its counter cannot show is refused.
#[test]
fn entries_match_the_range_of_the_counter(rt: HostRuntime) {
    enters(&rt, &ranged(&rt, 1_000_000), &BELOW_A_MILLION);
    enters(&rt, &ranged(&rt, 65_536), &BELOW_65536);
}
