//! Tests the shares of a step (the energy between two entries), one share for each quarter hour
//! that the step touches.
use energy_core::Step;
use interval_core::{INTERVAL, Share, Shares};
use std::alloc::{AllocError, Global};
use std::process::Abort;

struct Case {
    step: Step,
    shares: &'static [Share],
}

/// Creates a step (the energy between two entries) from its two times and its energy in mWh.
macro_rules! step {
    ($from:expr, $till:expr, $mwh:expr) => {
        Step {
            from: $from,
            till: $till,
            mwh: $mwh,
        }
    };
}

macro_rules! share {
    ($start:expr, $mwh:expr) => {
        Share {
            start: $start,
            mwh: $mwh,
        }
    };
}

pub(crate) use share;
pub(crate) use step;

static CASES: [Case; 8] = [
    Case {
        step: step!(800, 2000, 1000),
        shares: &[share!(0, 83), share!(900, 750), share!(1800, 167)],
    },
    Case {
        step: step!(1000, 1900, 200_000),
        shares: &[share!(900, 177_777), share!(1800, 22_223)],
    },
    Case {
        step: step!(1900, 2800, 100_000),
        shares: &[share!(1800, 88_888), share!(2700, 11_112)],
    },
    Case {
        step: step!(901, 902, 7),
        shares: &[share!(900, 7)],
    },
    Case {
        step: step!(900, 2700, 11),
        shares: &[share!(900, 5), share!(1800, 6)],
    },
    Case {
        step: step!(0, 1800, 0),
        shares: &[share!(0, 0), share!(900, 0)],
    },
    Case {
        step: step!(899, 901, 1),
        shares: &[share!(0, 0), share!(900, 1)],
    },
    Case {
        step: step!(4_102_444_799, 4_102_444_800, 3),
        shares: &[share!(4_102_443_900, 3)],
    },
];

/// Test energies in mWh of steps (between two entries) that begin at 0 s and touch 3,000 quarter
/// hours.
static LONG: [u64; 3] = [0, 1000, 4_000_000_000_000_000_000];

/// Returns how the energy of a step (between two entries) is divided among quarter hours.
pub fn shares_of(rt: &impl Abort, alloc: Global, step: &Step) -> Result<Vec<Share>, AllocError> {
    assert!(rt; step.from < step.till);
    assert!(rt; (step.till - 1) / 900 - step.from / 900 < 3000);
    assert!(rt; step.mwh <= 4_000_000_000_000_000_000);
    Shares::of(step).collect(alloc)
}

fn sum(shares: &[Share]) -> u64 {
    let mut sum = 0u64;
    for share in shares {
        sum = sum.saturating_add(share.mwh);
    }
    sum
}

/// Checks that the energy of a step (between two entries) is spread over the quarter hours that the
/// step touches.
#[test]
fn a_step_is_spread_over_its_intervals(rt: HostRuntime) {
    for (i, case) in CASES.iter().enumerate() {
        let shares = shares_of(&rt, rt.alloc(), &case.step).expect(&rt, "no shares");
        assert!(rt; shares.as_slice() == case.shares, "case {i}");
    }
}

/// Checks that no energy is lost if a step (between two entries) is divided among 3,000 quarter
/// hours.
#[test]
fn three_thousand_intervals_lose_nothing(rt: HostRuntime) {
    for mwh in LONG {
        let shares = shares_of(&rt, rt.alloc(), &step!(0, 3000 * INTERVAL, mwh)).expect(
            &rt,
            "no shares",
        );
        assert!(rt; shares.len() == 3000 && sum(&shares) == mwh, "{mwh}");
    }
}
