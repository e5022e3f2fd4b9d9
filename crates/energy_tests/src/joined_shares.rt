//! Tests that the energies of several steps (between consecutive entries) are merged into one
//! energy row for each quarter hour.
use energy_core::Step;
use interval_core::Share;
use meter_journal::{append_shares, join};

/// The expected interval rows (energy by quarter hour) of the two steps (between entries) in the
/// test `steps_share_an_interval`.
const ROWS: [Share; 3] = [
    Share {
        start: 900,
        mwh: 177_777,
    },
    Share {
        start: 1800,
        mwh: 111_111,
    },
    Share {
        start: 2700,
        mwh: 11_112,
    },
];

/// Checks that two steps (each between two entries) in one quarter hour are merged into one energy
/// row.
#[test]
fn steps_share_an_interval(rt: HostRuntime) {
    let mut rows = Vec::new(rt.alloc());
    let first = Step {
        from: 1000,
        till: 1900,
        mwh: 200_000,
    };
    append_shares(&mut rows, &first).expect(&rt, "no memory");
    let second = Step {
        from: 1900,
        till: 2800,
        mwh: 100_000,
    };
    let so_far: u64 = rows.iter().map(|row| row.mwh).sum();
    assert!(rt; so_far <= 1_000_000);
    append_shares(&mut rows, &second).expect(&rt, "no memory");
    assert!(rt; rows.as_slice() == ROWS.as_slice());
}

const THREE: Share = Share { start: 900, mwh: 3 };

const FOUR: Share = Share { start: 900, mwh: 4 };

const SEVEN: Share = Share { start: 900, mwh: 7 };

const NEXT: Share = Share {
    start: 1800,
    mwh: 0,
};

/// Checks that the row of a quarter hour stays pending until energy of another quarter hour
/// arrives.
#[test]
fn one_row_stays_open(rt: HostRuntime) {
    let mut pending = None;
    assert!(rt; join(&mut pending, THREE).is_none());
    pending = Some(THREE);
    assert!(rt; join(&mut pending, FOUR).is_none());
    assert!(rt; pending == Some(SEVEN));
    pending = Some(SEVEN);
    assert!(rt; join(&mut pending, NEXT) == Some(SEVEN));
    assert!(rt; pending == Some(NEXT));
}
