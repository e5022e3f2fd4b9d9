//! Tests the interval rows (energy by quarter hour) and the last entry of a meter after one of its
//! readings was voided (cancelled).
use crate::samples::HOUSE;
use energy_core::{Entry, Last};
use interval_core::Share;
use meter_journal::{EntryKind, EntryRow, checked_tally, interval_rows, tally_after};

/// Two readings of a meter: 5200 counts at 1900 s, which is voided (cancelled), and 5300 counts at
/// 2800 s.
const ROWS: [EntryRow; 2] = [
    EntryRow {
        place: 2,
        kind: EntryKind::Reading,
        entry: Entry::Step {
            at: 1900,
            raw: 5200,
            rolls: 0,
        },
        stands: false,
    },
    EntryRow {
        place: 3,
        kind: EntryKind::Reading,
        entry: Entry::Step {
            at: 2800,
            raw: 5300,
            rolls: 0,
        },
        stands: true,
    },
];

const SHARES: [Share; 3] = [
    Share {
        start: 900,
        mwh: 133_333,
    },
    Share {
        start: 1800,
        mwh: 150_000,
    },
    Share {
        start: 2700,
        mwh: 16_667,
    },
];

/// Checks that the last entry and the total energy of a meter exclude a voided (cancelled) row.
#[test]
fn books_after_a_void(rt: HostRuntime) {
    let tally = tally_after(&HOUSE, &ROWS);
    assert!(rt;
        tally.last
            == Last {
                at: 2800,
                raw: 5300,
                sf: 0
            }
    );
    assert!(rt; tally.total == 300_000);
}

/// Checks that no total energy is computed from rows of the entry table that may not follow one
/// another by the rules for entries.
#[test]
fn rows_that_may_be_any(rt: HostRuntime) {
    let tally = checked_tally(&HOUSE, &ROWS).expect(&rt, "no tally");
    assert!(rt; tally.total == 300_000 && tally.last.raw == 5300);
    let back = EntryRow {
        place: 4,
        ..ROWS[1]
    };
    assert!(rt; checked_tally(&HOUSE, &[ROWS[1], back]).is_none());
}

/// Checks that the interval rows (energy by quarter hour) of a meter exclude a voided (cancelled)
/// row.
#[test]
fn rows_after_a_void(rt: HostRuntime) {
    let shares = interval_rows(rt.alloc(), &HOUSE, &ROWS).expect(&rt, "no intervals");
    assert!(rt; shares.as_slice() == SHARES.as_slice());
    assert!(rt;
        interval_rows(rt.alloc(), &HOUSE, &[])
            .expect(&rt, "no intervals")
            .is_empty()
    );
}
