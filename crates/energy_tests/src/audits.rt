//! Tests of the audit, which checks the rows that the database tables have for a meter.
ghost use Rattle.std.specs.Prelude.{◌<◌, ◌^◌};

use crate::samples::HOUSE;
use energy_core::{Cause, TermFault};
use interval_core::Share;
use meter_journal::audit::{
    IntervalDifference, IntervalFault, RefusedRow, RowFault, RowKind, TableRow, check_rows,
    drop_done, first_difference, start, take_row,
};
use std::test::Fail;

/// A row of the entry table, for a reading of 5200 counts at 1900 s. The meter was installed at
/// 1000 s with 5000 counts.
const FIRST: TableRow = TableRow {
    place: 2,
    kind: RowKind::Reading,
    moment: 1900,
    raw: 5200,
    rolls: 0,
    after: 0,
    sf: 0,
    is_voided: false,
};

/// A row of the entry table, for a reading of 5300 counts at 2800 s.
const SECOND: TableRow = TableRow {
    place: 3,
    kind: RowKind::Reading,
    moment: 2800,
    raw: 5300,
    rolls: 0,
    after: 0,
    sf: 0,
    is_voided: false,
};

const SHARES: [Share; 2] = [
    Share {
        start: 900,
        mwh: 177_777,
    },
    Share {
        start: 1800,
        mwh: 22_223,
    },
];

/// Returns the fault for which the audit refuses a row after the meter's first entry, or `None` if
/// the audit accepts the row.
fn refused(row: TableRow) -> Option<RowFault>
    requires { row.place < 2 ^ 63 }
{
    match check_rows(&HOUSE, &[row]) {
        Ok(_) => None,
        Err(RefusedRow { index: _, fault }) => Some(fault),
    }
}

/// Checks the interval rows (energy by quarter hour) that follow from one row of the entry table.
#[test]
fn rows_give_intervals(rt: HostRuntime) {
    let mut progress = start(rt.alloc(), &HOUSE);
    let fault = take_row(&HOUSE, &mut progress, &FIRST).expect(&rt, "no row");
    assert!(rt; fault.is_none());
    assert!(rt; progress.check.total == 200_000);
    assert!(rt; progress.wanted.as_slice() == SHARES.as_slice());
    drop_done(&mut progress);
    assert!(rt; progress.wanted.as_slice() == &SHARES[1..]);
}

/// Checks that the next row of the entry table adds energy to the last interval row (energy of a
/// quarter hour).
#[test]
fn a_row_adds_to_the_last_interval(rt: HostRuntime) -> Result<(), Fail> {
    let mut progress = start(rt.alloc(), &HOUSE);
    let _first = take_row(&HOUSE, &mut progress, &FIRST)?;
    drop_done(&mut progress);
    let fault = take_row(&HOUSE, &mut progress, &SECOND)?;
    assert!(rt; fault.is_none());
    assert!(rt; progress.check.total == 300_000);
    assert!(rt; progress.wanted.len() == 2);
    assert!(rt; progress.wanted[0].start == 1800 && progress.wanted[0].mwh == 111_111);
    assert!(rt; progress.wanted[1].start == 2700 && progress.wanted[1].mwh == 11_112);
    Ok(())
}

/// Checks that a voided (cancelled) row of the entry table adds no interval rows (energy by quarter
/// hour).
#[test]
fn a_voided_row_gives_none(rt: HostRuntime) {
    let mut progress = start(rt.alloc(), &HOUSE);
    let row = TableRow {
        is_voided: true,
        ..FIRST
    };
    let fault = take_row(&HOUSE, &mut progress, &row).expect(&rt, "no row");
    assert!(rt; fault.is_none());
    assert!(rt; progress.check.place == 2 && progress.check.total == 0);
    assert!(rt; progress.wanted.is_empty());
}

/// Checks that a voided (cancelled) reading directly after a valid (not voided) row is checked like
/// a valid reading.
#[test]
fn a_voided_row_is_checked_after_a_valid_one(rt: HostRuntime) {
    let fast = TableRow {
        raw: 50_000,
        is_voided: true,
        ..FIRST
    };
    assert!(rt; refused(fast) == Some(RowFault::Held(Cause::TooFast)));
    let before = TableRow {
        is_voided: true,
        ..FIRST
    };
    let following = TableRow { place: 3, ..fast };
    assert!(rt; check_rows(&HOUSE, &[before, following]).is_ok());
}

/// Checks that the audit continues with the next sequence number after a refused row of the entry
/// table.
#[test]
fn a_refused_row_is_passed_over(rt: HostRuntime) {
    let mut progress = start(rt.alloc(), &HOUSE);
    let fault = take_row(&HOUSE, &mut progress, &SECOND).expect(&rt, "no row");
    assert!(rt; fault == Some(RowFault::Place { wanted: 2 }));
    assert!(rt; progress.check.place == 3 && progress.check.total == 0);
}

/// Checks that the audit refuses a row of the entry table if an unused column is not 0. The audit
/// also refuses an entry other than a rescale that changes the scale factor.
#[test]
fn columns_are_looked_at(rt: HostRuntime) {
    assert!(rt; refused(FIRST).is_none());
    assert!(rt; refused(TableRow { after: 1, ..FIRST }) == Some(RowFault::Unused));
    let wanted = Some(RowFault::Scale { wanted: 0 });
    assert!(rt; refused(TableRow { sf: 1, ..FIRST }) == wanted);
    let wanted = Some(RowFault::Rolls { wanted: 0 });
    assert!(rt; refused(TableRow { rolls: 1, ..FIRST }) == wanted);
    let again = TableRow {
        kind: RowKind::Opening,
        ..FIRST
    };
    assert!(rt; refused(again) == Some(RowFault::OpenedAgain));
    let voided = TableRow {
        kind: RowKind::Manual,
        is_voided: true,
        ..FIRST
    };
    assert!(rt; refused(voided) == Some(RowFault::CannotBeVoided));
}

/// Checks that a reading above the meter's ceiling (its greatest power) is refused. An entry by
/// hand may exceed the ceiling, but its count may not go back.
#[test]
fn numbers_are_looked_at(rt: HostRuntime) {
    let fast = TableRow {
        raw: 50_000,
        ..FIRST
    };
    assert!(rt; refused(fast) == Some(RowFault::Held(Cause::TooFast)));
    let by_hand = TableRow {
        kind: RowKind::Manual,
        ..fast
    };
    assert!(rt; refused(by_hand).is_none());
    let back = TableRow {
        raw: 4999,
        ..by_hand
    };
    assert!(rt; refused(back) == Some(RowFault::Refused(TermFault::NegativeStep)));
}

/// Checks that a meter's entry rows must be in order of time. The first row that is not later than
/// the row before it is reported by its index.
#[test]
fn rows_in_their_order(rt: HostRuntime) {
    assert!(rt; check_rows(&HOUSE, &[FIRST, SECOND]).is_ok());
    let wanted = RefusedRow {
        index: 1,
        fault: RowFault::Held(Cause::NotLater),
    };
    let late = TableRow {
        moment: 1900,
        ..SECOND
    };
    assert!(rt; check_rows(&HOUSE, &[FIRST, late]) == Err(wanted));
}

/// Checks that the audit refuses a row of a meter that follows the row of the meter's closing.
#[test]
fn nothing_comes_after_a_closing(rt: HostRuntime) {
    let closing = TableRow {
        kind: RowKind::Closing,
        ..FIRST
    };
    let wanted = RefusedRow {
        index: 1,
        fault: RowFault::AfterClosing,
    };
    assert!(rt; check_rows(&HOUSE, &[closing, SECOND]) == Err(wanted));
}

/// Checks that the audit reports the first interval row (energy of a quarter hour) that differs
/// from the energy computed from the entries.
#[test]
fn intervals_differ(rt: HostRuntime) {
    assert!(rt; first_difference(&SHARES, &SHARES).is_none());
    let other = Share {
        start: 1800,
        mwh: 22_224,
    };
    let wanted = IntervalDifference {
        same: 1,
        fault: IntervalFault::Differs {
            start: 1800,
            has: 22_224,
            wanted: 22_223,
        },
        wanted_done: 2,
        found_done: 2,
    };
    assert!(rt; first_difference(&SHARES, &[SHARES[0], other]) == Some(wanted));
}

/// Checks that the audit reports an interval row (energy of a quarter hour) that only the table or
/// only the computed list has.
#[test]
fn an_interval_alone(rt: HostRuntime) {
    let wanted = IntervalDifference {
        same: 0,
        fault: IntervalFault::Missing {
            start: 900,
            wanted: 177_777,
        },
        wanted_done: 1,
        found_done: 0,
    };
    assert!(rt; first_difference(&SHARES, &SHARES[1..]) == Some(wanted));
    let wanted = IntervalDifference {
        same: 1,
        fault: IntervalFault::Unwanted {
            start: 1800,
            has: 22_223,
        },
        wanted_done: 1,
        found_done: 2,
    };
    assert!(rt; first_difference(&SHARES[..1], &SHARES) == Some(wanted));
}
