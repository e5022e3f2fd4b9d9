//! Tests the functions on the list of a meter's entry rows: the check of the sequence numbers, the
//! search for a row, and the voiding (cancellation) of an entry.
use crate::samples::{HOUSE, of_kind, reading, struck};
use energy_core::{Entry, Last};
use meter_journal::{
    EntryKind, EntryRow, are_numbered, find_row, is_voidable, last_of_rows, row_after, strike,
};

/// The state of a 32-bit counter that is 96 counts before its rollover.
const TURNING: Last = Last {
    at: 1000,
    raw: 4_294_967_200,
    sf: 0,
};

/// Checks that the sequence numbers of entries continue from the number of the meter's first entry.
#[test]
fn places_count_on(rt: HostRuntime) {
    let entry = Entry::Step {
        at: 1900,
        raw: 5200,
        rolls: 0,
    };
    let first = row_after(&[], EntryKind::Reading, entry);
    assert!(rt; first == reading(2, 1900, 5200, 0));
    let after_a_void = row_after(&[struck(first)], EntryKind::Reading, entry);
    assert!(rt; after_a_void == reading(3, 1900, 5200, 0));
}

/// Checks that the entry rows of a meter must have consecutive sequence numbers.
#[test]
fn rows_have_their_places(rt: HostRuntime) {
    let rows = [reading(2, 1900, 5200, 0), struck(reading(3, 2800, 5300, 0))];
    assert!(rt; are_numbered(&[]) && are_numbered(&rows));
    assert!(rt; !are_numbered(&rows[1..]));
    assert!(rt; !are_numbered(&[rows[0], rows[0]]));
}

/// Checks that only an entry of the kind closing closes a meter.
#[test]
fn a_closing_alone_closes(rt: HostRuntime) {
    assert!(rt; EntryKind::Closing.is_closing());
    assert!(rt; !EntryKind::Reading.is_closing() && !EntryKind::Manual.is_closing());
    assert!(rt; !EntryKind::Reset.is_closing() && !EntryKind::Rescale.is_closing());
}

/// Checks that the reading after a voided (cancelled) reading keeps its own rollover.
#[test]
fn a_void_over_a_rollover(rt: HostRuntime) {
    let mut rows = [reading(2, 1900, 4_294_967_290, 0), reading(3, 2800, 104, 1)];
    strike(&TURNING, &mut rows, 2);
    assert!(rt; rows[0] == struck(reading(2, 1900, 4_294_967_290, 0)));
    assert!(rt; rows[1] == reading(3, 2800, 104, 1));
}

/// Checks that the rollover of a voided (cancelled) reading moves to the reading after it.
#[test]
fn a_void_moves_a_rollover(rt: HostRuntime) {
    let mut rows = [reading(2, 1900, 4, 1), reading(3, 2800, 104, 0)];
    strike(&TURNING, &mut rows, 2);
    assert!(rt; rows[0] == struck(reading(2, 1900, 4, 1)));
    assert!(rt; rows[1] == reading(3, 2800, 104, 1));
}

/// Checks that only a reading may be voided (cancelled), and only if the next row that is not
/// voided is a reading or does not exist.
#[test]
fn only_readings_are_voided(rt: HostRuntime) {
    let row = reading(2, 1900, 5200, 0);
    let next = reading(3, 2800, 5300, 0);
    assert!(rt; is_voidable(&row, &None));
    assert!(rt; is_voidable(&row, &Some(next)));
    assert!(rt; !is_voidable(&struck(row), &None));
    assert!(rt; !is_voidable(&of_kind(EntryKind::Manual, row), &None));
    assert!(rt; !is_voidable(&row, &Some(of_kind(EntryKind::Manual, next))));
    assert!(rt; !is_voidable(&row, &Some(of_kind(EntryKind::Closing, next))));
}

/// Checks that a meter's entry row is found by its sequence number, together with the next row that
/// is not voided (cancelled).
#[test]
fn rows_by_place(rt: HostRuntime) {
    let rows = [
        reading(2, 1900, 5200, 0),
        struck(reading(3, 2000, 5210, 0)),
        reading(4, 2800, 5300, 0),
    ];
    for (place, next) in [(2, Some(rows[2])), (3, Some(rows[2])), (4, None)] {
        let found = find_row(&rows, place).expect(&rt, "no row");
        assert!(rt; found.row.place == place && found.next == next, "{place}");
    }
    assert!(rt; find_row(&rows, 1).is_none());
    assert!(rt; find_row(&rows, 5).is_none());
}

/// Checks the counter's state after a meter's entry rows. It is that of the latest valid (not
/// voided) row, or that of the opening (the first entry) if no row is valid.
#[test]
fn the_counter_after_rows(rt: HostRuntime) {
    let first = reading(2, 1900, 5200, 0);
    let change = Entry::Change {
        at: 2000,
        before: 5200,
        after: 520,
        sf: 1,
    };
    let rows = [first, row_after(&[first], EntryKind::Rescale, change)];
    let want = Last {
        at: 2000,
        raw: 520,
        sf: 1,
    };
    assert!(rt; last_of_rows(&HOUSE.opening, &rows) == want);
    assert!(rt; last_of_rows(&HOUSE.opening, &[struck(first)]) == HOUSE.opening);
}
