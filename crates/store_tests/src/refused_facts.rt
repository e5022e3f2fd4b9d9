//! Tests that the store writes no row for an event if it refuses any of the event's records.
use crate::new_books::{count, ready};
use crate::tables::strict;
use energy_core::Entry;
use mb_wire::ReadSpan;
use meter_journal::EntryKind;
use office_events::{BookedEntry, Device, Fact, Name, Poll, Timeout, Window};
use office_store::book_facts;
use sqlite::{Alter, Connection};
use std::alloc::Global;
use std::process::Abort;

fn reading(rt: &impl Abort, at: u64, raw: u32) -> Fact {
    Fact::Entry(BookedEntry {
        meter: Name::new(b"m1").expect(rt, "no name"),
        kind: EntryKind::Reading,
        entry: Entry::Step { at, raw, rolls: 0 },
    })
}

fn poll(rt: &impl Abort) -> Fact {
    Fact::Poll(Poll {
        number: 3,
        device: Name::new(b"inv").expect(rt, "no name"),
        unit: 1,
        at: 4000,
        id: 7,
        span: ReadSpan::new(3, 40_094, 3).expect(rt, "no span"),
    })
}

/// Returns the record of the device `inv`, which the store of each test that uses this record
/// already has.
pub(crate) fn known_device(rt: &impl Abort) -> Fact {
    Fact::Device(Device {
        name: Name::new(b"inv").expect(rt, "no name"),
        unit: 1,
        timeout: Timeout::new(5).expect(rt, "no timeout"),
        window: Window::new(2).expect(rt, "no window"),
    })
}

/// Writes the given records in one transaction, and returns true if the store accepts all of them.
fn is_booked<S: Alter>(
    rt: &impl Abort,
    alloc: Global,
    conn: &mut Connection<S>,
    facts: &[Fact],
) -> bool {
    ready(conn).expect(rt, "no idle books");
    book_facts(alloc, conn, facts).is_ok()
}

/// Tables of the test's database with their numbers of rows. These numbers must be the same before
/// and after the store refuses records.
static COUNTS: [(&str, i64); 4] = [
    ("devices", 1),
    ("polls", 2),
    ("entries", 3),
    ("intervals", 2),
];

/// Asserts that the store refuses a device that it already has, and a reading with a lower counter
/// value, and adds no row. Then asserts that the store accepts a poll and a reading. Returns the
/// store.
pub(crate) fn they_leave_no_row<S: Alter + Drop>(
    rt: &impl Abort,
    alloc: Global,
    connection: Connection<S>,
) -> S {
    let mut conn = strict(rt, alloc, connection);
    let many = [poll(rt), reading(rt, 5000, 5300), known_device(rt)];
    let back = [reading(rt, 5000, 5100)];
    let both = [poll(rt), reading(rt, 5000, 5300)];
    assert!(rt; !is_booked(rt, alloc, &mut conn, &many));
    assert!(rt; !is_booked(rt, alloc, &mut conn, &back));
    assert!(rt; is_booked(rt, alloc, &mut conn, &[]));
    for (rows, number) in &COUNTS {
        assert!(rt; count(rt, alloc, &mut conn, rows) == Ok(*number), "{rows}");
    }
    assert!(rt; is_booked(rt, alloc, &mut conn, &both));
    conn.into_store()
}
