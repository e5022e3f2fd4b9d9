//! Tests queries that no HTTP request can make: for some of a meter's entries, and for its quarter
//! hours in a time span.
use crate::offices::{READ, event_of, office_after};
use crate::site::LINES;
use crate::tried::{Trial, try_in_memory};
use energy_core::{Entry, Last};
use energy_report::RowLines;
use meter_journal::{EntryKind, EntryRow};
use office_books::{Books, MeterEntry, Span};
use office_core::Office;
use office_events::{Name, Refusal};
use std::alloc::Global;
use std::process::Abort;

const BEGUN: MeterEntry = MeterEntry::Opening(Last {
    at: 1000,
    raw: 5000,
    sf: 0,
});

macro_rules! later {
    ($place:expr, $kind:expr, $stands:expr, $sf:expr, $entry:expr) => {
        MeterEntry::Later {
            row: EntryRow {
                place: $place,
                kind: $kind,
                entry: $entry,
                stands: $stands,
            },
            sf: $sf,
        }
    };
}

const SHOWN: Entry = Entry::Step {
    at: 1900,
    raw: 5200,
    rolls: 0,
};

// The entry that closes the meter m1 in an exchange of meters.
const CLOSED: MeterEntry = later!(2, EntryKind::Closing, true, 0, SHOWN);

const VOIDED: MeterEntry = later!(2, EntryKind::Reading, false, 0, SHOWN);

const RESCALED: MeterEntry = later!(
    3,
    EntryKind::Rescale,
    true,
    1,
    Entry::Change {
        at: 2800,
        before: 5300,
        after: 3,
        sf: 1,
    }
);

// Test cases: a sequence number, a maximum number of entries, and the entries of the meter m1 that
// a query with these two limits must return.
type Asked = (u64, u32, &'static [MeterEntry]);

static ENTRIES: [Asked; 7] = [
    (0, 9, &[BEGUN, CLOSED]),
    (1, 2, &[BEGUN, CLOSED]),
    (1, 1, &[BEGUN]),
    (2, 1, &[CLOSED]),
    (3, 9, &[]),
    (1, 0, &[]),
    (u64::MAX, u32::MAX, &[]),
];

static CHANGED: [Asked; 1] = [(0, 9, &[BEGUN, VOIDED, RESCALED])];

static CHANGES: [&str; 2] = ["1901 void m1 2", "2800 rescale main 5300 3 1"];

fn assert_entries<B: Books>(rt: &impl Abort, office: &mut Office<B>, asked: &[Asked]) {
    for (from, most, wanted) in asked {
        let entries = office
            .entries(&Name::new(b"m1"), *from, *most)
            .ok()
            .expect(rt, "entries");
        assert!(rt; entries.as_slice() == *wanted, "{from} {most}");
    }
}

// Time spans, each with the expected printed lines of the quarter hours that begin in the span.
static SPANS: [(u64, u64, &[u8]); 3] = [
    (900, 900, b""),
    (901, u64::MAX, b"1800 22223\n"),
    (0, 1800, b"900 177777\n"),
];

// Prints the quarter hours of a meter that begin in a time span.
fn print_span<B: Books>(
    office: &mut Office<B>,
    meter: &[u8],
    span: Span,
    text: &mut Vec<u8>,
) -> Result<(), Refusal> {
    let mut rows = RowLines::to(text);
    office.intervals_within(&Name::new(meter), span, &mut rows)
}

fn assert_spans<B: Books>(rt: &impl Abort, alloc: Global, office: &mut Office<B>) {
    for (from, till, wanted) in SPANS {
        let mut text = Vec::new(alloc);
        let span = Span::Between { from, till };
        assert!(rt; print_span(office, b"m1", span, &mut text) == Ok(()));
        assert!(rt; text.as_slice() == wanted, "{from} {till}");
    }
}

// Asserts that a query for the entries or the quarter hours of a meter is refused if no meter has
// the name.
fn assert_none<B: Books>(rt: &impl Abort, alloc: Global, office: &mut Office<B>) {
    for name in [Name::new(b"main"), None] {
        assert!(rt; matches!(office.entries(&name, 1, 9), Err(Refusal::NotFound)));
    }
    let mut text = Vec::new(alloc);
    let answer = print_span(office, b"main", Span::All, &mut text);
    assert!(rt; answer == Err(Refusal::NotFound));
    assert!(rt; text.is_empty());
}

pub(crate) fn ask_parts<B: Books>(rt: &impl Abort, alloc: Global, books: B) {
    let mut office = office_after(rt, alloc, books, &LINES);
    assert_entries(rt, &mut office, &ENTRIES);
    assert_spans(rt, alloc, &mut office);
    assert_none(rt, alloc, &mut office);
}

pub(crate) fn ask_changed<B: Books>(rt: &impl Abort, alloc: Global, books: B) {
    let mut office = office_after(rt, alloc, books, &READ);
    for line in CHANGES {
        let (at, event) = event_of(rt, alloc, line);
        assert!(rt; office.feed(at, &event).is_ok(), "{line}");
    }
    assert_entries(rt, &mut office, &CHANGED);
}

/// A query returns exactly the entries from a sequence number on, or the quarter hours that begin
/// in a time span.
#[test]
fn some_entries_and_quarter_hours_are_listed(rt: HostRuntime) {
    try_in_memory(&rt, rt.alloc(), Trial::Parts);
    try_in_memory(&rt, rt.alloc(), Trial::Changes);
}
