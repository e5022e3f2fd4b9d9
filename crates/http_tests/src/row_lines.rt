//! Tests of the output lines for meter entries, accounting registers (named counters) and meters
//! with the greatest numbers.
use crate::office::polled;
use energy_core::{Entry, Last};
use meter_journal::{EntryKind, EntryRow};
use office_books::MeterEntry;
use office_core::SiteRow;
use office_events::Installation;
use run_http::{SiteLine, write_entries, write_register_meters, write_site};
use std::alloc::Global;
use std::process::Abort;

// The first entry of the test meter: the greatest counter value and a negative scale factor.
const OPENING: Last = Last {
    at: 7,
    raw: u32::MAX,
    sf: -3,
};

static ENTRIES: [MeterEntry; 5] = [
    MeterEntry::Opening(OPENING),
    MeterEntry::Later {
        row: EntryRow {
            place: 2,
            kind: EntryKind::Manual,
            entry: Entry::Step {
                at: u64::MAX,
                raw: u32::MAX,
                rolls: 255,
            },
            stands: false,
        },
        sf: 3,
    },
    MeterEntry::Later {
        row: EntryRow {
            place: 3,
            kind: EntryKind::Rescale,
            entry: Entry::Change {
                at: 9,
                before: 5,
                after: 6,
                sf: -1,
            },
            stands: true,
        },
        sf: -1,
    },
    MeterEntry::Later {
        row: EntryRow {
            place: 4,
            kind: EntryKind::Reset,
            entry: Entry::Change {
                at: 10,
                before: 6,
                after: 0,
                sf: -1,
            },
            stands: true,
        },
        sf: -1,
    },
    MeterEntry::Later {
        row: EntryRow {
            place: 5,
            kind: EntryKind::Closing,
            entry: Entry::Step {
                at: 11,
                raw: 2,
                rolls: 1,
            },
            stands: true,
        },
        sf: -1,
    },
];

static ENTRY_LINES: &str =
    "1 opening 7 4294967295 0 0 -3 stands\n2 manual 18446744073709551615 4294967295 255 0 3 void\n3 rescale 9 5 0 6 -1 stands\n4 reset 10 6 0 0 -1 stands\n5 closing 11 2 1 0 -1 stands\nend 5\n";

// Tests the text that lists a meter's entries: each kind of entry has a line with the word for this
// kind.
#[test]
fn each_kind_of_entry_has_its_line(rt: HostRuntime) {
    let mut text = Vec::new(rt.alloc());
    write_entries(&mut text, &ENTRIES).expect(&rt, "no memory");
    assert!(rt; text.as_slice() == ENTRY_LINES.as_bytes());
}

static SITE: &str =
    "{\"at\":7,\"registers\":[{\"device\":\"inv\",\"register\":\"main\",\"meter\":\"m1\",\"at\":1950,\"last\":4294967295,\"sf\":-3,\"total\":\"18446744073709551615\",\"earlier\":\"18446744073709551614\",\"ended\":true},{\"device\":\"inv\",\"register\":\"main\",\"meter\":null}]}\n";

static METERS: &str =
    "m1 1000 18446744073709551615 4294967295 -10 18446744073709551615 ended\nm1 18446744073709551615 0 0 10 0 open\nend 2\n";

// Returns the accounting register (a named counter) of a device that was polled once, with its
// meter.
fn polled_row(rt: &impl Abort, alloc: Global) -> SiteRow {
    let mut office = polled(rt, alloc);
    let Ok(rows) = office.site() else {
        panic!(rt; "no rows");
    };
    rows.first().copied().expect(rt, "no row")
}

// Returns the meter of an accounting register (a named counter), closed and with the greatest
// numbers.
fn closed_in(rt: &impl Abort, row: &SiteRow, last: Last) -> Installation {
    let mut closed = row.meter.expect(rt, "no meter");
    closed.last = last;
    closed.total = u64::MAX;
    closed.ended = true;
    closed
}

// The JSON of an accounting register (a named counter) is exact for the greatest numbers, for a
// negative scale factor, and without a meter.
#[test]
fn a_site_has_its_line(rt: HostRuntime) {
    let mut row = polled_row(&rt, rt.alloc());
    let last = Last {
        at: 1950,
        raw: u32::MAX,
        sf: -3,
    };
    row.meter = Some(closed_in(&rt, &row, last));
    let mut bare = row;
    bare.meter = None;
    let lines = [
        SiteLine {
            row,
            earlier: Some(u64::MAX - 1),
        },
        SiteLine {
            row: bare,
            earlier: None,
        },
    ];
    let mut text = Vec::new(rt.alloc());
    write_site(&mut text, 7, &lines).expect(&rt, "no memory");
    assert!(rt; text.as_slice() == SITE.as_bytes());
}

// The lines for the meters of an accounting register (a named counter) are exact for the greatest
// numbers and for 0.
#[test]
fn each_number_of_a_meter_may_be_the_greatest(rt: HostRuntime) {
    let row = polled_row(&rt, rt.alloc());
    let closed = closed_in(
        &rt,
        &row,
        Last {
            at: u64::MAX,
            raw: u32::MAX,
            sf: -10,
        },
    );
    let mut open = row.meter.expect(&rt, "no meter");
    open.opening.at = u64::MAX;
    open.last = Last {
        at: 0,
        raw: 0,
        sf: 10,
    };
    open.total = 0;
    let mut text = Vec::new(rt.alloc());
    write_register_meters(&mut text, &[closed, open]).expect(&rt, "no memory");
    assert!(rt; text.as_slice() == METERS.as_bytes());
}
