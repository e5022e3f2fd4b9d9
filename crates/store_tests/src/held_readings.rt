//! Tests that queries return rejected readings with all their fields.
use crate::new_books::ready;
use crate::tables::strict;
use energy_core::Cause;
use office_books::{RowSink, Span};
use office_events::{HeldReading, Name};
use office_store::holds;
use sqlite::{Alter, Connection};
use std::alloc::Global;
use std::process::Abort;

/// SQL statements that insert two rejected readings of the meter m1, and between them one rejected
/// reading of the meter m0. The second reading of m1 has an earlier timestamp than the first.
const HOLDS: &str =
    "DELETE FROM holds; INSERT INTO installations VALUES (2, 'm0', 'main', 20000, 1, 2000, 0, 0, 0);
INSERT INTO holds VALUES (3, 'm1', 2, 1500, 4294967295, -32768, 1), (1, 'm1', 1, 1900, 0, 32767, 8), (2, 'm0', 2, 2000, 7, 0, 6)";

/// A rejected reading: its poll, timestamp, counter value, scale factor and cause.
type Shown = (u64, u64, u32, i16, Cause);

/// Collects the rejected readings that a query returns, and records whether memory sufficed for all
/// of them.
#[derive(Drop)]
struct Taken {
    readings: Vec<HeldReading>,
    is_whole: bool,
}

impl RowSink<HeldReading> for Taken {
    ghost use Rattle.std.specs.Prelude.{⊤};

    ghost takes = { λ before reading after. ⊤ };

    fn put(&mut self, reading: HeldReading) {
        self.is_whole = self.readings.push(reading).is_ok() && self.is_whole;
    }
}

/// Creates a store that has the rejected readings of `HOLDS`.
fn held<S: Alter + Drop>(
    rt: &impl Abort,
    alloc: Global,
    connection: Connection<S>,
) -> Connection<S> {
    let mut conn = strict(rt, alloc, connection);
    conn.execute_batch(HOLDS).expect(rt, "no batch");
    conn
}

/// Asserts that a query for the rejected readings in a span of time returns the given rejected
/// readings of the meter m1, in the given order.
fn assert_readings<S: Alter>(
    rt: &impl Abort,
    alloc: Global,
    conn: &mut Connection<S>,
    span: Span,
    wanted: &[Shown],
) {
    ready(conn).expect(rt, "no idle books");
    let meter = Name::new(b"m1").expect(rt, "no name");
    let mut taken = Taken {
        readings: Vec::new(alloc),
        is_whole: true,
    };
    assert!(rt; holds(conn, &meter, span, &mut taken) == Ok(()));
    assert!(rt; taken.is_whole && taken.readings.len() == wanted.len());
    for (reading, shown) in taken.readings.iter().zip(wanted.iter()) {
        let (poll, at, raw, sf, cause) = *shown;
        let shown = HeldReading {
            meter,
            poll,
            at,
            raw,
            sf,
            cause,
        };
        assert!(rt; *reading == shown, "{poll}");
    }
}

/// A time span, with the rejected readings of the meter m1 that lie in the span.
struct Part {
    from: u64,
    till: u64,
    wanted: &'static [Shown],
}

static PARTS: [Part; 5] = [
    Part {
        from: 0,
        till: u64::MAX,
        wanted: &[
            (1, 1900, 0, 32_767, Cause::NotBelowRange),
            (2, 1500, 4_294_967_295, -32_768, Cause::NotAccumulated),
        ],
    },
    Part {
        from: 1500,
        till: 1900,
        wanted: &[(2, 1500, 4_294_967_295, -32_768, Cause::NotAccumulated)],
    },
    Part {
        from: 1501,
        till: 1901,
        wanted: &[(1, 1900, 0, 32_767, Cause::NotBelowRange)],
    },
    Part {
        from: 1901,
        till: 2001,
        wanted: &[],
    },
    Part {
        from: u64::MAX,
        till: 0,
        wanted: &[],
    },
];

/// Asserts the results of queries for all rejected readings, and for the rejected readings in each
/// time span. Returns the store.
pub(crate) fn they_are_handed_on<S: Alter + Drop>(
    rt: &impl Abort,
    alloc: Global,
    connection: Connection<S>,
) -> S {
    let mut conn = held(rt, alloc, connection);
    assert_readings(rt, alloc, &mut conn, Span::All, PARTS[0].wanted);
    for part in &PARTS {
        let span = Span::Between {
            from: part.from,
            till: part.till,
        };
        assert_readings(rt, alloc, &mut conn, span, part.wanted);
    }
    conn.into_store()
}
