//! Tests each kind of event and query over a store that fails at a chosen call.
use crate::offices::{inv, opened, request_of};
use crate::scripts::{print_event, print_line};
use crate::tried::{Trial, try_failing};
use office_books::Books;
use office_core::Office;
use office_events::Refusal;
use std::alloc::Global;
use std::process::Abort;
use std::str;

enum Kind {
    /// The script line is a command or a query. If the store fails, the test sends this line again.
    Asks,
    /// The script line is a command in a request whose idempotency key has this number. If the
    /// store fails, the test sends this line again.
    Requests(u64),
    /// The script line is a device event. If the store fails during the event, queries must print
    /// these rows after a restart.
    Happens(&'static str),
}

struct Line {
    kind: Kind,
    line: &'static str,
    printed: &'static str,
}

macro_rules! asks {
    ($line:expr, $printed:expr) => {
        Line {
            kind: Kind::Asks,
            line: $line,
            printed: $printed,
        }
    };
}

macro_rules! requests {
    ($number:expr, $line:expr) => {
        Line {
            kind: Kind::Requests($number),
            line: $line,
            printed: "ok\n",
        }
    };
}

macro_rules! happens {
    ($line:expr, $printed:expr, $rows:expr) => {
        Line {
            kind: Kind::Happens($rows),
            line: $line,
            printed: $printed,
        }
    };
}

static LINES: [Line; 27] = [
    asks!("1000 device inv 1 5 1", "ok\n"),
    requests!(1, "1000 register main inv 3 40094 @40096"),
    asks!("1000 install main m1 5000 0 100000", "ok\n"),
    happens!("1898 connect inv", "ok\n", ""),
    asks!(
        "1898 start inv 3 40094 3",
        "started 1 1 1 00000000000601039c9e0003\n"
    ),
    happens!(
        "1900 bytes inv 000000000009010306000014500000",
        "poll 1 answered\nreading m1 5200 rolls 0 step 200000\nok\n",
        "poll 1 lost 4
refused 1
refused 1
refused 1
meter m1 last 5000 sf 0 at 1000 total 0 open
refused 1
"
    ),
    asks!(
        "1900 start inv 3 40094 3",
        "started 2 1 1 00010000000601039c9e0003\n"
    ),
    happens!(
        "1905 tick",
        "poll 2 silent\nok\n",
        "poll 1 answered
poll 2 lost 4
refused 1
refused 1
meter m1 last 5200 sf 0 at 1900 total 200000 open
refused 1
"
    ),
    asks!(
        "meter m1",
        "meter m1 last 5200 sf 0 at 1900 total 200000 open\n"
    ),
    asks!("poll 2", "poll 2 silent\n"),
    asks!("intervals m1", "900 177777\n1800 22223\nend 2\n"),
    asks!(
        "days main",
        "1970-01-01   2                   200000\nend 1\n"
    ),
    asks!("1905 round inv 0", "refused 1\n"),
    asks!("1905 void m1 3", "refused 1\n"),
    requests!(2, "2800 exchange main 5300 0 m2 0 0 100000"),
    requests!(2, "2800 exchange main 5300 0 m2 0 0 100000"),
    asks!("2900 reset main 0 10", "ok\n"),
    asks!("3000 rescale main 10 1 1", "ok\n"),
    asks!("3650 manual main 1 0 3600", "ok\n"),
    asks!(
        "3699 start inv 3 40094 3",
        "started 3 1 1 00020000000601039c9e0003\n"
    ),
    happens!(
        "3700 bytes inv 000200000009010306000000020001",
        "poll 3 answered\nreading m2 2 rolls 0 step 10000\nok\n",
        "poll 1 answered
poll 2 silent
poll 3 lost 4
refused 1
meter m1 last 5300 sf 0 at 2800 total 300000 ended
meter m2 last 1 sf 1 at 3600 total 0 open
"
    ),
    asks!("4000 void m2 5", "ok\n"),
    asks!(
        "4000 start inv 3 40094 3",
        "started 4 1 1 00030000000601039c9e0003\n"
    ),
    happens!(
        "4001 gone inv",
        "poll 4 lost 1\nok\n",
        "poll 1 answered
poll 2 silent
poll 3 answered
poll 4 lost 4
meter m1 last 5300 sf 0 at 2800 total 300000 ended
meter m2 last 1 sf 1 at 3600 total 0 open
"
    ),
    happens!("4001 connect inv", "ok\n", ""),
    asks!("4001 close main 1 0", "ok\n"),
    asks!(
        "4001 start inv 3 40094 3",
        "started 5 1 1 00000000000601039c9e0003\n"
    ),
];

// A query that is sent after a restart. The restart records the pending poll as lost.
static END: Line = asks!("poll 5", "poll 5 lost 4\n");

static ROWS: [&str; 6] = [
    "poll 1", "poll 2", "poll 3", "poll 4", "meter m1", "meter m2",
];

// Script lines that must be refused after a failure. If the store fails during a device event,
// `sunreg` refuses everything until a restart.
static ASKED: [&str; 7] = [
    "9000 tick",
    "9000 connect inv",
    "9000 device b 1 5 1",
    "meter m1",
    "poll 1",
    "intervals m1",
    "days main",
];

fn is_stopped<T: Drop>(answer: Result<T, Refusal>) -> bool {
    matches!(answer, Err(Refusal::Stopped))
}

// Returns true if a stopped office (the core of `sunreg`) also refuses the queries that no script
// line can send.
fn has_stopped<B: Books>(office: &mut Office<B>) -> bool {
    is_stopped(office.device(&inv()))
        && is_stopped(office.register(&inv()))
        && is_stopped(office.installation(&inv()))
        && is_stopped(office.site())
        && is_stopped(office.repeat(&inv(), 1, b""))
}

/// Asserts that an office (the core of `sunreg`) that a failure has stopped refuses all events and
/// queries.
pub(crate) fn assert_stopped<B: Books>(rt: &impl Abort, alloc: Global, office: &mut Office<B>) {
    for line in ASKED {
        let printed = print_line(rt, alloc, office, line);
        assert!(rt; printed.as_slice() == b"refused 15\n".as_slice(), "{line}");
    }
    assert!(rt; has_stopped(office));
}

fn print_kind<B: Books>(
    rt: &impl Abort,
    alloc: Global,
    office: &mut Office<B>,
    line: &Line,
) -> Vec<u8> {
    match line.kind {
        Kind::Asks | Kind::Happens(_) => print_line(rt, alloc, office, line.line),
        Kind::Requests(number) => {
            let (at, event) = request_of(rt, alloc, b"desk", number, line.line);
            print_event(rt, alloc, office, at, &event)
        }
    }
}

// Runs a script line. If a failure of the store stops the office (the core of `sunreg`), returns
// the rows that queries must print after a restart.
fn play_line<B: Books>(
    rt: &impl Abort,
    alloc: Global,
    office: &mut Office<B>,
    line: &Line,
) -> Option<&'static str> {
    let mut printed = print_kind(rt, alloc, office, line);
    if printed.as_slice() == b"refused 13\n".as_slice() {
        if let Kind::Happens(rows) = line.kind {
            return Some(rows);
        }
        printed = print_kind(rt, alloc, office, line);
    }
    assert!(rt;
        str::from_utf8(&printed) == Ok(line.printed),
        "{}",
        line.line
    );
    None
}

// Restarts an office (the core of `sunreg`) that a failure has stopped. Asserts that queries then
// print the rows `rows`, and that no poll is pending. Returns the number of failures of the store.
fn open_again<B: Books>(rt: &impl Abort, alloc: Global, mut office: Office<B>, rows: &str) -> u64 {
    assert_stopped(rt, alloc, &mut office);
    let mut again = opened(rt, alloc, office.into_books(), 9000);
    let mut printed = Vec::new(alloc);
    for line in ROWS {
        let row = print_line(rt, alloc, &mut again, line);
        printed.extend_from_slice(&row).expect(rt, "memory");
    }
    assert!(rt; str::from_utf8(&printed) == Ok(rows));
    again.into_books().faults()
}

/// Runs all script lines of this test over a store, and returns the number of failures of the
/// store.
pub(crate) fn play<B: Books>(rt: &impl Abort, alloc: Global, books: B) -> u64 {
    let mut office = opened(rt, alloc, books, 0);
    for line in &LINES {
        if let Some(rows) = play_line(rt, alloc, &mut office, line) {
            return open_again(rt, alloc, office, rows);
        }
    }
    let mut last = opened(rt, alloc, office.into_books(), 9000);
    let _rows = play_line(rt, alloc, &mut last, &END);
    last.into_books().faults()
}

/// If one call to the store fails, a command can be repeated and then succeeds. A failure during a
/// device event stops the office (the core of `sunreg`) until a restart, and earlier records
/// remain.
#[test]
fn each_call_of_the_books_may_fail(rt: HostRuntime) {
    for failing in 1..1000 {
        let faults = try_failing(&rt, rt.alloc(), failing, Trial::Script);
        if faults == 0 {
            assert!(rt; failing as usize > LINES.len(), "{failing} calls");
            return;
        }
        assert!(rt; faults == 1);
    }
    panic!(rt; "a call fails each time");
}
