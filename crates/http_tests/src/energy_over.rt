//! Tests of the energy of an accounting register (a named counter) by day and month, summed over
//! earlier database files and the current file.
use crate::cases::sized_reply;
use crate::office::{polled, responded, unmetered, utc};
use carried_books::{EarlierDays, EarlierRegister, JoinedDays};
use interval_core::Share;
use office_books::{Books, RowSink};
use office_core::Office;
use office_events::{Installation, Name};
use std::alloc::Global;
use std::process::Abort;

// Returns the energy of each day, summed from quarter hours.
fn days_of(rt: &impl Abort, alloc: Global, rows: &[Share]) -> EarlierDays {
    let mut days = JoinedDays::new(alloc, utc(rt));
    for row in rows {
        days.put(*row);
    }
    EarlierDays::new(days)
}

/// Returns an accounting register (a named counter) of earlier database files, built from the given
/// name, meters and interval rows (energies of quarter hours).
pub(crate) fn earlier_register(
    rt: &impl Abort,
    alloc: Global,
    name: &[u8],
    meters: &[Installation],
    rows: &[Share],
) -> EarlierRegister {
    EarlierRegister {
        name: Name::new(name).expect(rt, "no name"),
        meters: meters.to_vec(alloc).expect(rt, "no memory"),
        days: days_of(rt, alloc, rows),
    }
}

// A request for energy, and the status and the body of its response.
type Asked = (&'static [u8], &'static str, &'static str);

// Asserts the responses to HTTP requests for energy over the current database file and earlier
// files. Of the two registers `main` in the earlier files, only the first has energy: the quarter
// hours `rows`.
fn assert_energy<B: Books>(
    rt: &impl Abort,
    alloc: Global,
    office: &mut Office<B>,
    rows: &[Share],
    asked: &[Asked],
) {
    let names: [&[u8]; 3] = [b"spare", b"main", b"main"];
    let mut registers = Vec::new(alloc);
    for name in names {
        let rows = if registers.len() == 1 { rows } else { &[] };
        registers
            .push(earlier_register(rt, alloc, name, &[], rows))
            .expect(rt, "no memory");
    }
    for (request, status, body) in asked {
        let text = responded(rt, alloc, office, &registers, request);
        let wanted = sized_reply(alloc, status, body).expect(rt, "no memory");
        assert!(rt; text.as_slice() == wanted.as_bytes(), "{body}");
    }
}

static EARLIER: [Share; 2] = [Share { start: 0, mwh: 5 }, Share { start: 900, mwh: 7 }];

// HTTP requests for energy, with their responses. The current database file has energy in the
// quarter hours that begin at 900 s and at 1800 s. The earlier file also has energy in the quarter
// hour from 900 s: the two energies are added, and the quarter hour counts once.
static OF_BOTH: [Asked; 5] = [
    (
        b"GET /registers/main/days/1970-01-01/1970-01-02 HTTP/1.1\r\n\r\n",
        "200 OK",
        "1970-01-01   3                   200012\nend 1\n",
    ),
    (
        b"GET /registers/main/months HTTP/1.1\r\n\r\n",
        "200 OK",
        "1970-01    3                   200012\nend 1\n",
    ),
    (
        b"GET /registers/main/days/1969-12-01/1970-01-01 HTTP/1.1\r\n\r\n",
        "200 OK",
        "end 0\n",
    ),
    (
        b"GET /registers/main/days/1970-01-02/1970-02-01 HTTP/1.1\r\n\r\n",
        "200 OK",
        "end 0\n",
    ),
    (
        b"GET /registers/none/months HTTP/1.1\r\n\r\n",
        "404 Not Found",
        "{\"refused\":1}",
    ),
];

static OF_EARLIER: [Asked; 1] = [(
    b"GET /registers/main/months HTTP/1.1\r\n\r\n",
    "200 OK",
    "1970-01    2                       12\nend 1\n",
)];

// A quarter hour of the earlier database file that starts at 901 s, after the first quarter hour of
// the current file (900 s).
static LATE: [Share; 1] = [Share { start: 901, mwh: 1 }];

static OF_LATE: [Asked; 1] = [(
    b"GET /registers/main/months HTTP/1.1\r\n\r\n",
    "503 Service Unavailable",
    "{\"refused\":13}",
)];

// Checks that the daily energy of an accounting register (a named counter) is summed over all
// database files. If damaged rows have times that go back, the response is 503.
#[test]
fn days_are_those_of_all_files(rt: HostRuntime) {
    let files: [(bool, &[Share], &[Asked]); 3] = [
        (true, &EARLIER, &OF_BOTH),
        (false, &EARLIER, &OF_EARLIER),
        (true, &LATE, &OF_LATE),
    ];
    for (is_metered, rows, asked) in files {
        let mut office = if is_metered {
            polled(&rt, rt.alloc())
        } else {
            unmetered(&rt, rt.alloc())
        };
        assert_energy(&rt, rt.alloc(), &mut office, rows, asked);
    }
}
