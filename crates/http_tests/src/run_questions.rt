//! Tests of the responses of `sunreg run` while the database fails, and of a query for meter
//! entries from the greatest index on.
use crate::cases::sized_reply;
use crate::office::{polled, polled_store, responded, response_of};
use memory_books::FailingBooks;
use office_books::Books;
use office_core::Office;
use office_events::Name;
use run_http::RunRoute;
use std::alloc::Global;
use std::process::Abort;

// Returns the HTTP response of an `Office` (the core of `sunreg`) over a database, or `None` if the
// `Office` cannot be opened.
fn replied_over<B: Books>(
    rt: &impl Abort,
    alloc: Global,
    books: B,
    request: &[u8],
) -> Option<Vec<u8>> {
    let Ok(mut office) = Office::open(alloc, books, 2800) else {
        return None;
    };
    Some(responded(rt, alloc, &mut office, &[], request))
}

// Returns the response to an HTTP request during which database call number `failing` fails. If
// `failing` is 0, no call fails.
fn replied(rt: &impl Abort, alloc: Global, failing: u64, request: &[u8]) -> Option<Vec<u8>> {
    let books = FailingBooks::new(polled_store(rt, alloc), failing);
    replied_over(rt, alloc, books, request)
}

// Each test case has an HTTP request, and the number of database calls whose failure leads to 503.
static FAILING: [(&[u8], u8); 3] = [
    // The request for `/site` needs one database call each for the devices, for the accounting
    // registers (named counters) of the device, and for the meter.
    (b"GET /site HTTP/1.1\r\n\r\n", 3),
    (b"GET /metrics HTTP/1.1\r\n\r\n", 3),
    // This request needs one database call for the accounting register (a named counter), and one
    // for its meters.
    (b"GET /registers/main/meters HTTP/1.1\r\n\r\n", 2),
];

// Counts those database calls of a request that lead to the response 503 if they fail. If any other
// database call fails, the response is complete, or the program cannot start.
fn calls_that_fail(rt: &impl Abort, alloc: Global, request: &[u8]) -> u8 {
    let failure = sized_reply(alloc, "503 Service Unavailable", "{\"refused\":13}").expect(
        rt,
        "no memory",
    );
    let complete = replied(rt, alloc, 0, request).expect(rt, "not opened");
    let mut count = 0u8;
    for failing in 1..20 {
        if let Some(text) = replied(rt, alloc, failing, request) {
            let is_failure = text.as_slice() == failure.as_bytes();
            assert!(rt; is_failure || text.as_slice() == complete.as_slice());
            count = count.saturating_add(u8::from(is_failure));
        }
    }
    count
}

// Checks that the response is 503 if the database fails, and never an incomplete response.
#[test]
fn a_failing_store_is_unavailable(rt: HostRuntime) {
    for (request, wanted) in &FAILING {
        assert!(rt; calls_that_fail(&rt, rt.alloc(), request) == *wanted);
    }
}

// A query for entries from the greatest index on returns no entries. No request target can have
// this index.
#[test]
fn entries_from_the_greatest_index_on_are_none(rt: HostRuntime) {
    let mut office = polled(&rt, rt.alloc());
    let route = RunRoute::Entries {
        meter: Name::new(b"m1"),
        from: u64::MAX,
    };
    let text = response_of(&rt, rt.alloc(), &mut office, &[], &route);
    let wanted = sized_reply(rt.alloc(), "200 OK", "end 0\n").expect(&rt, "no memory");
    assert!(rt; text.as_slice() == wanted.as_bytes());
}
