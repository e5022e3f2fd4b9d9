//! Tests of an `Office` (the core of `sunreg`) whose database fails while the rows of a report are
//! written, or while a poll ends.
use crate::cases::{Case, assert_served, serve};
use crate::office::{poll, polled_store};
use crate::tables::{COMMANDS, QUESTIONS};
use memory_books::FailingBooks;
use office_books::Books;
use office_core::Office;
use office_events::Refusal;
use office_http::HandleFault;
use std::alloc::Global;
use std::process::Abort;

static INTERVALS: &[u8] = b"GET /meters/m1/intervals HTTP/1.1\r\n\r\n";

// Returns the bytes of the response that were written, if the response is cut off because the
// database fails.
fn cut<B: Books>(rt: &impl Abort, alloc: Global, books: B) -> Option<Vec<u8>> {
    let Ok(mut office) = Office::open(alloc, books, 1900) else {
        return None;
    };
    let served = serve(alloc, &mut office, 2800, INTERVALS).expect(rt, "no memory");
    match served.handled {
        Err(HandleFault::Cut) => Some(served.given),
        _ => None,
    }
}

static ROWS: &[u8] =
    b"HTTP/1.1 200 OK\r\nContent-Type: text/plain\r\nConnection: close\r\n\r\n900 177777\n1800 22223\n";

// Checks that a report has no last line if the database fails after the last row. Exactly one
// database call can fail at this point.
#[test]
fn a_text_that_is_cut_off_has_no_end(rt: HostRuntime) {
    let mut cuts = 0u8;
    for failing in 1..20 {
        let books = FailingBooks::after_rows(polled_store(&rt, rt.alloc()), failing);
        if let Some(given) = cut(&rt, rt.alloc(), books) {
            assert!(rt; given.as_slice() == ROWS);
            cuts = cuts.saturating_add(1);
        }
    }
    assert!(rt; cuts == 1);
}

// Returns an `Office` (the core of `sunreg`) that refuses everything, because a database call
// failed while a poll ended. Returns `None` if the database does not fail at this point.
fn stopped<B: Books>(rt: &impl Abort, alloc: Global, books: B) -> Option<Office<B>> {
    let Ok(mut office) = Office::open(alloc, books, 1900) else {
        return None;
    };
    let mut stops = false;
    for event in &poll(rt, alloc) {
        stops = matches!(office.feed(1900, event), Err(Refusal::Store(_)));
    }
    if stops {
        return Some(office);
    }
    None
}

// Returns whether a failure of this database stops the `Office` (the core of `sunreg`). Asserts
// that each request then gets the response 503.
fn is_unavailable<B: Books>(rt: &impl Abort, alloc: Global, books: B) -> bool {
    let Some(mut office) = stopped(rt, alloc, books) else {
        return false;
    };
    for request in [INTERVALS, COMMANDS[0].request, QUESTIONS[12].request] {
        let case = Case {
            at: 2800,
            request,
            status: "503 Service Unavailable",
            body: "{\"refused\":15}",
        };
        assert_served(rt, alloc, &mut office, &case, 400);
    }
    true
}

// Checks that after a failure of the database has stopped the `Office` (the core of `sunreg`), each
// request gets the response 503.
#[test]
fn a_stopped_office_is_unavailable(rt: HostRuntime) {
    for failing in 1..20 {
        let books = FailingBooks::new(polled_store(&rt, rt.alloc()), failing);
        if is_unavailable(&rt, rt.alloc(), books) {
            return;
        }
    }
    panic!(rt; "it never stops")
}
