//! Tests of HTTP requests while one database call fails, for each database call in turn.
use crate::cases::{Case, Served, assert_reply, serve};
use crate::office::polled_store;
use crate::tables::{COMMANDS, QUESTIONS};
use memory_books::FailingBooks;
use office_books::Books;
use office_core::Office;
use std::alloc::{AllocError, Global};
use std::process::Abort;

// The HTTP response to a request during which the database fails.
static FAILED: &[u8] =
    b"HTTP/1.1 503 Service Unavailable\r\nContent-Type: application/json\r\nContent-Length: 14\r\nConnection: close\r\n\r\n{\"refused\":13}";

// Opens an `Office` (the core of `sunreg`) over a database. If the opening fails for any reason,
// `Office::open` returns the database. This function then opens an `Office` over the same database
// a second time. It panics if the second opening fails too.
fn opened<B: Books>(rt: &impl Abort, alloc: Global, books: B) -> Office<B> {
    let books = match Office::open(alloc, books, 1900) {
        Ok(office) => return office,
        Err(refused) => refused.0,
    };
    match Office::open(alloc, books, 1900) {
        Ok(office) => office,
        Err(_) => panic!(rt; "not opened again"),
    }
}

// Serves an HTTP request. If the database fails, serves the request a second time.
fn serve_again<B: Books>(
    alloc: Global,
    office: &mut Office<B>,
    case: &Case<'_>,
) -> Result<Served, AllocError> {
    let served = serve(alloc, office, case.at, case.request)?;
    if served.given.starts_with(FAILED) {
        return serve(alloc, office, case.at, case.request);
    }
    Ok(served)
}

// Serves each HTTP request, asserts the response, and returns the database.
fn serve_all<B: Books>(rt: &impl Abort, alloc: Global, books: B, cases: &[Case<'_>]) -> B {
    let mut office = opened(rt, alloc, books);
    for case in cases {
        let served = serve_again(alloc, &mut office, case).expect(rt, "no memory");
        assert_reply(rt, alloc, case, &served);
    }
    office.into_books()
}

// Serves all HTTP requests repeatedly. In repetition N, database call N fails. The repetitions end
// when the requests need fewer than N database calls.
fn fail_each(rt: &impl Abort, alloc: Global, cases: &[Case<'_>]) {
    for failing in 1..1000 {
        let books = FailingBooks::new(polled_store(rt, alloc), failing);
        if serve_all(rt, alloc, books, cases).faults() == 0 {
            assert!(rt; failing as usize > cases.len(), "{failing} calls");
            return;
        }
    }
    panic!(rt; "a call fails each time")
}

// Checks that a request gets 503 if a database call fails, and the usual response when the client
// retries.
#[test]
fn each_call_of_the_store_may_fail(rt: HostRuntime) {
    fail_each(&rt, rt.alloc(), &QUESTIONS);
    fail_each(&rt, rt.alloc(), &COMMANDS)
}
