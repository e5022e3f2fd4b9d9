//! Tests of HTTP requests that arrive in chunks, are cut off, or whose connection fails.
use crate::cases::{Case, assert_served, reply, serve, serve_over};
use crate::office::polled;
use crate::tables::{COMMANDS, QUESTIONS};
use office_books::Books;
use office_core::Office;
use office_http::HandleFault;
use std::alloc::Global;
use std::process::Abort;

// A request that is followed by more bytes after its body, which are ignored.
static LONGER: Case<'static> = Case {
    at: 2800,
    request: b"POST /devices HTTP/1.1\r\nContent-Length: 45\r\nOffice-Caller: anna\r\nOffice-Request: 7\r\n\r\n{\"name\":\"b\",\"unit\":2,\"timeout\":5,\"window\":16} and more",
    status: "200 OK",
    body: "{\"done\":\"device\"}",
};

// Cuts a request off at each byte, and asserts that nothing is written. Then serves the complete
// request.
fn cut_off<B: Books>(rt: &impl Abort, alloc: Global, office: &mut Office<B>, case: &Case<'_>) {
    for end in 0..case.request.len() {
        let cut = case.request.get(..end).unwrap_or(case.request);
        let served = serve(alloc, office, case.at, cut).expect(rt, "no memory");
        assert!(rt; served.handled == Err(HandleFault::Short), "{end} bytes");
        assert!(rt; served.given.is_empty());
    }
    assert_served(rt, alloc, office, case, 400);
}

// Returns whether a fault reports a failed read or write of the connection. After a failed read,
// nothing may have been written. After a failed write, the written bytes must be a prefix of the
// response.
fn is_reported(fault: HandleFault, given: &[u8], reply: &[u8]) -> bool {
    match fault {
        HandleFault::Read => given.is_empty(),
        HandleFault::Write => reply.starts_with(given),
        HandleFault::Short | HandleFault::TurnsUsed | HandleFault::Cut => false,
    }
}

// Makes each call to the connection fail in turn, until serving the HTTP request takes fewer calls.
// A retry of an executed command gets the stored response.
fn fail_each<B: Books>(rt: &impl Abort, alloc: Global, office: &mut Office<B>, case: &Case<'_>) {
    let want = reply(alloc, case.status, case.body).expect(rt, "no memory");
    for call in 1..100 {
        let served = serve_over(alloc, office, case.at, case.request, 20, Some(call)).expect(
            rt,
            "no memory",
        );
        match served.handled {
            Err(fault) => assert!(rt; is_reported(fault, &served.given, want.as_bytes())),
            Ok(()) => {
                assert!(rt; served.given.as_slice() == want.as_bytes());
                assert!(rt; call > 2, "{call} calls");
                return;
            }
        }
    }
    panic!(rt; "it fails each time")
}

// A request may arrive in chunks of any size, or be cut off at any byte. A retry gets the same
// response as the first request.
#[test]
fn requests_come_in_chunks_or_are_cut_off(rt: HostRuntime) {
    let mut office = polled(&rt, rt.alloc());
    for piece in 1..100 {
        assert_served(&rt, rt.alloc(), &mut office, &LONGER, piece);
    }
    for case in [&QUESTIONS[0], &QUESTIONS[15]] {
        cut_off(&rt, rt.alloc(), &mut office, case);
    }
}

// Checks that the command of an HTTP request is executed only once, whichever read or write of the
// client's connection fails.
#[test]
fn each_call_of_the_link_may_fail(rt: HostRuntime) {
    let tables: [&[Case<'static>]; 2] = [&QUESTIONS, &COMMANDS];
    for cases in tables {
        let mut office = polled(&rt, rt.alloc());
        for case in cases {
            fail_each(&rt, rt.alloc(), &mut office, case);
        }
    }
}
