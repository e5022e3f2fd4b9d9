//! Tests requests that no client can send by HTTP, and the comparison of a request with the request
//! that is stored under the same idempotency key.
use crate::offices::{READ, office_after, request_of};
use crate::tried::{Trial, try_in_memory};
use office_books::{Books, Repeat};
use office_core::Office;
use office_events::{Answer, CommandKind, Name, Refusal};
use std::alloc::Global;
use std::process::Abort;

const START: &str = "3700 start inv 3 40094 3";

// Test cases: the caller and the number of a request's idempotency key, its command, the expected
// answer, and the number of bytes that are then sent to the device. The retry of a command that
// starts a poll sends no bytes.
static REQUESTS: [(&[u8], u64, &str, Result<Answer, Refusal>, usize); 4] = [
    (
        b"desk",
        0,
        START,
        Ok(Answer::Started {
            first: 2,
            count: 1,
            of: 1,
        }),
        12,
    ),
    (b"desk", 0, START, Ok(Answer::Again(CommandKind::Start)), 0),
    (b"1", 1, "3700 void m1 2", Err(Refusal::Limit), 0),
    (
        b"desk",
        9_223_372_036_854_775_808,
        "3800 close main 5300 0",
        Err(Refusal::Limit),
        0,
    ),
];

static REPEATED: [(&[u8], u64, &str, Result<Repeat, Refusal>); 5] = [
    (b"desk", 0, START, Ok(Repeat::Same(CommandKind::Start))),
    (b"desk", 0, "3700 start inv 3 40094 4", Ok(Repeat::Other)),
    (b"desk", 99, START, Err(Refusal::NotFound)),
    (b"nobody", 0, START, Err(Refusal::NotFound)),
    (b"", 0, START, Err(Refusal::NotFound)),
];

fn assert_requests<B: Books>(rt: &impl Abort, alloc: Global, office: &mut Office<B>) {
    for (caller, number, line, answer, sent) in &REQUESTS {
        let (at, event) = request_of(rt, alloc, *caller, *number, *line);
        assert!(rt; office.feed(at, &event) == *answer, "{line}");
        assert!(rt; office.outgoing().len() == *sent, "{line}");
    }
}

fn assert_repeats<B: Books>(rt: &impl Abort, office: &mut Office<B>) {
    for (caller, number, line, wanted) in &REPEATED {
        let found = office.repeat(&Name::new(*caller), *number, line.as_bytes());
        assert!(rt; found == *wanted, "{number} {line}");
    }
}

/// Sends the test's requests after a meter was read, and compares each request with the stored
/// request of its idempotency key.
pub(crate) fn play<B: Books>(rt: &impl Abort, alloc: Global, books: B) {
    let mut office = office_after(rt, alloc, books, &READ);
    assert_requests(rt, alloc, &mut office);
    assert_repeats(rt, &mut office);
}

/// A request is executed once, and a retry of a request that starts a poll sends no bytes.
#[test]
fn requests_act_once(rt: HostRuntime) {
    try_in_memory(&rt, rt.alloc(), Trial::Requests);
}
