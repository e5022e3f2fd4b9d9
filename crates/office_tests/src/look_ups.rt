//! Tests how many calls to the store the office (the core of `sunreg`) makes before it refuses an
//! event or answers a retry.
use crate::offices::{READ, event_of, new_books, office_after, opened, request_of};
use memory_books::{FailingBooks, ListBooks};
use office_books::Books;
use office_events::{Answer, CommandKind, Event, Refusal, StoreCause};
use std::alloc::Global;
use std::process::Abort;

// Script lines, each with the number of calls to the store before the line's event is refused, and
// the expected refusal.
static CASES: [(&str, u64, Refusal); 25] = [
    ("2000 device inv 1 5 1", 0, Refusal::Exists),
    ("1000 device two 1 5 1", 0, Refusal::ClockBack),
    ("2000 bytes inv 00", 0, Refusal::Busy),
    ("1000 tick", 0, Refusal::ClockBack),
    ("2000 register one two 3 1 0", 0, Refusal::NotFound),
    ("2000 register main inv 3 1 0", 1, Refusal::Exists),
    ("2000 register one inv 3 1 9", 1, Refusal::BadScale),
    ("2000 install none m2 0 0 1", 1, Refusal::NotFound),
    ("2000 install main m1 0 0 1", 2, Refusal::Exists),
    ("2000 install main m2 0 0 1", 3, Refusal::Exists),
    ("2000 exchange none 5300 0 m2 0 0 1", 1, Refusal::NotFound),
    ("2000 exchange main 5300 0 m1 0 0 1", 2, Refusal::Exists),
    ("2000 reset none 5300 0", 1, Refusal::NotFound),
    ("2000 reset main 5400 0", 1, Refusal::NotLater),
    ("2100 rescale main 5400 0 9", 1, Refusal::BadScale),
    ("2000 manual none 5300 0", 1, Refusal::NotFound),
    ("2000 close none 5300 0", 1, Refusal::NotFound),
    ("2000 void m1 0", 0, Refusal::NotFound),
    ("2000 void m1 1", 1, Refusal::NotVoidable),
    ("2000 void m1 3", 1, Refusal::NotVoidable),
    ("2000 void m1 9", 1, Refusal::NotFound),
    ("2000 start two 3 0 1", 0, Refusal::NotFound),
    ("2000 start inv 3 0 1", 0, Refusal::Busy),
    ("2000 round two 0", 0, Refusal::NotFound),
    ("2000 round inv 0", 1, Refusal::NotFound),
];

// The number of calls to the store when an office (the core of `sunreg`) is opened without a
// pending poll.
const OPENING: u64 = 3;

const REFUSED: Result<Answer, Refusal> = Err(Refusal::Store(StoreCause::Refused));

// The script line of a manual reading that is accepted at time 2000.
const KEPT: &str = "1900 manual main 5300 0";

// Adds the devices and readings of the script `READ` to a store. Also adds a manual reading, as a
// request with an idempotency key.
fn book_read<B: Books>(rt: &impl Abort, alloc: Global, books: B) -> B {
    let mut office = office_after(rt, alloc, books, &READ);
    let (_, event) = request_of(rt, alloc, b"desk", 1, KEPT);
    assert!(rt; office.feed(2000, &event).is_ok());
    office.into_books()
}

fn read_books(rt: &impl Abort, alloc: Global) -> ListBooks {
    book_read(rt, alloc, new_books(rt, alloc))
}

fn feed<B: Books>(
    rt: &impl Abort,
    alloc: Global,
    books: B,
    at: u64,
    event: &Event,
) -> Result<Answer, Refusal> {
    opened(rt, alloc, books, 2000).feed(at, event)
}

// Opens an `Office` (the core of `sunreg`) and returns its answer to an event. The store fails
// after `calls` successful calls for this event.
fn feed_after(
    rt: &impl Abort,
    alloc: Global,
    calls: u64,
    at: u64,
    event: &Event,
) -> Result<Answer, Refusal> {
    let failing = calls.saturating_add(OPENING + 1);
    let books = FailingBooks::new(read_books(rt, alloc), failing);
    feed(rt, alloc, books, at, event)
}

/// A refused event makes no further call to the store once the reason for the refusal is known.
#[test]
fn books_are_asked_no_more_than_it_takes(rt: HostRuntime) {
    for (line, calls, answer) in &CASES {
        let (at, event) = event_of(&rt, rt.alloc(), *line);
        let found = feed_after(&rt, rt.alloc(), *calls, at, &event);
        assert!(rt; found == Err(*answer), "{line}");
        if let Some(fewer) = calls.checked_sub(1) {
            let found = feed_after(&rt, rt.alloc(), fewer, at, &event);
            assert!(rt; found == REFUSED, "{line}");
        }
    }
}

/// The office (the core of `sunreg`) recognizes a retried request with one call to the store.
#[test]
fn a_retry_is_looked_up_once(rt: HostRuntime) {
    let (at, event) = request_of(&rt, rt.alloc(), b"desk", 1, KEPT);
    let found = feed_after(&rt, rt.alloc(), 1, at, &event);
    assert!(rt; found == Ok(Answer::Again(CommandKind::Manual)));
}
