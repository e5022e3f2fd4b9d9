//! Runs the core of `sunreg` over a database: it handles the events of a script, and then a
//! request.
use crate::stops::asked::{Asked, UNAVAILABLE, reply_of, request_of};
use mb_wire::MemoryLink;
use office_books::Books;
use office_core::Office;
use office_events::{Command, Event, Refusal, StartPoll, StoreCause};
use office_http::handle;
use office_store::SqlBooks;
use script_text::{GivenStart, ScriptLine};
use sqlite::{Alter, Connection};
use std::alloc::Global;
use std::process::Abort;

/// A script with a device, its accounting register (a named counter) and its meter. The response to
/// a poll has the counter value 5200 with the scale factor 0.
const READ: &str = "1000 device inv 1 5 1
1000 register main inv 3 40094 @40096
1000 install main m1 5000 0 100000
1898 connect inv
1898 start inv 3 40094 3
1900 bytes inv 000000000009010306000014500000";

/// Runs all steps of a test except the first over a new store: opens the store, processes the
/// events of the script, and sends a request. Returns how many steps succeeded, including the
/// first, and the store.
fn play_over<B: Books>(rt: &impl Abort, alloc: Global, books: B, asked: Asked) -> (usize, B) {
    let mut office = match Office::open(alloc, books, 0) {
        Ok(office) => office,
        Err((books, _)) => return (1, books),
    };
    let steps = steps(rt, alloc, &mut office, asked);
    (steps, office.into_books())
}

/// Runs all steps of a test over a new database. The first step creates the tables. Returns how
/// many steps succeeded before the store refused a step.
pub(crate) fn play<S: Alter + Drop>(
    rt: &impl Abort,
    alloc: Global,
    connection: Connection<S>,
    asked: Asked,
) -> (usize, S) {
    let books = match SqlBooks::create(alloc, connection, "UTC0") {
        Ok(books) => books,
        Err(unmade) => return (0, unmade.connection.into_store()),
    };
    let (steps, books) = play_over(rt, alloc, books, asked);
    (steps, books.into_connection().into_store())
}

fn start_of(rt: &impl Abort, given: &GivenStart) -> Command {
    Command::StartPoll(StartPoll {
        device: given.device,
        span: given.span().expect(rt, "no span"),
    })
}

/// Returns the event of a script line, and the event's time.
fn event_of(rt: &impl Abort, alloc: Global, line: &str) -> (u64, Event) {
    match ScriptLine::read(alloc, line.as_bytes()).expect(rt, "no line") {
        ScriptLine::Event { at, event } => (at, event),
        ScriptLine::Start { at, start } => (at, Event::Command(start_of(rt, &start))),
        _ => panic!(rt; "no event"),
    }
}

/// Returns true if the event of a script line is accepted. Only a failure of the store may cause a
/// refusal.
pub(crate) fn accepts<B: Books>(
    rt: &impl Abort,
    alloc: Global,
    office: &mut Office<B>,
    line: &str,
) -> bool {
    let (at, event) = event_of(rt, alloc, line);
    match office.feed(at, &event) {
        Ok(_) => true,
        Err(Refusal::Store(StoreCause::Refused)) => false,
        Err(_) => panic!(rt; "refused"),
    }
}

/// Returns true if the HTTP response to the test's request reports success. Any other response must
/// report that the store failed.
pub(crate) fn acknowledges<B: Books>(
    rt: &impl Abort,
    alloc: Global,
    office: &mut Office<B>,
    asked: Asked,
    at: u64,
) -> bool {
    let mut output = [0; 400];
    let mut link = MemoryLink::new(request_of(asked), &mut output, 400, None);
    if handle(alloc, &mut link, office, at).is_err() {
        panic!(rt; "not handled");
    }
    let given = link.given();
    let reply = reply_of(asked);
    if given == reply || given == UNAVAILABLE {
        return given == reply;
    }
    panic!(rt; "another reply")
}

/// Returns how many steps of a test succeed before the store refuses a step. The first step, which
/// created the tables, is already done and counts. The other steps are the events of the script,
/// and then the request.
fn steps<B: Books>(rt: &impl Abort, alloc: Global, office: &mut Office<B>, asked: Asked) -> usize {
    let mut steps = 1usize;
    for line in READ.lines() {
        if !accepts(rt, alloc, office, line) {
            return steps;
        }
        steps = steps.saturating_add(1);
    }
    if acknowledges(rt, alloc, office, asked, 2800) {
        steps = steps.saturating_add(1);
    }
    steps
}
