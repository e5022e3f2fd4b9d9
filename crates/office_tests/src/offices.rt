//! Helpers that open an `Office` (the core of `sunreg`) over a store in memory, and the events that
//! tests send to it.
use interval_core::Zone;
use memory_books::{FailingBooks, ListBooks};
use office_books::Books;
use office_core::Office;
use office_events::{
    Asked, Command, Event, Name, Piece, PlannedList, PutList, Refusal, StartPoll, StoreCause,
};
use point_list::read_list;
use script_text::{GivenStart, ScriptLine};
use std::alloc::Global;
use std::process::Abort;

/// A point list whose plan has two reads. The first read is of the Modbus registers 0 to 124, and
/// the second of the Modbus register 125.
pub(crate) const LIST: &[u8] = b"name,function,area,address,type,scale
a,3,0,0,acc32,
b,3,0,124,uint16,
c,3,0,125,uint16,
";

/// Script lines that add a device, its accounting register (a named counter) and its meter, and
/// then poll the device. The response has the count 5200 at the scale factor 0.
pub(crate) static READ: [&str; 6] = [
    "1000 device inv 1 5 1",
    "1000 register main inv 3 40094 @40096",
    "1000 install main m1 5000 0 100000",
    "1898 connect inv",
    "1898 start inv 3 40094 3",
    "1900 bytes inv 000000000009010306000014500000",
];

/// Returns the name `inv` of the device in most tests.
pub(crate) fn inv() -> Option<Name> {
    Name::new(b"inv")
}

pub(crate) fn name_of(rt: &impl Abort, name: &[u8]) -> Name {
    Name::new(name).expect(rt, "a name")
}

/// Returns an empty store in memory.
pub(crate) fn new_books(rt: &impl Abort, alloc: Global) -> ListBooks {
    ListBooks::new(alloc, Zone::read("UTC0").expect(rt, "a zone"))
}

/// Returns a store in memory that fails at the call with the number `call`. If `call` is 0, no call
/// fails.
pub(crate) fn books_failing_at(rt: &impl Abort, alloc: Global, call: u64) -> FailingBooks {
    FailingBooks::new(new_books(rt, alloc), call)
}

/// Opens an `Office` (the core of `sunreg`) over a store. If a call to the store fails, opens it
/// again over the returned store.
pub(crate) fn opened<B: Books>(rt: &impl Abort, alloc: Global, books: B, moment: u64) -> Office<B> {
    let (books, why) = match Office::open(alloc, books, moment) {
        Ok(office) => return office,
        Err(refused) => refused,
    };
    assert!(rt; why == Refusal::Store(StoreCause::Refused));
    Office::open(alloc, books, moment)
        .ok()
        .expect(rt, "an office that is opened again")
}

/// Returns the event that requests the given start of a poll: the device and the Modbus registers
/// to read.
pub(crate) fn start_of(rt: &impl Abort, given: &GivenStart) -> Event {
    Event::Command(Command::StartPoll(StartPoll {
        device: given.device,
        span: given.span().expect(rt, "a span"),
    }))
}

/// Returns the time and the event of a script line.
pub(crate) fn event_of(rt: &impl Abort, alloc: Global, line: &str) -> (u64, Event) {
    match ScriptLine::read(alloc, line.as_bytes()) {
        Ok(ScriptLine::Event { at, event }) => (at, event),
        Ok(ScriptLine::Start { at, start }) => (at, start_of(rt, &start)),
        _ => panic!(rt; "{line}"),
    }
}

/// Returns the time of a script line, and its command as a request with an idempotency key. The
/// bytes of the request are the script line.
pub(crate) fn request_of(
    rt: &impl Abort,
    alloc: Global,
    caller: &[u8],
    number: u64,
    line: &str,
) -> (u64, Event) {
    let (at, event) = event_of(rt, alloc, line);
    match event {
        Event::Command(command) => {
            let asked = Asked {
                caller: Name::new(caller),
                number,
                request: Piece::new(line.as_bytes().to_vec(alloc).expect(rt, "memory")),
                command,
            };
            (at, Event::Asked(asked))
        }
        _ => panic!(rt; "{line}"),
    }
}

/// Parses a point list from a text, and returns the point list with the plan of its reads.
pub(crate) fn planned(rt: &impl Abort, alloc: Global, text: &[u8]) -> PlannedList {
    let list = read_list(alloc, text).ok().expect(rt, "a list");
    PlannedList::new(alloc, list).ok().expect(rt, "a plan")
}

/// Processes an event, and processes it again if the store fails. Asserts that the event is
/// accepted.
pub(crate) fn assert_accepted<B: Books>(
    rt: &impl Abort,
    office: &mut Office<B>,
    at: u64,
    event: &Event,
) {
    if office.feed(at, event).is_err() {
        assert!(rt; office.feed(at, event).is_ok());
    }
}

/// Opens an `Office` (the core of `sunreg`) and processes the events of the given script lines.
pub(crate) fn office_after<B: Books>(
    rt: &impl Abort,
    alloc: Global,
    books: B,
    lines: &[&str],
) -> Office<B> {
    let mut office = opened(rt, alloc, books, 0);
    for line in lines {
        let (at, event) = event_of(rt, alloc, line);
        assert_accepted(rt, &mut office, at, &event);
    }
    office
}

/// Stores the point list `LIST` for a device, and asserts that the command is accepted.
pub(crate) fn assert_list_accepted<B: Books>(
    rt: &impl Abort,
    alloc: Global,
    office: &mut Office<B>,
    device: Option<Name>,
) {
    let list = planned(rt, alloc, LIST);
    let event = Event::Command(Command::PutList(PutList { device, list }));
    assert_accepted(rt, office, 1000, &event);
}
