//! `Office` values (the core of `sunreg`) over databases in memory, for tests. The device is `inv`,
//! the device's accounting register (a named counter) is `main`, and the meter that is installed at
//! this register is `m1`.
use crate::cases::serve;
use carried_books::EarlierRegister;
use interval_core::Zone;
use mb_wire::ReadSpan;
use memory_books::ListBooks;
use office_books::Books;
use office_core::Office;
use office_events::{Command, Event, Name, Piece, StartPoll};
use office_running::http::{EarlierFiles, Now, RunContext, respond};
use run_http::status::RunMonitor;
use run_http::{ClientResponse, RunRoute, run_route};
use std::alloc::Global;
use std::process::Abort;

// Requests that add a device, add an accounting register (a named counter), and install a meter.
static REQUESTS: [&[u8]; 3] = [
    b"POST /devices HTTP/1.1\r\nContent-Length: 46\r\nOffice-Caller: desk\r\nOffice-Request: 1\r\n\r\n{\"name\":\"inv\",\"unit\":1,\"timeout\":5,\"window\":1}",
    b"POST /registers HTTP/1.1\r\nContent-Length: 76\r\nOffice-Caller: desk\r\nOffice-Request: 2\r\n\r\n{\"name\":\"main\",\"device\":\"inv\",\"function\":3,\"address\":40094,\"scale_at\":40096}",
    b"POST /registers/main/install HTTP/1.1\r\nContent-Length: 49\r\nOffice-Caller: desk\r\nOffice-Request: 3\r\n\r\n{\"meter\":\"m1\",\"raw\":5000,\"sf\":0,\"ceiling\":100000}",
];

// A Modbus response with three registers from address 40094: the counter value 5200, and the scale
// factor 0.
static FRAME: &[u8] = b"\x00\x00\x00\x00\x00\x09\x01\x03\x06\x00\x00\x14\x50\x00\x00";

/// Returns the time zone of the databases in these tests: UTC.
pub(crate) fn utc(rt: &impl Abort) -> Zone {
    Zone::read("UTC0").expect(rt, "no zone")
}

/// Returns the response to an HTTP request of `sunreg run` at time 2800 s. The response covers the
/// current database file, and the accounting registers (named counters) `registers` of earlier
/// files.
pub(crate) fn response_of<B: Books>(
    rt: &impl Abort,
    alloc: Global,
    office: &mut Office<B>,
    registers: &[EarlierRegister],
    route: &RunRoute,
) -> Vec<u8> {
    let monitor = RunMonitor::new(alloc, &[]).expect(rt, "no memory");
    let earlier = EarlierFiles {
        zone: utc(rt),
        registers,
    };
    let context = RunContext {
        names: &[],
        monitor: &monitor,
        lacks: &[],
        earlier: &earlier,
        at: Now {
            time: 2800,
            moment: 2800,
        },
    };
    match respond(alloc, office, route, &context) {
        ClientResponse::Replied(text) => text,
        ClientResponse::Open | ClientResponse::Failed => panic!(rt; "no memory"),
    }
}

/// Returns the response to the bytes of an HTTP request of `sunreg run`. The function
/// [`response_of`] does the same for a request that is already parsed.
pub(crate) fn responded<B: Books>(
    rt: &impl Abort,
    alloc: Global,
    office: &mut Office<B>,
    registers: &[EarlierRegister],
    request: &[u8],
) -> Vec<u8> {
    let route = run_route(&[], request).expect(rt, "no route");
    response_of(rt, alloc, office, registers, &route)
}

// Returns `inv`, the name of the device in these tests.
fn inv() -> Option<Name> {
    Name::new(b"inv")
}

/// Returns the events of a poll: a connection to the device, the start of the poll, and the
/// device's response.
pub(crate) fn poll(rt: &impl Abort, alloc: Global) -> [Event; 3] {
    let span = ReadSpan::new(3, 40_094, 3).expect(rt, "no span");
    let frame = FRAME.to_vec(alloc).expect(rt, "no memory");
    let device = inv();
    let asked = Command::StartPoll(StartPoll { device, span });
    [
        Event::Connected(inv()),
        Event::Command(asked),
        Event::Bytes(inv(), Piece::new(frame)),
    ]
}

// Returns an `Office` (the core of `sunreg`) over the database `books`. The `Office` has served the
// given requests at time 1000 s, and has processed the events of a poll at `times`, in seconds.
fn built<B: Books>(
    rt: &impl Abort,
    alloc: Global,
    books: B,
    requests: &[&[u8]],
    times: &[u64],
) -> Office<B> {
    let mut office = match Office::open(alloc, books, 0) {
        Ok(office) => office,
        Err(_) => panic!(rt; "not opened"),
    };
    for request in requests {
        let served = serve(alloc, &mut office, 1000, request).expect(rt, "no memory");
        assert!(rt; served.handled == Ok(()));
    }
    let events = poll(rt, alloc);
    for (time, event) in times.iter().zip(events.iter()) {
        assert!(rt; office.feed(*time, event).is_ok());
    }
    office
}

// Returns an `Office` (the core of `sunreg`) over a database in memory. The `Office` has served the
// given requests at time 1000 s, and has processed the events of a poll at `times`, in seconds.
fn built_in_memory(
    rt: &impl Abort,
    alloc: Global,
    requests: &[&[u8]],
    times: &[u64],
) -> Office<ListBooks> {
    built(rt, alloc, ListBooks::new(alloc, utc(rt)), requests, times)
}

/// Returns an `Office` (the core of `sunreg`) with a device and an accounting register (a named
/// counter), at which no meter is installed.
pub(crate) fn unmetered(rt: &impl Abort, alloc: Global) -> Office<ListBooks> {
    built_in_memory(rt, alloc, &REQUESTS[..2], &[])
}

/// Returns an `Office` (the core of `sunreg`) with a meter that was installed at time 1000 s, with
/// the counter value 5000.
pub(crate) fn metered(rt: &impl Abort, alloc: Global) -> Office<ListBooks> {
    built_in_memory(rt, alloc, &REQUESTS, &[])
}

/// Returns an `Office` (the core of `sunreg`) that has polled its device. The meter's counter
/// advanced from 5000 at time 1000 s to 5200 at 1900 s, which is 200 Wh.
pub(crate) fn polled(rt: &impl Abort, alloc: Global) -> Office<ListBooks> {
    built_in_memory(rt, alloc, &REQUESTS, &[1898, 1898, 1900])
}

/// Returns a database with a device that was polled once, and the recorded energy of its meter.
pub(crate) fn polled_store(rt: &impl Abort, alloc: Global) -> ListBooks {
    polled(rt, alloc).into_books()
}
