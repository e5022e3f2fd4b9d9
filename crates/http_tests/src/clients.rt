//! Tests of the HTTP clients of `sunreg run`, over nonblocking sockets.
use crate::connections::{REQUEST, Stepping, client_of, energy_of_ended};
use crate::office::{metered, utc};
use memory_books::ListBooks;
use mio::{Events, Interest, Poll, Token};
use office_core::Office;
use office_running::http::{
    EarlierFiles, HttpPort, KeptRoom, Now, Outbox, PORT_TOKEN, RunContext, RunSystem, Went,
    even_milliseconds, went_by,
};
use run_http::ClientResponse;
use run_http::status::RunMonitor;
use run_schedule::{MOST_CLIENTS, place_at};
use std::alloc::{AllocError, Global};
use std::io::{self, ErrorKind, Read};
use std::net::{TcpListener, TcpStream};
use std::test::Fail;
use std::time::Duration;

// The clock of a test, and whether the database files still exist.
#[derive(Drop)]
struct System {
    clock: Stepping,
    are_there: bool,
}

impl std::rt::Clock for System {
    fn monotonic(&self) -> io::Result<Duration> {
        self.clock.monotonic()
    }

    fn since_1970(&self) -> io::Result<Duration> {
        self.clock.since_1970()
    }
}

impl RunSystem for System {
    fn are_files_there(&self) -> bool {
        self.are_there
    }
}

// The HTTP port of `sunreg run`, with the event queue and the event counts for its sockets.
#[derive(Drop)]
struct Listening {
    system: System,
    poll: Poll,
    events: Events<Global>,
    port: HttpPort,
    monitor: RunMonitor,
}

// Registers a nonblocking listening socket with `poll`, and returns the socket.
fn registered(listener: TcpListener, poll: &Poll) -> io::Result<mio::net::TcpListener> {
    listener.set_nonblocking(true)?;
    let mut listener = mio::net::TcpListener::from_std(listener);
    poll.registry()
        .register(&mut listener, Token(PORT_TOKEN), Interest::READABLE)?;
    Ok(listener)
}

impl Listening {
    fn new(
        alloc: Global,
        poll: Poll,
        listener: mio::net::TcpListener,
        room: KeptRoom,
    ) -> Result<Listening, AllocError> {
        Ok(Listening {
            system: System {
                clock: Stepping::new(7, 0),
                are_there: true,
            },
            poll,
            events: Events::with_capacity(alloc, 8)?,
            port: HttpPort::new(alloc, listener, room, MOST_CLIENTS)?,
            monitor: RunMonitor::new(alloc, &[])?,
        })
    }

    fn open(rt: &HostRuntime, listener: TcpListener, room: KeptRoom) -> Result<Listening, Fail> {
        let poll = Poll::new(rt)?;
        let listener = registered(listener, &poll)?;
        Ok(Listening::new(rt.alloc(), poll, listener, room)?)
    }

    // Accepts the clients that are waiting, serves each client, and drops the clients that got
    // their responses.
    fn turn(&mut self, earlier: &EarlierFiles<'_>, office: &mut Office<ListBooks>, time: u64) {
        self.port.begin_turn();
        self.port.accept(self.poll.registry(), time);
        let first = self.port.first();
        for step in 0..MOST_CLIENTS {
            let context = RunContext {
                names: &[],
                monitor: &self.monitor,
                lacks: &[],
                earlier: &*earlier,
                at: Now { time, moment: 2800 },
            };
            let place = place_at(first, step);
            self.port.attend(&self.system, place, office, &context);
        }
        self.port.sweep(time);
    }

    // Waits at most a tenth of a second for events of the sockets, and marks the connections that
    // are ready.
    fn look(&mut self) -> io::Result<()> {
        self.poll
            .poll(&mut self.events, Some(Duration::from_millis(100)))?;
        for event in &self.events {
            let Token(token) = event.token();
            self.port.mark(token);
        }
        Ok(())
    }

    fn turns(
        &mut self,
        earlier: &EarlierFiles<'_>,
        office: &mut Office<ListBooks>,
    ) -> io::Result<()> {
        for time in 0..3 {
            self.turn(earlier, office, time);
            self.look()?;
        }
        self.turn(earlier, office, 3);
        Ok(())
    }
}

fn read_all(alloc: Global, mut stream: TcpStream) -> Result<Vec<u8>, Fail> {
    let mut got = Vec::new(alloc);
    stream.read_to_end(&mut got)?;
    Ok(got)
}

// A test case: a client's HTTP request and the expected response. `most` is the limit in bytes for
// kept requests (accepted commands stored with their responses), and `kept` is the number of bytes
// already stored. `energy` is the meter's energy in mWh, if the request closes the meter.
struct Client {
    are_there: bool,
    most: Option<u64>,
    kept: u64,
    request: &'static [u8],
    is_full: bool,
    reply: &'static [u8],
    energy: Option<u64>,
}

// Returns whether the HTTP port serves a client as the client's test case states. If the limit for
// kept requests (accepted commands stored with their responses) was reached, the port must report
// this exactly once. If the database files are missing after a command, the port must report this
// too.
fn serves(
    rt: &HostRuntime,
    listener: TcpListener,
    client: &Client,
    earlier: &EarlierFiles<'_>,
    office: &mut Office<ListBooks>,
) -> Result<bool, Fail> {
    let mut listening = Listening::open(rt, listener, KeptRoom::new(client.most, client.kept))?;
    listening.system.are_there = client.are_there;
    listening.turns(earlier, office)?;
    let is_busy = listening.port.is_waiting() || listening.port.is_ready();
    let is_lost = !client.are_there && client.request == REQUEST;
    let is_reported = listening.port.has_lost() == is_lost
        && listening.port.take_full() == client.is_full
        && !listening.port.take_full();
    Ok(is_reported && !(client.are_there && is_busy))
}

// Returns the response that a client of the HTTP port gets.
fn replied(
    rt: &HostRuntime,
    client: &Client,
    earlier: &EarlierFiles<'_>,
    office: &mut Office<ListBooks>,
) -> Result<Vec<u8>, Fail> {
    let listener = TcpListener::bind(rt, "127.0.0.1:0")?;
    let stream = client_of(rt, &listener, client.request)?;
    if !serves(rt, listener, client, earlier, office)? {
        return Err(Fail::from("a client waits, or the port reports something else"));
    }
    read_all(rt.alloc(), stream)
}

const MONTHS: &[u8] = b"GET /registers/main/months HTTP/1.1\r\n\r\n";

const NO_MONTHS: &[u8] =
    b"HTTP/1.1 200 OK\r\nX-Content-Type-Options: nosniff\r\nCross-Origin-Resource-Policy: same-origin\r\nCache-Control: no-store\r\nContent-Type: text/plain\r\nContent-Length: 6\r\nConnection: close\r\n\r\nend 0\n";

const AFTER_LINES: &[u8] =
    b"\r\n\r\nPOST /registers/main/exchange HTTP/1.1\r\nContent-Length: 68\r\nOffice-Caller: desk\r\nOffice-Request: 7\r\n\r\n{\"ceiling\":100000,\"last\":5300,\"meter\":\"m2\",\"raw\":0,\"rolls\":0,\"sf\":0}";

const EXCHANGED: &[u8] =
    b"HTTP/1.1 200 OK\r\nX-Content-Type-Options: nosniff\r\nCross-Origin-Resource-Policy: same-origin\r\nCache-Control: no-store\r\nContent-Type: application/json\r\nContent-Length: 19\r\nConnection: close\r\n\r\n{\"done\":\"exchange\"}";

const UNAVAILABLE: &[u8] =
    b"HTTP/1.1 503 Service Unavailable\r\nX-Content-Type-Options: nosniff\r\nCross-Origin-Resource-Policy: same-origin\r\nCache-Control: no-store\r\nContent-Type: application/json\r\nContent-Length: 13\r\nConnection: close\r\n\r\n{\"fault\":503}";

// Test cases with one client each. The HTTP request `REQUEST` has 170 bytes.
static CLIENTS: [Client; 4] = [
    // The limit for kept requests (accepted commands stored with their responses) leaves room for
    // the client's command.
    Client {
        are_there: true,
        most: Some(170),
        kept: 0,
        request: REQUEST,
        is_full: false,
        reply: EXCHANGED,
        energy: Some(300_000),
    },
    // The limit for kept requests (accepted commands stored with their responses) leaves no room
    // for the client's command, which begins with empty lines.
    Client {
        are_there: true,
        most: Some(300),
        kept: 200,
        request: AFTER_LINES,
        is_full: true,
        reply: UNAVAILABLE,
        energy: None,
    },
    // The client's command is executed, but not acknowledged, because the database files are
    // missing.
    Client {
        are_there: false,
        most: None,
        kept: 0,
        request: REQUEST,
        is_full: false,
        reply: UNAVAILABLE,
        energy: Some(300_000),
    },
    // Test case: the database files are missing, and the request is a query. The server answers the
    // query, because only commands require that the files exist.
    Client {
        are_there: false,
        most: None,
        kept: 0,
        request: MONTHS,
        is_full: false,
        reply: NO_MONTHS,
        energy: None,
    },
];

// Checks that a command is acknowledged only if the database files exist and the limit for kept
// requests (accepted commands stored with their responses) leaves room for the command.
#[test]
fn clients_have_their_replies(rt: HostRuntime) -> Result<(), Fail> {
    let earlier = EarlierFiles {
        zone: utc(&rt),
        registers: &[],
    };
    assert!(rt; REQUEST.len() == 170);
    for (slot, client) in CLIENTS.iter().enumerate() {
        let mut office = metered(&rt, rt.alloc());
        let got = replied(&rt, client, &earlier, &mut office)?;
        assert!(rt; got.as_slice() == client.reply, "client {slot}");
        assert!(rt;
            energy_of_ended(&mut office) == client.energy,
            "client {slot}"
        );
    }
    Ok(())
}

static GET: &[u8] = b"GET /meters/m1 HTTP/1.1\r\n\r\n";

// A command of 28 bytes, including the empty line before its head.
static POST: &[u8] = b"\r\nPOST /devices HTTP/1.1\r\n\r\n";

// An executed command counts toward the limit for kept requests (accepted commands stored with
// their responses). A query, a refused command and an incomplete command do not count. Without a
// limit there is always room.
#[test]
fn commands_that_acted_take_room(rt: HostRuntime) {
    let refused = b"HTTP/1.1 409 Conflict"
        .to_vec(rt.alloc())
        .expect(&rt, "no memory");
    let acted = b"HTTP/1.1 200 OK"
        .to_vec(rt.alloc())
        .expect(&rt, "no memory");
    let acted = ClientResponse::Replied(acted);
    let mut room = KeptRoom::new(Some(100), 60);
    assert!(rt; !room.lacks(POST));
    room.count(POST, &ClientResponse::Open);
    room.count(POST, &ClientResponse::Replied(refused));
    room.count(GET, &acted);
    assert!(rt; !room.lacks(POST));
    room.count(POST, &acted);
    assert!(rt; room.lacks(POST));
    assert!(rt; !room.lacks(GET));
    let mut unlimited = KeptRoom::new(None, u64::MAX);
    assert!(rt; !unlimited.lacks(POST));
    unlimited.count(POST, &ClientResponse::Failed);
    assert!(rt; KeptRoom::new(Some(10), 11).lacks(POST));
}

// Returns whether all bytes of an output buffer can be written to a connection, which is then
// closed.
fn is_taken(stream: TcpStream, outbox: &mut Outbox) -> bool {
    let stream = mio::net::TcpStream::from_std(stream);
    outbox.write_all(&stream) == Went::On && outbox.is_written()
}

// Writes an output buffer to a connection, and returns the bytes that arrive at the other end.
fn written(rt: &HostRuntime, outbox: &mut Outbox) -> Result<Vec<u8>, Fail> {
    let listener = TcpListener::bind(rt, "127.0.0.1:0")?;
    if !is_taken(client_of(rt, &listener, b"")?, outbox) {
        return Err(Fail::from("a connection takes less than it is given"));
    }
    read_all(rt.alloc(), listener.accept()?.0)
}

// The bytes in the output buffer of an HTTP client are written to the connection once. Bytes that
// are added afterwards replace the written bytes in the buffer.
#[test]
fn bytes_that_are_put_are_written_once(rt: HostRuntime) -> Result<(), Fail> {
    let mut empty = Outbox::empty(rt.alloc());
    assert!(rt; empty.is_empty() && empty.is_written());
    empty.push_bytes(b"one").expect(&rt, "no memory");
    assert!(rt; empty.len() == 3);
    let bytes = b"one".to_vec(rt.alloc()).expect(&rt, "no memory");
    let mut outbox = Outbox::new(bytes);
    outbox.push_bytes(b"two").expect(&rt, "no memory");
    assert!(rt; outbox.len() == 6);
    assert!(rt; !outbox.is_written());
    assert!(rt; written(&rt, &mut outbox)?.as_slice() == b"onetwo".as_slice());
    assert!(rt; !outbox.is_empty());
    outbox.push_bytes(b"more").expect(&rt, "no memory");
    assert!(rt; outbox.len() == 4);
    Ok(())
}

// Each error of an HTTP client's socket means one of three actions: wait, retry, or end the
// connection. The test also checks that a clock reading of whole seconds is converted exactly to
// milliseconds.
#[test]
fn errors_of_sockets_have_a_meaning(rt: HostRuntime) {
    assert!(rt; went_by(ErrorKind::WouldBlock) == Went::Waits);
    assert!(rt; went_by(ErrorKind::Interrupted) == Went::On);
    assert!(rt; went_by(ErrorKind::ConnectionReset) == Went::Over);
    assert!(rt; even_milliseconds(&Stepping::new(6, 1)) == 7000);
}
