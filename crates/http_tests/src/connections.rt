//! Tests of HTTP clients in the same process, which connect to a blocking listening socket.
use crate::office::metered;
use mb_wire::sockets::FixedClock;
use memory_books::ListBooks;
use office_core::Office;
use office_events::Name;
use office_http::{serve_connections, serve_on};
use std::alloc::Global;
use std::cell::Cell;
use std::io::{self, ErrorKind, Read, Write};
use std::net::{Shutdown, TcpListener, TcpStream};
use std::test::Fail;
use std::time::Duration;

/// The bytes that a client sends, whether it then closes its sending side, and the response that it
/// expects.
struct Client {
    bytes: &'static [u8],
    ends: bool,
    reply: &'static [u8],
}

/// A request to exchange the meter `m1` for the meter `m2`.
pub(crate) const REQUEST: &[u8] =
    b"POST /registers/main/exchange HTTP/1.1\r\nContent-Length: 68\r\nOffice-Caller: desk\r\nOffice-Request: 7\r\n\r\n{\"ceiling\":100000,\"last\":5300,\"meter\":\"m2\",\"raw\":0,\"rolls\":0,\"sf\":0}";

const REPLY: &[u8] =
    b"HTTP/1.1 200 OK\r\nContent-Type: application/json\r\nContent-Length: 19\r\nConnection: close\r\n\r\n{\"done\":\"exchange\"}";

// Three HTTP clients. The second client repeats the request of the first. The third client sends a
// different last count of the meter under the same idempotency key.
static ASKING: [Client; 3] = [
    Client {
        bytes: REQUEST,
        ends: false,
        reply: REPLY,
    },
    Client {
        bytes: REQUEST,
        ends: false,
        reply: REPLY,
    },
    Client {
        bytes: b"POST /registers/main/exchange HTTP/1.1\r\nContent-Length: 68\r\nOffice-Caller: desk\r\nOffice-Request: 7\r\n\r\n{\"ceiling\":100000,\"last\":5301,\"meter\":\"m2\",\"raw\":0,\"rolls\":0,\"sf\":0}",
        ends: false,
        reply: b"HTTP/1.1 409 Conflict\r\nContent-Type: application/json\r\nContent-Length: 14\r\nConnection: close\r\n\r\n{\"refused\":11}",
    },
];

// Three clients. The first closes its stream in the middle of the request, the second times out,
// and the third is served.
static FAILING: [Client; 3] = [
    Client {
        bytes: b"POST /registers/main",
        ends: true,
        reply: b"",
    },
    Client {
        bytes: b"",
        ends: false,
        reply: b"",
    },
    Client {
        bytes: REQUEST,
        ends: false,
        reply: REPLY,
    },
];

const TURNED_AWAY: &[u8] =
    b"HTTP/1.1 421 Misdirected Request\r\nContent-Type: application/json\r\nContent-Length: 13\r\nConnection: close\r\n\r\n{\"fault\":421}";

// Three clients. The first request has the Host header of an unauthorized host, and the second that
// of an accepted host. The third client retries the second request.
static NAMED: [Client; 3] = [
    Client {
        bytes: b"POST /registers/main/exchange HTTP/1.1\r\nHost: evil.example:80\r\nContent-Length: 68\r\nOffice-Caller: desk\r\nOffice-Request: 7\r\n\r\n{\"ceiling\":100000,\"last\":5301,\"meter\":\"m2\",\"raw\":0,\"rolls\":0,\"sf\":0}",
        ends: false,
        reply: TURNED_AWAY,
    },
    Client {
        bytes: b"POST /registers/main/exchange HTTP/1.1\r\nHost: office.example\r\nContent-Length: 68\r\nOffice-Caller: desk\r\nOffice-Request: 7\r\n\r\n{\"ceiling\":100000,\"last\":5300,\"meter\":\"m2\",\"raw\":0,\"rolls\":0,\"sf\":0}",
        ends: false,
        reply: REPLY,
    },
    Client {
        bytes: REQUEST,
        ends: false,
        reply: REPLY,
    },
];

/// Connects a client to a listening socket, and sends these bytes.
pub(crate) fn client_of(
    rt: &HostRuntime,
    listener: &TcpListener,
    bytes: &[u8],
) -> Result<TcpStream, Fail> {
    let mut client = TcpStream::connect(rt, listener.local_addr()?)?;
    client.write_all(bytes)?;
    Ok(client)
}

// Connects several clients to a listening socket.
fn streams_of(
    rt: &HostRuntime,
    listener: &TcpListener,
    clients: &[Client],
) -> Result<Vec<TcpStream>, Fail> {
    let mut streams = Vec::new(rt.alloc());
    for client in clients {
        let mut stream = client_of(rt, listener, client.bytes)?;
        if client.ends {
            stream.shutdown(Shutdown::Write)?;
        }
        streams.push(stream)?;
    }
    Ok(streams)
}

// Returns whether each client gets its expected response, and its stream then ends.
fn are_replied(alloc: Global, streams: &mut [TcpStream], clients: &[Client]) -> Result<bool, Fail> {
    for (stream, client) in streams.iter_mut().zip(clients) {
        let mut got = Vec::new(alloc);
        stream.read_to_end(&mut got)?;
        if got.as_slice() != client.reply {
            return Ok(false);
        }
    }
    Ok(true)
}

/// Returns the energy of the meter `m1` in mWh, or `None` unless the meter was closed.
pub(crate) fn energy_of_ended(office: &mut Office<ListBooks>) -> Option<u64> {
    match office.meter(&Name::new(b"m1")) {
        Ok(row) if row.ended => Some(row.total),
        _ => None,
    }
}

/// A clock that advances by a fixed number of seconds each time that it is read.
#[derive(Drop)]
pub(crate) struct Stepping {
    seconds: Cell<u64>,
    step: u64,
}

impl Stepping {
    pub(crate) fn new(seconds: u64, step: u64) -> Stepping {
        Stepping {
            seconds: Cell::new(seconds),
            step,
        }
    }
}

impl std::rt::Clock for Stepping {
    fn monotonic(&self) -> io::Result<Duration> {
        let now = self.seconds.get().saturating_add(self.step);
        self.seconds.set(now);
        Ok(Duration::from_secs(now))
    }

    fn since_1970(&self) -> io::Result<Duration> {
        Err(io::Error::from(ErrorKind::Unsupported))
    }
}

// Returns whether `clients` clients are served without an error. With `step`, each client has a
// deadline, and the clock advances by `step` seconds at each reading. Without `step`, clients have
// no deadline.
fn serves(
    alloc: Global,
    listener: &TcpListener,
    clients: u64,
    step: Option<u64>,
    office: &mut Office<ListBooks>,
) -> bool {
    let mut clock = FixedClock::new(&[2800]);
    match step {
        Some(step) => {
            let time = Stepping::new(7, step);
            let names = ["office.example"];
            serve_connections(&time, alloc, listener, clients, &names, office, &mut clock).is_ok()
        }
        None => serve_on(alloc, listener, clients, office, &mut clock).is_ok(),
    }
}

// Returns whether the clients get their expected responses, and the meter `m1` is exchanged for the
// meter `m2` exactly once.
fn are_served(
    rt: &HostRuntime,
    office: &mut Office<ListBooks>,
    clients: &[Client],
    step: Option<u64>,
) -> Result<bool, Fail> {
    let listener = TcpListener::bind(rt, "127.0.0.1:0")?;
    let mut streams = streams_of(rt, &listener, clients)?;
    let is_done = serves(rt.alloc(), &listener, clients.len() as u64, step, office)
        && energy_of_ended(office) == Some(300_000);
    if !is_done {
        return Ok(false);
    }
    are_replied(rt.alloc(), &mut streams, clients)
}

// The HTTP server serves its clients one after another. A client whose connection fails does not
// affect the other clients.
#[test]
fn clients_are_served(rt: HostRuntime) -> Result<(), Fail> {
    let served: [(&str, &[Client], Option<u64>); 4] = [
        ("each connection has its reply", &ASKING, Some(0)),
        ("each name has its reply", &NAMED, Some(0)),
        ("a fault ends its connection alone", &FAILING, Some(3)),
        ("one connection is served", &ASKING[..1], None),
    ];
    for (name, clients, step) in served {
        let mut office = metered(&rt, rt.alloc());
        assert!(rt; are_served(&rt, &mut office, clients, step)?, "{name}");
    }
    Ok(())
}
