//! Serves HTTP connections, one after the other.
ghost use Rattle.std.specs.Prelude.{[]};
ghost use Rattle.office_http.specs.Messages.Hosts.{texts};
ghost use Rattle.office_core.specs.Standing.{After};
ghost use Rattle.office_http.specs.Serving.{Lasts};
ghost use Rattle.office_http.specs.Connections.Connections.{ServesOne, ServesUpTo};

use crate::connections::named::handle_named;
use crate::connections::time::{Even, StoppedClock};
use mb_wire::sockets::{Clock, DeadlineLink, SocketLink};
use office_books::Books;
use office_core::Office;
use std::alloc::Global;
use std::io::{self, ErrorKind, Read, Write};
use std::net::{OpenListener, OpenStream};

/// The most seconds from accepting a connection to the end of its response.
pub const MOST_SECONDS: u64 = 10;

// Serves the one request of an HTTP connection that was accepted at the time `moment`. A failure
// ends only this connection.
fn serve_connection<R: std::rt::Clock, S: Read + Write + OpenStream + Drop, B: Books>(
    rt: &R,
    alloc: Global,
    stream: S,
    names: &[&str],
    office: &mut Office<B>,
    moment: u64,
)
    ensures serves { After B.ledger office.old office.new
        (λ past. ServesOne (texts names.now) moment B.ledger past office.new) }
    ensures lasts { Lasts B.ledger office.old office.new }
{
    let (Ok(mut socket), Ok(began)) = (SocketLink::new(stream), rt.monotonic()) else {
        return;
    };
    let until = began.as_secs().saturating_add(MOST_SECONDS);
    let mut time = Even::new(rt);
    let mut link = DeadlineLink::new(&mut socket, &mut time, until);
    if handle_named(alloc, names, &mut link, office, moment).is_ok() {
        socket.end();
    }
}

// Returns whether an error of `accept` concerns only the new connection, and not the listening
// socket.
fn is_of_connection(kind: ErrorKind) -> bool {
    matches!(kind, ErrorKind::ConnectionAborted | ErrorKind::Interrupted)
}

/// Serves HTTP/1.1 requests on `connections` connections, one after the other.
///
/// Each connection has one request. The request's timestamp is the clock's time when the connection
/// was accepted. [`handle_named`] tests the host. If a connection fails, it counts as served, and
/// the next connection follows. A connection without a response 10 seconds after its acceptance, by
/// the monotonic clock, is dropped. Each socket call waits for at most a second. An error of the
/// listening socket ends the call.
pub fn serve_connections<R: std::rt::Clock, L: OpenListener, B: Books, C: Clock>(
    rt: &R,
    alloc: Global,
    listener: &L,
    connections: u64,
    names: &[&str],
    office: &mut Office<B>,
    clock: &mut C,
) -> io::Result<()>
where
    L::Stream: Read + Write + OpenStream + Drop,
    ensures serves { After B.ledger office.old office.new (λ past. ServesUpTo (texts names.now)
        connections (C.moments clock.old) (C.moments clock.new) B.ledger past office.new) }
    ensures lasts { Lasts B.ledger office.old office.new }
{
    for _connection in 0..connections {
        match listener.accept() {
            Ok((stream, _)) => {
                let moment = clock.now();
                serve_connection(rt, alloc, stream, names, office, moment);
            }
            Err(error) => {
                if !is_of_connection(error.kind()) {
                    return Err(error);
                }
            }
        }
    }
    Ok(())
}

/// Serves HTTP requests on `connections` connections, one after the other, with one request on each
/// connection. Accepts only the host names of this machine.
///
/// `serve_on` uses `clock` only for the timestamps of HTTP requests. Connections have no deadline,
/// but each socket call waits for at most a second.
pub fn serve_on<L: OpenListener, B: Books, C: Clock>(
    alloc: Global,
    listener: &L,
    connections: u64,
    office: &mut Office<B>,
    clock: &mut C,
) -> io::Result<()>
where
    L::Stream: Read + Write + OpenStream + Drop,
    ensures serves { After B.ledger office.old office.new (λ past. ServesUpTo []
        connections (C.moments clock.old) (C.moments clock.new) B.ledger past office.new) }
    ensures lasts { Lasts B.ledger office.old office.new }
{
    serve_connections(
        &StoppedClock,
        alloc,
        listener,
        connections,
        &[],
        office,
        clock,
    )
}
