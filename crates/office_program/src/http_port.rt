//! Serves HTTP on a port, for an office (the engine that records meters' energy) that is opened
//! over a store.
ghost use Rattle.office_http.specs.Messages.Hosts.{texts};
ghost use Rattle.office_core.specs.Standing.{After};
ghost use Rattle.office_http.specs.Serving as http;
ghost use Rattle.office_program.specs.Texts.Passing.{Lasts};
ghost use Rattle.office_program.specs.HttpPort.{ServesBooks, ServesPort, port, scene};

use crate::command_end::CommandEnd;
use crate::texts::open_office;
use command_io::ExitStatus;
use mb_wire::sockets::Clock;
use office_books::Books;
use office_core::Office;
use office_http::serve_connections;
use std::alloc::Global;
use std::io::Write;
use std::net::{Net, TcpListener};

/// The ways in which a command that serves HTTP on a port ends.
#[derive(Clone, Copy, PartialEq, Eq)]
pub enum ServeEnd {
    /// The command ended because it served the requested number of HTTP connections.
    Served,
    /// The event engine was not opened. The command ends with this exit status.
    Unopened(ExitStatus),
    /// The command can't listen on the port.
    NoPort,
    /// The command ended because the listening socket of the HTTP port failed.
    Broken,
}

fn serve_port<R: Net + std::rt::Clock, B: Books, C: Clock>(
    rt: &R,
    alloc: Global,
    office: &mut Office<B>,
    place: (&str, u16),
    names: &[&str],
    connections: u32,
    clock: &mut C,
) -> ServeEnd
    ensures serves { After B.ledger office.old office.new
        (λ past. ServesPort (port (texts names.now) connections) (C.moments clock.old)
        (C.moments clock.new) B.ledger past office.old office.new result) }
    ensures lasts { http.Lasts B.ledger office.old office.new }
{
    let Ok(listener) = TcpListener::bind(rt, place) else {
        return ServeEnd::NoPort;
    };
    match serve_connections(
        rt,
        alloc,
        &listener,
        u64::from(connections),
        names,
        office,
        clock,
    ) {
        Ok(()) => ServeEnd::Served,
        Err(_) => ServeEnd::Broken,
    }
}

/// Opens an event engine over a store at the clock's time, and serves requests by HTTP/1.1 on a
/// port.
///
/// The command serves `connections` connections on the port of a host, and accepts requests for the
/// given host names, as `serve_connections` does. If opening the engine is refused, the command
/// prints only `refused N` and does not open the port. Returns the store.
pub fn serve_books<R: Net + std::rt::Clock, B: Books, C: Clock, W: Write>(
    rt: &R,
    alloc: Global,
    books: B,
    place: (&str, u16),
    names: &[&str],
    connections: u32,
    clock: &mut C,
    output: &mut W,
) -> CommandEnd<B, ServeEnd>
    ensures reports { ServesBooks B.ledger (port (texts names.now) connections) result.end
        (scene books (C.moments clock.old) (W.contents output.old))
        (scene result.books (C.moments clock.new) (W.contents output.new)) }
    ensures lasts { Lasts (B.ledger books) (B.ledger result.books) }
{
    match open_office(alloc, books, clock, output) {
        Ok(mut office) => {
            let end = serve_port(rt, alloc, &mut office, place, names, connections, clock);
            CommandEnd {
                books: office.into_books(),
                end,
            }
        }
        Err(unopened) => CommandEnd {
            books: unopened.books,
            end: ServeEnd::Unopened(unopened.status),
        },
    }
}
