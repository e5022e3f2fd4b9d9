//! Polls a device once over TCP, for an office (the engine that records meters' energy) that is
//! opened over a store.
ghost use Rattle.office_program.specs.Passing as rounds;
ghost use Rattle.office_program.specs.Texts.Passing.{Lasts};
ghost use Rattle.office_program.specs.PortRound.{PollsOver, PollsPortOf};

use crate::RoundFault;
use crate::command_end::CommandEnd;
use crate::texts::{open_office, poll_round};
use command_io::ExitStatus;
use mb_wire::sockets::{Clock, SocketLink};
use office_books::Books;
use office_core::Office;
use office_events::Name;
use std::alloc::Global;
use std::io::{self, Write};
use std::net::{Net, TcpStream, ToSocketAddrs};
use std::time::Duration;

/// The number of seconds to wait for a connection at each address of the device's host.
pub const PATIENCE: u64 = 5;

/// The ways in which a command that polls a device once ends.
#[derive(Clone, Copy, PartialEq, Eq)]
pub enum PollEnd {
    /// The polling round ended, or a fault ended it early.
    Polled(Result<(), RoundFault>),
    /// The event engine was not opened. The command ends with this exit status.
    Unopened(ExitStatus),
    /// No connection to the device was established.
    Unconnected,
}

// Connects to the first address of the device's host that accepts a connection.
fn connect<R: Net>(net: &R, place: (&str, u16)) -> io::Result<SocketLink<R::Stream>> {
    for address in place.to_socket_addrs(net)? {
        if let Ok(stream) = TcpStream::connect_timeout(
            net,
            &address,
            Duration::from_secs(PATIENCE),
        ) {
            return SocketLink::new(stream);
        }
    }
    Err(io::Error::from(io::ErrorKind::ConnectionRefused))
}

fn poll_port<R: Net, B: Books, C: Clock, W: Write>(
    net: &R,
    alloc: Global,
    office: &mut Office<B>,
    device: &str,
    place: (&str, u16),
    clock: &mut C,
    output: &mut W,
) -> PollEnd
    ensures polls { PollsPortOf B.Books C.Clock W.Write device.now
        office.old office.new clock.old clock.new output.old output.new result }
    ensures lasts { rounds.Lasts B.ledger office.old office.new }
{
    let Ok(mut link) = connect(net, place) else {
        return PollEnd::Unconnected;
    };
    let name = Name::new(device.as_bytes());
    PollEnd::Polled(poll_round(alloc, &mut link, office, name, clock, output))
}

/// Opens an event engine over a store at the clock's time, and polls a device once: one poll for
/// each Modbus read of the device's plan.
///
/// The function polls the device at a port of a host in one polling round, and prints the event
/// engine's reports, as `poll_round` does. If opening the engine is refused, the function prints
/// only `refused N` and does not connect to the device. If `device` is no valid name, the engine
/// treats it as an unknown device. Returns the store.
pub fn poll_books<R: Net, B: Books, C: Clock, W: Write>(
    net: &R,
    alloc: Global,
    books: B,
    device: &str,
    place: (&str, u16),
    clock: &mut C,
    output: &mut W,
) -> CommandEnd<B, PollEnd>
    ensures reports { PollsOver B.Books C.Clock W.Write device.now books result.books
        clock.old clock.new output.old output.new result.end }
    ensures lasts { Lasts (B.ledger books) (B.ledger result.books) }
{
    match open_office(alloc, books, clock, output) {
        Ok(mut office) => {
            let end = poll_port(net, alloc, &mut office, device, place, clock, output);
            CommandEnd {
                books: office.into_books(),
                end,
            }
        }
        Err(unopened) => CommandEnd {
            books: unopened.books,
            end: PollEnd::Unopened(unopened.status),
        },
    }
}
