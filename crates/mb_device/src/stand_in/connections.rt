//! Accepts connections to a simulated device, one after another.
ghost use Rattle.std.specs.Prelude.{◌≤◌, ◌+◌};
ghost use Rattle.mb_device.specs.Server.{around};
ghost use Rattle.mb_device.specs.StandIn.Connections.{ServesSome};
ghost use Rattle.mb_device.specs.StandIn.Exchanges.{Exchanged};

use crate::{Bank, ServeFault, Server, Trick};
use mb_wire::Link;
use mb_wire::sockets::SocketLink;
use std::io::{self, Read, Write};
use std::net::{OpenListener, OpenStream};

/// The greatest number of turns (reads) of one connection. Each turn waits at most one second for
/// input.
pub const MOST_TURNS: u32 = 100_000;

/// Responds to the frames of a connection until its input ends, with at most `MOST_TURNS` reads.
/// Returns the number of frames executed, including frames whose response an injected fault
/// dropped, delayed or cut off.
pub fn answer_one<L: Link>(
    link: &mut L,
    bank: &mut Bank,
    tricks: &[(u64, Trick)],
) -> Result<u64, ServeFault>
    ensures serves { ServesSome tricks.now result
        (around (L.remaining link.old) (L.given link.old) bank.old)
        (around (L.remaining link.new) (L.given link.new) bank.new) }
    ensures turns { L.taken link.new ≤ L.taken link.old + MOST_TURNS }
{
    let mut server = Server::tricked(tricks);
    server.serve(link, bank, MOST_TURNS)
}

// Serves one connection to a simulated device. A failure ends only this connection.
fn answer_stream<S: Read + Write + OpenStream + Drop>(
    stream: S,
    bank: &mut Bank,
    tricks: &[(u64, Trick)],
)
    ensures { Exchanged bank.old bank.new }
{
    let _no_delay = stream.set_nodelay(true);
    let Ok(mut link) = SocketLink::new(stream) else {
        return;
    };
    let _answered = answer_one(&mut link, bank, tricks);
}

/// Accepts `connections` connections, one after another, and serves the simulated device on each.
///
/// Injected faults start again on each connection, and the register map keeps its values. A failure
/// of a connection ends only that connection. A client that sends nothing loses its connection
/// after at most `MOST_TURNS` seconds. If the listener fails, the call returns the listener's
/// error.
pub fn answer_all<L: OpenListener>(
    listener: &L,
    connections: u32,
    bank: &mut Bank,
    tricks: &[(u64, Trick)],
) -> io::Result<()>
where
    L::Stream: Read + Write + OpenStream + Drop,
    ensures { Exchanged bank.old bank.new }
{
    for _connection in 0..connections {
        let (stream, _client) = listener.accept()?;
        answer_stream(stream, bank, tricks);
    }
    Ok(())
}
