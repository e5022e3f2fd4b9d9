//! Connections to simulated devices over the loopback network interface.
use crate::looping::wires::{Connects, Ends};
use mb_wire::sockets::SocketLink;
use std::io;
use std::net::{Net, OpenListener, OpenStream, SocketAddr, TcpListener, TcpStream};
use std::time::Duration;

/// The timeout of a read from a loopback connection, in milliseconds.
const WAIT: u64 = 20;

/// A listener on the loopback network interface, which makes pairs of connected sockets.
#[derive(Drop)]
pub struct Loopback<'r, R: Net> {
    net: &'r R,
    listener: R::Listener,
    address: SocketAddr,
}

impl<'r, R: Net> Loopback<'r, R> {
    /// Opens a listener on 127.0.0.1, at a port that the operating system chooses.
    pub fn new(net: &'r R) -> io::Result<Loopback<'r, R>> {
        let listener = TcpListener::bind(net, "127.0.0.1:0")?;
        let address = listener.local_addr()?;
        Ok(Loopback {
            net,
            listener,
            address,
        })
    }
}

impl<R: Net> Connects for Loopback<'_, R> {
    type End = SocketLink<R::Stream>;

    fn connect(&mut self) -> io::Result<Ends<SocketLink<R::Stream>>> {
        let near = TcpStream::connect(self.net, self.address)?;
        let (far, _client) = self.listener.accept()?;
        near.set_nodelay(true)?;
        far.set_nodelay(true)?;
        let wait = Duration::from_millis(WAIT);
        Ok(Ends {
            near: SocketLink::waiting(near, wait)?,
            far: SocketLink::waiting(far, wait)?,
        })
    }
}
