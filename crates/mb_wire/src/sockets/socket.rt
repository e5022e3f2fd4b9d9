//! A byte connection over a connected socket.
ghost use Rattle.std.specs.Prelude.{◌≡◌};

use crate::sockets::counts::Counts;
use crate::{LastTake, Link, LinkFailed, Took};
use std::io::{self, ErrorKind, Read, Write};
use std::net::{OpenStream, Shutdown};
use std::time::Duration;

/// A link over a connected socket. `new` sets a timeout of one second, and `waiting` sets the given
/// timeout.
///
/// A read that times out returns `Took::Idle`. A write that times out fails. Any call that a signal
/// interrupts fails too.
#[derive(Drop)]
pub struct SocketLink<S: Drop> {
    stream: S,
    counts: Counts,
}

impl<S: Read + Write + OpenStream + Drop> SocketLink<S> {
    ghost use Rattle.std.specs.Prelude.{IfOk};
    ghost use Rattle.mb_wire.specs.Sockets.Beginnings.{IsFresh};

    /// Creates a link over a connected socket, and sets the socket's read and write timeouts to one
    /// second.
    pub fn new(stream: S) -> io::Result<SocketLink<S>>
        ensures { IfOk result IsFresh }
    {
        SocketLink::waiting(stream, Duration::from_secs(1))
    }

    /// Creates a link over a connected socket, and sets the socket's read and write timeouts to
    /// `wait`.
    pub fn waiting(stream: S, wait: Duration) -> io::Result<SocketLink<S>>
        ensures { IfOk result IsFresh }
    {
        stream.set_read_timeout(Some(wait))?;
        stream.set_write_timeout(Some(wait))?;
        Ok(SocketLink {
            stream,
            counts: Counts::new(),
        })
    }

    /// Closes a connection on which the other side may still send bytes.
    ///
    /// Shuts down the sending side, and then discards input until the input ends, a read fails or
    /// times out, or ten reads were made. Closing a socket with unread input would reset the
    /// connection, and the other side might lose the last response.
    pub fn end(mut self) {
        if self.stream.shutdown(Shutdown::Write).is_err() {
            return;
        }
        let mut piece = [0; 8192];
        for _piece in 0..10 {
            match self.stream.read(&mut piece) {
                Ok(count) if count > 0 => {}
                _ => return,
            }
        }
    }
}

impl<S: Read + Write + Drop> SocketLink<S> {
    ghost use Rattle.mb_wire.specs.Links.{TakesAtMost};

    // Reads from the socket once. A read of 0 bytes means the end of the input.
    fn read(&mut self, piece: &mut [u8]) -> Result<Took, LinkFailed>
        ensures bound { TakesAtMost result piece.new }
        ensures counts { self.new.counts ≡ self.old.counts }
    {
        match self.stream.read(piece) {
            Ok(0) => Ok(Took::End),
            Ok(count) => Ok(Took::Bytes(count)),
            Err(error) => match error.kind() {
                ErrorKind::WouldBlock | ErrorKind::TimedOut => Ok(Took::Idle),
                _ => Err(LinkFailed),
            },
        }
    }
}

impl<S: Read + Write + Drop> Link for SocketLink<S> {
    ghost failed = { λ link. link.counts.failures };

    ghost taken = { λ link. link.counts.takes };

    ghost ended = { λ link. link.counts.ends };

    ghost last = { λ link. link.counts.last };

    fn take(&mut self, piece: &mut [u8]) -> Result<Took, LinkFailed> {
        let answer = self.read(piece);
        self.counts.count_read(piece.len(), answer);
        answer
    }

    fn give(&mut self, bytes: &[u8]) -> Result<usize, LinkFailed> {
        let answer = match self.stream.write(bytes) {
            Ok(count) => Ok(count),
            Err(_) => Err(LinkFailed),
        };
        self.counts.count_write(bytes, answer);
        answer
    }

    fn failures(&self) -> u64 {
        self.counts.failures
    }

    fn takes(&self) -> u64 {
        self.counts.takes
    }

    fn last_take(&self) -> Option<LastTake> {
        self.counts.last
    }
}
