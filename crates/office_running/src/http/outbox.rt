//! Bytes of a response that wait to be written to a socket.
ghost use Rattle.std.specs.Prelude.{◌≡◌, ◌==◌, ◌≤◌, ◌++◌, [], drop, length, nat_le, OnOk};
ghost use Rattle.office_running.specs.Http.Outbox.{went_of};

use mio::net::TcpStream;
use std::alloc::{AllocError, Global};
use std::io::{ErrorKind, Write};

/// The maximum number of reads from a socket in a row, and of writes to a socket in a row.
pub(crate) const MOST_CALLS: u32 = 16;

/// The outcome of a read from a socket or a write to the socket: continue at once, wait until the
/// socket is ready, or end the connection.
#[derive(Clone, Copy)]
pub enum Went {
    /// At least one byte was read from the socket or written to it, or the system call was
    /// interrupted.
    On,
    /// The socket has no input, or no room for output, at present.
    Waits,
    /// The client's connection has ended, or a read or write of its socket failed.
    Over,
}

/// Returns the outcome of a failed read or write of a socket: retry, wait until the socket is
/// ready, or end the connection.
pub fn went_by(kind: ErrorKind) -> Went
    ensures { result ≡ went_of kind }
{
    match kind {
        ErrorKind::WouldBlock => Went::Waits,
        ErrorKind::Interrupted => Went::On,
        _ => Went::Over,
    }
}

/// The bytes of a response, and how many of them the socket has accepted.
#[derive(Drop)]
pub struct Outbox {
    bytes: Vec<u8>,
    written: usize,
}

impl Outbox {
    /// Makes an output buffer with the unsent bytes `bytes`.
    pub fn new(bytes: Vec<u8>) -> Outbox
        ensures bytes { result.bytes.items ≡ bytes.items }
        ensures written { result.written ≡ 0 }
    {
        Outbox { bytes, written: 0 }
    }

    /// Makes an empty output buffer.
    pub fn empty(alloc: Global) -> Outbox
        ensures bytes { result.bytes.items ≡ [] }
        ensures written { result.written ≡ 0 }
    {
        Outbox::new(Vec::new(alloc))
    }

    /// Returns whether the output buffer has no bytes, sent or unsent.
    pub fn is_empty(&self) -> bool
        ensures { result ≡ (length self.now.bytes.items == 0) }
    {
        self.bytes.is_empty()
    }

    /// Returns the number of bytes in the output buffer, sent and unsent.
    pub fn len(&self) -> usize
        ensures { result ≡ length self.now.bytes.items }
    {
        self.bytes.len()
    }

    /// Returns whether all bytes of the output buffer were written.
    pub fn is_written(&self) -> bool
        ensures { result ≡ nat_le (length self.now.bytes.items) self.now.written }
    {
        self.written >= self.bytes.len()
    }

    /// Appends bytes to those that wait to be written to a socket. Fails if memory runs out.
    pub fn push_bytes(&mut self, bytes: &[u8]) -> Result<(), AllocError>
        ensures { OnOk result (drop self.new.written self.new.bytes.items
            ≡ drop self.old.written self.old.bytes.items ++ bytes.now) }
    {
        if self.is_written() {
            self.bytes.clear();
            self.written = 0;
        }
        self.bytes.extend_from_slice(bytes)
    }

    // Writes unsent bytes to the socket with one system call.
    fn write(&mut self, stream: &TcpStream) -> Went
        ensures bytes { self.new.bytes ≡ self.old.bytes }
        ensures written { self.old.written ≤ self.new.written }
    {
        let mut stream: &TcpStream = stream;
        let Some(rest) = self.bytes.get(self.written..) else {
            return Went::Over;
        };
        match stream.write(rest) {
            Ok(0) => Went::Over,
            Ok(count) => {
                self.written = self.written.saturating_add(count);
                Went::On
            }
            Err(error) => went_by(error.kind()),
        }
    }

    /// Writes until the socket accepts no more bytes, at most 16 times. Returns [`Went::On`] if all
    /// bytes were written, or if the socket may accept more bytes at once.
    pub fn write_all(&mut self, stream: &TcpStream) -> Went
        ensures bytes { self.new.bytes ≡ self.old.bytes }
        ensures written { self.old.written ≤ self.new.written }
    {
        for _write in 0..MOST_CALLS {
            if self.is_written() {
                return Went::On;
            }
            let went = self.write(stream);
            if went != Went::On {
                return went;
            }
        }
        Went::On
    }
}
