//! A buffer for the bytes of a request that are read from a client's connection.
ghost use Rattle.std.specs.Prelude.{◌≤◌, length};

use mb_wire::{Link, LinkFailed, Took};
use std::error::Error;
use std::fmt;
use std::fmt::{Display, Formatter};

/// The most reads from a client's connection that one buffer makes.
pub const MOST_TAKES: u32 = 100_000;

/// The cause that ended the reading of a request.
#[derive(Clone, Copy, Debug, PartialEq, Eq)]
pub enum TakeFault {
    /// A read from the client's connection failed.
    Read,
    /// The input ended before the request was complete.
    Short,
    /// The request was not complete after 100,000 reads, the maximum for a buffer.
    TurnsUsed,
}

impl Display for TakeFault {
    fn fmt<W: fmt::Write>(&self, f: &mut Formatter<W>) -> fmt::Result {
        match self {
            TakeFault::Read => write!(f, "a read of the connection failed"),
            TakeFault::Short => write!(f, "the input ended inside the request"),
            TakeFault::TurnsUsed => write!(f, "the request was not whole after {MOST_TAKES} reads"),
        }
    }
}

impl Error for TakeFault {}

/// A buffer for the bytes of a request, in borrowed memory, with a count of the reads.
#[derive(Drop)]
pub struct Inbox<'a> {
    room: &'a mut [u8],
    filled: usize,
    takes: u32,
    ghost fits: { filled ≤ length room.now },
    ghost few: { takes ≤ 100000 },
}

impl<'a> Inbox<'a> {
    ghost use Rattle.std.specs.Prelude.{◌≡◌, ◌<◌, ◌+◌, [], length, Ok, OnOk};
    ghost use Rattle.std.specs.Io.KnownBytes.{Keeps};
    ghost use Rattle.mb_wire.specs.Links.{risen};
    ghost use Rattle.office_http.specs.Messages.Reading.Taking.{CountsTakes, EndedBy, TakesOn, brought, bytes_in, is_read_fault, room_of};

    /// Makes an empty buffer in the borrowed memory `room`.
    pub fn new(room: &'a mut [u8]) -> Inbox<'a>
        ensures empty { bytes_in result ≡ [] }
        ensures takes { result.takes ≡ 0 }
        ensures room { room_of result ≡ length room.entry.now }
    {
        Inbox {
            room,
            filled: 0,
            takes: 0,
        }
    }

    /// Returns all bytes that the buffer has read from the client's connection.
    pub fn bytes(&self) -> &[u8]
        ensures { result.now ≡ bytes_in self.entry.now }
    {
        &self.room[..self.filled]
    }

    /// Reads once more from the client's connection, unless the buffer has made 100,000 reads. A
    /// read that times out counts as a read and adds no bytes.
    pub fn take_more<L: Link>(&mut self, link: &mut L) -> Result<(), TakeFault>
        requires { length (bytes_in self.old) < room_of self.old }
        ensures takes_on { TakesOn result (bytes_in self.old) (bytes_in self.new)
            (L.remaining link.old) (L.remaining link.new) }
        ensures takes { CountsTakes result self.old self.new (L.taken link.old) (L.taken link.new) }
        ensures last { EndedBy result (L.last link.new) }
        ensures brought { OnOk result
            (length (bytes_in self.new) ≡ length (bytes_in self.old) + brought (L.last link.new)) }
        ensures given { Keeps (L.given link.old) (L.given link.new) }
        ensures failures { L.failed link.new ≡ risen (is_read_fault result) (L.failed link.old) }
        ensures counted { result ≡ Ok (record {}) → self.new.takes ≡ self.old.takes + 1 }
    {
        if self.takes == MOST_TAKES {
            return Err(TakeFault::TurnsUsed);
        }
        self.takes += 1;
        match link.take(&mut self.room[self.filled..]) {
            Ok(Took::Bytes(count)) => {
                self.filled += count;
                Ok(())
            }
            Ok(Took::End) => Err(TakeFault::Short),
            Ok(Took::Idle) => Ok(()),
            Err(LinkFailed) => Err(TakeFault::Read),
        }
    }
}
