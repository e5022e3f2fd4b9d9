//! The `Link` trait: a byte stream in both directions, such as a TCP connection.
ghost use Rattle.std.specs.Prelude.{◌≡◌, ◌≤◌, ℕ, List, length, true, is_err, Some, None, IfOk};
ghost use Rattle.std.specs.Io.KnownBytes.{Keeps, WriteAppends};
ghost use Rattle.mb_wire.specs.Links.{Gives, TakeConsumes, TakesAtMost};
ghost use Rattle.mb_wire.specs.Links.{is_end, is_failed_give, risen};
ghost use Rattle.std.specs.declared.option.Option.{Option};
ghost use Rattle.mb_wire.specs.declared.link.LastTake.{LastTake};

/// The result of a successful read from a link (a byte connection).
#[derive(Clone, Copy, PartialEq, Eq)]
pub enum Took {
    /// The number of bytes that a read returned. They are at the front of the read buffer.
    Bytes(usize),
    /// The other side of the connection finished sending: no further bytes will arrive.
    End,
    /// No bytes have arrived yet, and the other side of the connection has not finished sending.
    Idle,
}

/// The error of a failed read from a link or a failed write to it.
#[derive(Clone, Copy, Debug, PartialEq, Eq)]
pub struct LinkFailed;

/// The last read from a link: the size of the read buffer in bytes, and the result.
#[derive(Clone, Copy, PartialEq, Eq)]
pub struct LastTake {
    pub room: usize,
    pub answer: Result<Took, LinkFailed>,
}

/// A byte connection, such as a TCP connection, that counts reads, failures and ends of the input.
/// The counts saturate at 2^64 - 1.
pub trait Link {
    // The input bytes that later reads will return, and the output bytes written until now. `None`
    // if they are not known, as for a socket.
    ghost remaining: { Self → Option (List ℕ) } = { λ _. None };

    ghost given: { Self → Option (List ℕ) } = { λ _. None };

    // Counts of calls: failed reads and writes, all reads, and reads that found the end of the
    // input. The counts saturate at 2^64 - 1.
    ghost failed: { Self → ℕ };

    ghost taken: { Self → ℕ };

    ghost ended: { Self → ℕ };

    // The last read from the link, or `None` before the first read.
    ghost last: { Self → Option LastTake };

    /// Reads received bytes into the front of `piece`.
    fn take(&mut self, piece: &mut [u8]) -> Result<Took, LinkFailed>
        ensures bound { TakesAtMost result piece.new }
        ensures bytes { TakeConsumes (remaining self.old) (remaining self.new) result piece.new }
        ensures given { Keeps (given self.old) (given self.new) }
        ensures failures { failed self.new ≡ risen (is_err result) (failed self.old) }
        ensures takes { taken self.new ≡ risen true (taken self.old) }
        ensures ends { ended self.new ≡ risen (is_end result) (ended self.old) }
        ensures last { last self.new ≡ Some (record { room = length piece.old; answer = result }) };

    /// Writes bytes to the connection. Returns the number of bytes that the connection accepted,
    /// counted from the first byte.
    fn give(&mut self, bytes: &[u8]) -> Result<usize, LinkFailed>
        ensures bound { IfOk result (λ n. n ≤ length bytes.now) }
        ensures bytes { WriteAppends (given self.old) (given self.new) result bytes.now }
        ensures remaining { Keeps (remaining self.old) (remaining self.new) }
        ensures failures { failed self.new ≡
            risen (is_failed_give result bytes.now) (failed self.old) }
        ensures takes { taken self.new ≡ taken self.old }
        ensures ends { ended self.new ≡ ended self.old }
        ensures last { last self.new ≡ last self.old };

    /// Returns the number of failures: reads and writes that returned `LinkFailed`, and writes that
    /// accepted no byte.
    fn failures(&self) -> u64
        ensures { result ≡ failed self.now };

    /// Returns how many times the program has read from the link (the byte connection to a device).
    fn takes(&self) -> u64
        ensures { result ≡ taken self.now };

    /// Returns the buffer size and the result of the last read from the link (a byte connection),
    /// or `None` before the first read.
    fn last_take(&self) -> Option<LastTake>
        ensures { result ≡ last self.now };
}

/// Writes all bytes to the connection, in several writes if needed. If a write fails, the
/// connection may have accepted some of the bytes.
pub fn give_all<L: Link>(link: &mut L, bytes: &[u8]) -> Result<(), LinkFailed>
    ensures given { Gives result (L.given link.old) (L.given link.new) bytes.now }
    ensures remaining { Keeps (L.remaining link.old) (L.remaining link.new) }
    ensures failures { L.failed link.new ≡ risen (is_err result) (L.failed link.old) }
    ensures takes { L.taken link.new ≡ L.taken link.old }
    ensures last { L.last link.new ≡ L.last link.old }
    ensures ends { L.ended link.new ≡ L.ended link.old }
{
    if bytes.is_empty() {
        return Ok(());
    }
    let count = link.give(bytes)?;
    if count == 0 {
        return Err(LinkFailed);
    }
    give_all(link, &bytes[count..])
}
