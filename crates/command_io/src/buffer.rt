//! A buffered writer that passes complete lines to its inner writer.
ghost use Rattle.std.specs.Prelude.{◌≡◌, ◌≢◌, ◌≤◌, ◌<◌, ◌+◌, ◌-◌, ◌⊎◌, ◌++◌, [], length, drop, slice_index};

use std::io::{self, ErrorKind, Write};

/// The size of the buffer of a `Buffered` writer, in bytes.
const ROOM: usize = 8192;

/// A writer with a buffer of 8,192 bytes. A full buffer is written up to its last line end, or
/// completely if it has no line end. `flush` writes all buffered bytes.
///
/// A failed write loses no bytes: the buffer keeps the unwritten bytes. After a failed write, other
/// than an interrupted one, no further write is made.
#[derive(Drop)]
pub struct Buffered<W> {
    pub(crate) output: W,
    pub(crate) buffered: [u8; 8192],
    pub(crate) filled: usize,
    pub(crate) failed: bool,
    ghost room: { filled ≤ 8192 },
}

// Returns the length of the complete lines at the front of `bytes`, or the length of all bytes if
// they have no line end.
fn lines_len(bytes: &[u8]) -> usize
    ensures within { result ≤ length bytes.now }
    ensures some { 0 < length bytes.now → 0 < result }
    ensures line { (result ≡ length bytes.now) ⊎ (slice_index bytes.now (result - 1) ≡ 10) }
{
    let mut end = bytes.len();
    while end > 0 {
        if bytes[end - 1] == b'\n' {
            return end;
        }
        end -= 1;
    }
    bytes.len()
}

impl<W: Write> Buffered<W> {
    ghost use Rattle.std.specs.Prelude.{true, IsErr, OnOk, IfErr};
    ghost use Rattle.std.specs.IoError.{error_kind};
    ghost use Rattle.std.specs.Io.KnownBytes.{Keeps};
    ghost use Rattle.command_io.specs.Holding.{contents_of, buffered_in, output_of};

    /// Creates a writer with an empty buffer over `output`.
    pub fn new(output: W) -> Buffered<W>
        ensures output { output_of result ≡ output }
        ensures empty { buffered_in result ≡ [] }
    {
        Buffered {
            output,
            buffered: [0; ROOM],
            filled: 0,
            failed: false,
        }
    }

    /// Unwraps the inner writer, and discards the bytes in the buffer.
    pub fn into_output(self) -> W
        ensures { result ≡ output_of self }
    {
        let Buffered { output, .. } = self;
        output
    }

    // Passes some of the first `end` buffered bytes to the inner writer, in one write.
    fn write_front(&mut self, end: usize) -> io::Result<()>
        requires some { 0 < end }
        requires within { end ≤ self.old.filled }
        ensures less { OnOk result (self.new.filled < self.old.filled) }
        ensures bytes { Keeps (contents_of W.contents self.old) (contents_of W.contents self.new) }
        ensures stuck { self.old.failed ≡ true → IsErr result × (self.new ≡ self.old) }
        ensures failed { IfErr result
            (λ error. error_kind error ≢ ErrorKind.Interrupted → self.new.failed ≡ true) }
    {
        if self.failed {
            return Err(io::Error::from(ErrorKind::BrokenPipe));
        }
        match self.output.write(&self.buffered[..end]) {
            Ok(0) => {
                self.failed = true;
                Err(io::Error::from(ErrorKind::WriteZero))
            }
            Ok(count) => {
                self.drop_front(count);
                Ok(())
            }
            Err(error) => {
                self.failed = error.kind() != ErrorKind::Interrupted;
                Err(error)
            }
        }
    }

    // Removes the first `count` bytes from the buffer of bytes that are not yet written to the
    // output.
    fn drop_front(&mut self, count: usize)
        requires { count ≤ self.old.filled }
        ensures output { output_of self.new ≡ output_of self.old }
        ensures rest { buffered_in self.new ≡ drop count (buffered_in self.old) }
        ensures filled { self.new.filled ≡ self.old.filled - count }
    {
        self.buffered.copy_within(count..self.filled, 0);
        self.filled -= count;
    }

    // Appends bytes to the buffer, which must have room for them.
    fn hold(&mut self, bytes: &[u8])
        requires { self.old.filled + length bytes.now ≤ 8192 }
        ensures output { output_of self.new ≡ output_of self.old }
        ensures more { buffered_in self.new ≡ buffered_in self.old ++ bytes.now }
    {
        let end = self.filled + bytes.len();
        self.buffered[self.filled..end].copy_from_slice(bytes);
        self.filled = end;
    }

    // Writes buffered bytes to the inner writer if the buffer lacks room for `count` more bytes.
    // After success the buffer has room for at least one byte.
    fn make_room(&mut self, count: usize) -> io::Result<()>
        ensures room { OnOk result (self.new.filled < 8192 ⊎ (count ≡ 0)) }
        ensures bytes { Keeps (contents_of W.contents self.old) (contents_of W.contents self.new) }
    {
        if count > ROOM - self.filled && self.filled > 0 {
            let end = lines_len(&self.buffered[..self.filled]);
            self.write_front(end)?;
        }
        Ok(())
    }
}

impl<W: Write> Write for Buffered<W> {
    ghost use Rattle.std.specs.Prelude.{IfOk, OnOk};
    ghost use Rattle.std.specs.Io.{WritesAtMost};
    ghost use Rattle.std.specs.Io.KnownBytes.{Keeps, WriteAppends};
    ghost use Rattle.command_io.specs.Holding.{contents_of, buffered_in};

    ghost contents = { contents_of W.contents };

    fn write(&mut self, buf: &[u8]) -> io::Result<usize>
        ensures bound { WritesAtMost result buf.now }
        ensures bytes { WriteAppends (contents_of W.contents self.old)
            (contents_of W.contents self.new) result buf.now }
        ensures some { IfOk result (λ count. count ≡ 0 → length buf.now ≡ 0) }
    {
        self.make_room(buf.len())?;
        let count = buf.len().min(ROOM - self.filled);
        self.hold(&buf[..count]);
        Ok(count)
    }

    fn flush(&mut self) -> io::Result<()>
        ensures bytes { Keeps (contents_of W.contents self.old) (contents_of W.contents self.new) }
        ensures given { OnOk result (buffered_in self.new ≡ []) }
    {
        for _ in 0..u64::MAX {
            if self.filled == 0 {
                return self.output.flush();
            }
            match self.write_front(self.filled) {
                Ok(()) => {}
                Err(error) if error.kind() == ErrorKind::Interrupted => {}
                Err(error) => return Err(error),
            }
        }
        Err(io::Error::from(ErrorKind::TimedOut))
    }
}
