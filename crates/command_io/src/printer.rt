//! An output to which a command prints, and a writer that records whether its last write failed.
ghost use Rattle.std.specs.Prelude.{◌≡◌, ℕ, List, [], Option, IsOk, OnErr, ⊤};
ghost use Rattle.sun_points.specs.Writing.{GotText};
ghost use Rattle.command_io.specs.Noting.{IsFailing, is_unwritten, written_on};

use std::io::{self, ErrorKind, Write};
use sun_points::Sink;

/// An output to which each call of `print` writes one text. `NotedWriter` records whether the write
/// failed; other writers do not.
pub trait Printer {
    // The bytes that the output received, or `None` if the contracts of the output don't state
    // them.
    ghost contents: { Self → Option (List ℕ) };

    // States that the last call of `print`, which writes a text to the output, did not write its
    // complete text.
    ghost has_failed: { Self → Type 0 };

    /// Writes the complete text, or fails. After an error a part of the text may have been written.
    fn print(&mut self, text: &[u8]) -> io::Result<()>
        ensures bytes { GotText result text.now (contents self.old) (contents self.new) }
        ensures nothing { text.now ≡ [] → IsOk result }
        ensures failed { OnErr result (has_failed self.new) };
}

impl<W: Write> Printer for W {
    ghost contents = { W.contents };

    ghost has_failed = { λ _. ⊤ };

    fn print(&mut self, text: &[u8]) -> io::Result<()> {
        self.take_text(text)
    }
}

/// A writer that records whether its last write failed or accepted no bytes.
#[derive(Drop)]
pub struct NotedWriter<W> {
    pub(crate) output: W,
    pub(crate) failed: bool,
}

// Returns whether the result of a write is an error or a count of 0 bytes.
fn is_unwritten(answer: &io::Result<usize>) -> bool
    ensures { result ≡ is_unwritten answer.now }
{
    match answer {
        Ok(count) => *count == 0,
        Err(_) => true,
    }
}

impl<W: Write> NotedWriter<W> {
    ghost use Rattle.std.specs.Io.{WritesAtMost};
    ghost use Rattle.std.specs.Io.KnownBytes.{WriteAppends};

    /// Creates a `NotedWriter` (a writer that records whether its last write failed), in which no
    /// write has failed yet.
    pub fn new(output: W) -> NotedWriter<W>
        ensures output { written_on result ≡ output }
        ensures works { IsFailing result → ⊥ }
    {
        NotedWriter {
            output,
            failed: false,
        }
    }

    /// Returns the inner writer, which the `NotedWriter` (a writer that records whether its last
    /// write failed) wraps.
    pub fn into_output(self) -> W
        ensures { result ≡ written_on self }
    {
        let NotedWriter { output, .. } = self;
        output
    }

    // Makes one call of `write`, and records whether the call failed or accepted no bytes.
    fn write_once(&mut self, bytes: &[u8]) -> io::Result<usize>
        ensures bound { WritesAtMost result bytes.now }
        ensures bytes { WriteAppends (W.contents self.old.output) (W.contents self.new.output)
            result bytes.now }
        ensures failed { self.new.failed ≡ is_unwritten result }
    {
        let answer = self.output.write(bytes);
        self.failed = is_unwritten(&answer);
        answer
    }

    // Writes some of the bytes with `write`. Retries an interrupted call, up to 2^64 - 2 times.
    fn write_some(&mut self, bytes: &[u8]) -> io::Result<usize>
        ensures bound { WritesAtMost result bytes.now }
        ensures bytes { WriteAppends (W.contents self.old.output) (W.contents self.new.output)
            result bytes.now }
        ensures failed { self.new.failed ≡ is_unwritten result }
    {
        for _time in 0..u64::MAX {
            match self.write_once(bytes) {
                Ok(count) => return Ok(count),
                Err(error) if error.kind() == ErrorKind::Interrupted => {}
                Err(error) => return Err(error),
            }
        }
        Err(io::Error::from(ErrorKind::TimedOut))
    }
}

// Writes all bytes, in several writes if needed.
fn write_rest<W: Write>(noted: &mut NotedWriter<W>, bytes: &[u8]) -> io::Result<()>
    ensures bytes { GotText result bytes.now (W.contents (written_on noted.old))
        (W.contents (written_on noted.new)) }
    ensures nothing { bytes.now ≡ [] → IsOk result }
    ensures failed { OnErr result (IsFailing noted.new) }
{
    if bytes.is_empty() {
        return Ok(());
    }
    let count = noted.write_some(bytes)?;
    if count == 0 {
        return Err(io::Error::from(ErrorKind::WriteZero));
    }
    write_rest(noted, &bytes[count..])
}

impl<W: Write> Printer for NotedWriter<W> {
    ghost contents = { λ noted. W.contents (written_on noted) };

    ghost has_failed = { IsFailing };

    fn print(&mut self, text: &[u8]) -> io::Result<()> {
        write_rest(self, text)
    }
}
