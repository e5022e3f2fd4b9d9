//! The trait of a destination that accepts a complete text in one call.
ghost use Rattle.std.specs.Prelude.{◌≡◌, ◌≢◌, List, ℕ, IfErr, IsTrue, ◌↔◌};
ghost use Rattle.std.specs.IoError.{error_kind};
ghost use Rattle.std.specs.declared.result.Result.{Result};
ghost use Rattle.std.specs.declared.io.Error.{Error};
ghost use Rattle.sun_points.specs.Writing.{GotText, TakesText};

use std::io::{self, ErrorKind, Write};

/// A destination that accepts a complete text in one call. Functions that print a value return the
/// result of one such call unchanged.
pub trait Sink {
    // The guarantee of writing a text to a destination: the relation between the destination before
    // and after, the text and the result.
    ghost takes: { Self → List ℕ → Result (Unit {0}) Error → Self → Type 0 };

    /// Writes the complete text, or fails. After an error, the destination may have received a
    /// first part of the text.
    fn take_text(&mut self, text: &[u8]) -> io::Result<()>
        ensures { takes self.old text.now result self.new };
}

/// Makes any writer a destination of complete texts. The text is written in at most 2^64 - 1
/// writes, and a write of 0 bytes is the error `WriteZero`.
impl<W: Write> Sink for W {
    ghost takes = { λ old text result new.
        TakesText result text (W.contents old) (W.contents new) };

    fn take_text(&mut self, text: &[u8]) -> io::Result<()> {
        if text.is_empty() {
            return Ok(());
        }
        write_whole(text, self)
    }
}

// Writes the complete text, unless the writer fails or accepts no byte. An interrupted write is
// retried.
fn write_whole<W: Write>(text: &[u8], writer: &mut W) -> io::Result<()>
    ensures bytes { GotText result text.now (W.contents writer.old) (W.contents writer.new) }
    ensures made_again { IfErr result (λ error. error_kind error ≢ ErrorKind.Interrupted) }
{
    let mut rest = text;
    for _ in 0..u64::MAX {
        if rest.is_empty() {
            return Ok(());
        }
        match writer.write(rest) {
            Ok(0) => return Err(io::Error::from(ErrorKind::WriteZero)),
            Ok(count) => rest = &rest[count..],
            Err(error) if is_interruption(&error) => {}
            Err(error) => return Err(error),
        }
    }
    Err(io::Error::from(ErrorKind::TimedOut))
}

fn is_interruption(error: &io::Error) -> bool
    ensures { IsTrue result ↔ (error_kind error.now ≡ ErrorKind.Interrupted) }
{
    error.kind() == ErrorKind::Interrupted
}
