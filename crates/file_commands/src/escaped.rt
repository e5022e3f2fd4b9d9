//! Makes output on standard error safe for a terminal: control bytes, except line feeds, are
//! written as escapes such as `\x1b`.
use std::io::{self, Write};

/// A writer that escapes all control bytes except line feeds, for example as `\x1b`. A name from a
/// user or a file therefore cannot control a terminal.
#[derive(Drop)]
pub struct Escaped<W: Write + Drop> {
    output: W,
}

// Returns whether a byte is written to the output without an escape. Only control characters other
// than the line feed are escaped.
fn is_plain(byte: u8) -> bool {
    byte == b'\n' || !byte.is_ascii_control()
}

// Returns the bytes before the first control character other than a line break, which must be
// escaped in printed text.
fn plain_front(bytes: &[u8]) -> &[u8] {
    match bytes.iter().position(|byte| !is_plain(*byte)) {
        Some(count) => bytes.get(..count).unwrap_or(bytes),
        None => bytes,
    }
}

impl<W: Write + Drop> Escaped<W> {
    pub fn new(output: W) -> Escaped<W> {
        Escaped { output }
    }
}

impl<W: Write + Drop> Write for Escaped<W> {
    fn write(&mut self, bytes: &[u8]) -> io::Result<usize> {
        let plain = plain_front(bytes);
        let [byte, ..] = bytes else {
            return Ok(0);
        };
        if plain.is_empty() {
            write!(self.output, "\\x{:02x}", *byte)?;
            return Ok(1);
        }
        let count = self.output.write(plain)?;
        Ok(count.min(bytes.len()))
    }

    fn flush(&mut self) -> io::Result<()> {
        self.output.flush()
    }
}
