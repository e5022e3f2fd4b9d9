//! Writers for tests that accept only a limited number of bytes.
use std::io::{self, ErrorKind, Write};

/// A writer that fails after it has accepted `room` bytes.
#[derive(Drop)]
pub(crate) struct Narrow {
    pub(crate) room: usize,
}

impl Write for Narrow {
    fn write(&mut self, bytes: &[u8]) -> io::Result<usize> {
        if self.room == 0 && !bytes.is_empty() {
            return Err(io::Error::from(ErrorKind::BrokenPipe));
        }
        let count = bytes.len().min(self.room);
        self.room -= count;
        Ok(count)
    }

    fn flush(&mut self) -> io::Result<()> {
        Ok(())
    }
}
