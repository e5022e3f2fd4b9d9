//! Writes the output of a command that works on a database file.
use command_io::Buffered;
use std::alloc::Global;
use std::io::{self, LineWriter, Write};

/// A writer for the output of a command that works on a database file. It writes chunks of about 8
/// KiB, or line by line. With line output, it can also store a copy of the output.
///
/// `CommandOutput` is one type with a variant for each way of printing. Thus the generic functions
/// that write to it are compiled only once.
#[derive(Drop)]
pub(crate) enum CommandOutput<W: Write + Drop> {
    Pieces(Buffered<W>),
    Lines(LineWriter<W>),
    Kept(LineWriter<W>, Vec<u8>),
}

impl<W: Write + Drop> CommandOutput<W> {
    pub(crate) fn in_pieces(output: W) -> CommandOutput<W> {
        CommandOutput::Pieces(Buffered::new(output))
    }

    pub(crate) fn by_lines(alloc: Global, output: W) -> io::Result<CommandOutput<W>> {
        Ok(CommandOutput::Lines(LineWriter::new(alloc, output)?))
    }

    /// Creates a writer that writes line by line, and stores a copy of its output. If memory runs
    /// out, the copy is incomplete.
    pub(crate) fn keeping(alloc: Global, output: W) -> io::Result<CommandOutput<W>> {
        Ok(CommandOutput::Kept(LineWriter::new(alloc, output)?, Vec::new(alloc)))
    }

    /// Returns the stored copy of the output, or no bytes if the writer stores no copy.
    pub(crate) fn kept(&self) -> &[u8] {
        match self {
            CommandOutput::Pieces(_) | CommandOutput::Lines(_) => &[],
            CommandOutput::Kept(_, kept) => kept.as_slice(),
        }
    }
}

impl<W: Write + Drop> Write for CommandOutput<W> {
    fn write(&mut self, bytes: &[u8]) -> io::Result<usize> {
        match self {
            CommandOutput::Pieces(output) => output.write(bytes),
            CommandOutput::Lines(output) => output.write(bytes),
            CommandOutput::Kept(output, kept) => {
                let count = output.write(bytes)?;
                let _kept = kept.extend_from_slice(bytes.get(..count).unwrap_or(bytes));
                Ok(count)
            }
        }
    }

    fn flush(&mut self) -> io::Result<()> {
        match self {
            CommandOutput::Pieces(output) => output.flush(),
            CommandOutput::Lines(output) | CommandOutput::Kept(output, _) => output.flush(),
        }
    }
}
