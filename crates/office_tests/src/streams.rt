//! Readers and writers that fail at one chosen call, and a helper that runs a script from such a
//! reader to such a writer.
use interval_core::Zone;
use script_run::{Replayed, replay};
use std::alloc::Global;
use std::io::{self, ErrorKind, Read, Write};
use std::process::Abort;

/// A reader that returns its text one byte at a time, and fails at one chosen call of `read`.
#[derive(Drop)]
pub(crate) struct Slow<'a> {
    text: &'a [u8],
    pub(crate) calls: usize,
    failing: usize,
    kind: ErrorKind,
}

impl<'a> Slow<'a> {
    /// Returns a reader whose call with number `failing` fails. Calls are numbered from 1.
    pub(crate) fn new(text: &'a [u8], failing: usize, kind: ErrorKind) -> Slow<'a> {
        Slow {
            text,
            calls: 0,
            failing,
            kind,
        }
    }

    /// Returns a reader whose calls all succeed.
    pub(crate) fn whole(text: &'a [u8]) -> Slow<'a> {
        Slow::new(text, 0, ErrorKind::Other)
    }
}

impl Read for Slow<'_> {
    fn read(&mut self, buf: &mut [u8]) -> io::Result<usize> {
        self.calls = self.calls.saturating_add(1);
        if self.failing == self.calls {
            return Err(io::Error::from(self.kind));
        }
        match (self.text, buf.first_mut()) {
            ([first, rest @ ..], Some(place)) => {
                *place = *first;
                self.text = rest;
                Ok(1)
            }
            _ => Ok(0),
        }
    }
}

/// A writer that collects its bytes, at most `most` in one call, and fails at one chosen call of
/// `write`.
#[derive(Drop)]
pub(crate) struct Kept {
    pub(crate) got: Vec<u8>,
    pub(crate) calls: usize,
    failing: usize,
    most: usize,
}

impl Kept {
    pub(crate) fn new(alloc: Global, failing: usize, most: usize) -> Kept {
        Kept {
            got: Vec::new(alloc),
            calls: 0,
            failing,
            most,
        }
    }

    /// Returns a writer whose calls all succeed.
    pub(crate) fn whole(alloc: Global) -> Kept {
        Kept::new(alloc, usize::MAX, 8192)
    }

    /// Asserts that the writer received a prefix of the output, or the complete output if no call
    /// of the writer failed. Also asserts that no call followed a failed call. Returns true if no
    /// call failed.
    pub(crate) fn assert_written(&self, rt: &impl Abort, output: &str) -> bool {
        let whole = self.calls < self.failing;
        assert!(rt; self.calls <= self.failing);
        assert!(rt; output.as_bytes().starts_with(&self.got));
        assert!(rt; (self.got.as_slice() == output.as_bytes()) == whole);
        whole
    }
}

impl Write for Kept {
    fn write(&mut self, buf: &[u8]) -> io::Result<usize> {
        self.calls = self.calls.saturating_add(1);
        if self.failing == self.calls {
            return Err(io::Error::from(ErrorKind::BrokenPipe));
        }
        let count = buf.len().min(self.most);
        self.got.extend_from_slice(&buf[..count])?;
        Ok(count)
    }

    fn flush(&mut self) -> io::Result<()> {
        Ok(())
    }
}

/// Returns the time zone that the tests use.
pub(crate) fn zone(rt: &impl Abort) -> Zone {
    Zone::read("UTC0").ok().expect(rt, "no zone")
}

/// Runs a script (a text of commands, events and queries) with `replay`. All tests share this call,
/// because `replay` is generic over its streams.
pub(crate) fn run(
    rt: &impl Abort,
    alloc: Global,
    input: &mut Slow<'_>,
    output: Kept,
) -> Replayed<Kept> {
    replay(alloc, zone(rt), input, output)
}
