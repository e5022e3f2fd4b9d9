//! Writes the output of a run of `sunreg run` without blocking, even if the reader of a pipe or
//! terminal is slow.
use mio::unix::SourceFd;
use mio::{Events, Interest, Poll, Token};
use run_http::status::LineQueue;
use std::alloc::Global;
use std::io::{self, ErrorKind, Write};
use std::net::Net;
use std::os::fd::RawFd;
use std::time::Duration;

/// The maximum number of bytes in one write to a pipe or terminal. Each pipe or terminal that is
/// ready for output accepts this number of bytes without blocking.
const PIECE: usize = 512;

/// The maximum number of writes to an output in one pass of the event loop. So a long queue does
/// not delay the devices.
const MOST_PIECES: u32 = 128;

// A file descriptor, with the event queue that asks the system whether a write to it would block.
#[derive(Drop)]
struct Gauge {
    poll: Poll,
    events: Events<Global>,
    descriptor: RawFd,
}

impl Gauge {
    // Prepares to ask the system whether a write to a file descriptor would block. Returns `None`
    // if the system cannot say so, as for a regular file. A write to a regular file waits for no
    // reader.
    fn open<R: Net>(rt: &R, alloc: Global, descriptor: RawFd) -> Option<Gauge> {
        let Ok(poll) = Poll::new(rt) else {
            return None;
        };
        let Ok(events) = Events::with_capacity(alloc, 1) else {
            return None;
        };
        let registered = poll
            .registry()
            .register(&mut SourceFd(&descriptor), Token(0), Interest::WRITABLE);
        if registered.is_err() {
            return None;
        }
        Some(Gauge {
            poll,
            events,
            descriptor,
        })
    }

    // Returns whether a write to the file descriptor would not block. Registering the descriptor
    // again with the event queue makes the system check this now. If registering fails, the
    // function returns true.
    fn is_writable(&mut self) -> bool {
        let registered = self.poll.registry().reregister(
            &mut SourceFd(&self.descriptor),
            Token(0),
            Interest::WRITABLE,
        );
        if registered.is_err() {
            return true;
        }
        match self
            .poll
            .poll(&mut self.events, Some(Duration::from_millis(0)))
        {
            Ok(()) => !self.events.is_empty(),
            Err(_) => false,
        }
    }
}

/// An output, such as standard output, whose lines are written without blocking.
///
/// Lines that can't be written yet without blocking wait in a queue. If the queue is full, new
/// lines are dropped and counted.
#[derive(Drop)]
pub(crate) struct Outlet {
    queue: LineQueue,
    gauge: Option<Gauge>,
}

impl Outlet {
    /// Opens an output on a file descriptor. Without a descriptor, the program assumes that a write
    /// never blocks.
    pub(crate) fn open<R: Net>(rt: &R, alloc: Global, descriptor: Option<RawFd>) -> Outlet {
        Outlet {
            queue: LineQueue::new(alloc),
            gauge: match descriptor {
                Some(descriptor) => Gauge::open(rt, alloc, descriptor),
                None => None,
            },
        }
    }

    /// Queues lines for the output. If earlier lines were dropped, the function first queues a line
    /// with timestamp `at` that reports how many were dropped.
    pub(crate) fn push_lines(&mut self, at: u64, lines: &[u8]) {
        self.queue.append_dropped(at);
        if !lines.is_empty() {
            self.queue.push_lines(lines);
        }
    }

    // Returns how many bytes of the queued output lines the next write can take without blocking.
    fn room(&mut self) -> usize {
        let waiting = self.queue.waiting().len();
        if waiting == 0 {
            return 0;
        }
        match &mut self.gauge {
            Some(gauge) => {
                if gauge.is_writable() {
                    waiting.min(PIECE)
                } else {
                    0
                }
            }
            None => waiting,
        }
    }

    // Writes the first `count` queued bytes to the output, and flushes the output.
    fn write_piece<W: Write>(&mut self, count: usize, output: &mut W) -> io::Result<()> {
        let waiting = self.queue.waiting();
        let piece = waiting.get(..count).unwrap_or(waiting);
        output.write_all(piece)?;
        output.flush()?;
        self.queue.advance(count);
        Ok(())
    }

    /// Writes as many queued lines as the reader of the output accepts now. If the reader has
    /// closed the pipe, the lines stay queued, as they do while a pipe is full.
    pub(crate) fn write<W: Write>(&mut self, output: &mut W) -> io::Result<()> {
        for _piece in 0..MOST_PIECES {
            let count = self.room();
            if count == 0 {
                return Ok(());
            }
            match self.write_piece(count, output) {
                Ok(()) => {}
                Err(error) if error.kind() == ErrorKind::BrokenPipe => return Ok(()),
                Err(error) => return Err(error),
            }
        }
        Ok(())
    }
}

/// Writes lines to a file descriptor without blocking. Drops the bytes that its reader does not
/// accept now.
pub fn write_without_waiting<R: Net, W: Write>(
    rt: &R,
    alloc: Global,
    descriptor: Option<RawFd>,
    lines: &[u8],
    output: &mut W,
) -> io::Result<()> {
    let mut outlet = Outlet::open(rt, alloc, descriptor);
    outlet.push_lines(0, lines);
    outlet.write(output)
}
