//! A bounded queue of log lines that are still to be written.
ghost use Rattle.std.specs.Prelude.{◌≡◌, OnOk};
ghost use Rattle.run_http.specs.Status.Monitor.Queues as queues;

use crate::status::status::{append_bytes, write_number};
use std::alloc::{AllocError, Global};

/// The maximum number of bytes in the queue of log lines. A longer text is accepted if the queue is
/// empty.
pub const MOST_WAITING: usize = 65_536;

/// A bounded queue of log lines. After the queue dropped a line because it was full, it drops and
/// counts all new lines. It accepts lines again when all waiting lines are written and the count is
/// reported.
#[derive(Drop)]
pub struct LineQueue {
    /// The bytes that were added to the queue of log lines since it was last empty.
    pub bytes: Vec<u8>,
    /// The number of bytes of `bytes` that were already written to the log.
    pub written: usize,
    /// The number of log lines that were dropped and not yet reported.
    pub dropped: u64,
}

fn count_lines(text: &[u8]) -> u64
    ensures { result ≡ queues.line_count text.now }
{
    text.iter().filter(|byte| **byte == b'\n').count() as u64
}

// Appends the log line that says how many log lines were dropped up to the time `at`.
fn write_dropped(text: &mut Vec<u8>, at: u64, dropped: u64) -> Result<(), AllocError>
    ensures { OnOk result (text.new.items ≡ queues.with_dropped at dropped text.old.items) }
{
    write_number(text, b"", at)?;
    write_number(text, b" - dropped ", dropped)?;
    append_bytes(text, b" lines\n")
}

impl LineQueue {
    ghost use Rattle.std.specs.Prelude.{◌≡◌, []};

    /// Makes an empty queue of log lines.
    pub fn new(alloc: Global) -> LineQueue
        ensures bytes { result.bytes.items ≡ [] }
        ensures written { result.written ≡ 0 }
        ensures dropped { result.dropped ≡ 0 }
    {
        LineQueue {
            bytes: Vec::new(alloc),
            written: 0,
            dropped: 0,
        }
    }
}

impl LineQueue {
    ghost use Rattle.std.specs.Prelude.{◌≡◌, ◌⊎◌, ◌+◌, ◌-◌, ◌^◌, min, drop};
    ghost use Rattle.run_http.specs.Status.Monitor.Queues as queues;
    ghost use Rattle.run_http.specs.Status.Monitor.Queues.{queue_of};

    fn is_written(&self) -> bool
        ensures { result ≡ queues.is_written (queue_of self.now) }
    {
        self.bytes.len() <= self.written
    }

    // Clears the queue of log lines if all its bytes were written.
    fn empty(&mut self)
        ensures { queue_of self.new ≡ queues.emptied (queue_of self.old) }
    {
        if self.is_written() {
            self.bytes.clear();
            self.written = 0;
        }
    }

    fn leave_out(&mut self, lines: &[u8])
        ensures { queue_of self.new ≡ queues.left_out lines.now (queue_of self.old) }
    {
        self.dropped = self.dropped.saturating_add(count_lines(lines));
    }

    // Returns whether the queue has room for log lines. After the queue dropped lines, it has no
    // room until the number of dropped lines is reported.
    fn has_room(&self, lines: &[u8]) -> bool
        ensures { result ≡ queues.has_room lines.now (queue_of self.now) }
    {
        let fits = self.bytes.len().saturating_add(lines.len()) <= MOST_WAITING;
        self.dropped == 0 && (self.bytes.is_empty() || fits)
    }

    // Adds log lines at the end of the queue. If room or memory does not suffice, drops and counts
    // the lines.
    fn write_after(&mut self, lines: &[u8])
        ensures { queues.PutsAfter lines.now (queue_of self.old) (queue_of self.new) }
    {
        if !self.has_room(lines) {
            self.leave_out(lines);
            return;
        }
        match self.bytes.extend_from_slice(lines) {
            Ok(()) => {}
            Err(_) => self.leave_out(lines),
        }
    }

    /// Adds complete log lines to the queue. If room or memory does not suffice for all of them,
    /// the queue drops and counts all of them.
    pub fn push_lines(&mut self, lines: &[u8])
        ensures { queues.Puts lines.now (queue_of self.old) (queue_of self.new) }
    {
        self.empty();
        self.write_after(lines);
    }

    /// If lines were dropped and all waiting lines were written, adds the line that says how many
    /// lines were dropped up to the time `at`. If memory runs out, a later call adds the line.
    pub fn append_dropped(&mut self, at: u64)
        ensures { queues.ReportsDropped at (queue_of self.old) (queue_of self.new) }
    {
        if self.dropped == 0 || !self.is_written() {
            return;
        }
        self.empty();
        match write_dropped(&mut self.bytes, at, self.dropped) {
            Ok(()) => self.dropped = 0,
            Err(_) => self.bytes.clear(),
        }
    }

    /// Returns the bytes of the queue of log lines that are still to be written.
    pub fn waiting(&self) -> &[u8]
        ensures { result.now ≡ queues.waiting_in (queue_of self.now) }
    {
        self.bytes.get(self.written..).unwrap_or(&[])
    }

    /// Records that `count` more bytes of the queue of log lines were written.
    pub fn advance(&mut self, count: usize)
        ensures bytes { self.new.bytes ≡ self.old.bytes }
        ensures written { self.new.written ≡ min (self.old.written + count) (2 ^ 64 - 1) }
        ensures dropped { self.new.dropped ≡ self.old.dropped }
    {
        self.written = self.written.saturating_add(count);
    }
}
