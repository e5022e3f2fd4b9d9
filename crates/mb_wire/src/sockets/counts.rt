//! Counts the calls of a connection: failed reads and writes, all reads, and reads that found the
//! end of the input.
ghost use Rattle.std.specs.Prelude.{◌≡◌, is_err, true, Some};
ghost use Rattle.mb_wire.specs.Links.{is_end, is_failed_give, risen};
ghost use Rattle.mb_wire.specs.Sockets.Beginnings.{CountsNothing};

use crate::{LastTake, LinkFailed, Took};

/// Counts of calls on a connection: failed reads and writes, all reads, and reads that found the
/// end of the input. `last` is the last read. The counts saturate at 2^64 - 1.
#[derive(Drop)]
pub struct Counts {
    pub failures: u64,
    pub takes: u64,
    pub ends: u64,
    pub last: Option<LastTake>,
}

impl Counts {
    pub fn new() -> Counts
        ensures { CountsNothing result }
    {
        Counts {
            failures: 0,
            takes: 0,
            ends: 0,
            last: None,
        }
    }

    /// Counts a read from the connection into a buffer of `room` bytes with the result `answer`.
    pub fn count_read(&mut self, room: usize, answer: Result<Took, LinkFailed>)
        ensures failures { self.new.failures ≡ risen (is_err answer) self.old.failures }
        ensures takes { self.new.takes ≡ risen true self.old.takes }
        ensures ends { self.new.ends ≡ risen (is_end answer) self.old.ends }
        ensures last { self.new.last ≡ Some (record { room = room; answer = answer }) }
    {
        self.takes = self.takes.saturating_add(1);
        match answer {
            Ok(Took::End) => self.ends = self.ends.saturating_add(1),
            Err(_) => self.failures = self.failures.saturating_add(1),
            Ok(Took::Bytes(_)) | Ok(Took::Idle) => {}
        }
        self.last = Some(LastTake { room, answer });
    }

    /// Updates the counts for a write of `bytes` to the connection, whose result is `answer`. A
    /// write that failed, or accepted none of the bytes, is counted as a failure.
    pub fn count_write(&mut self, bytes: &[u8], answer: Result<usize, LinkFailed>)
        ensures failures { self.new.failures ≡
            risen (is_failed_give answer bytes.now) self.old.failures }
        ensures takes { self.new.takes ≡ self.old.takes }
        ensures ends { self.new.ends ≡ self.old.ends }
        ensures last { self.new.last ≡ self.old.last }
    {
        match answer {
            Ok(count) if count > 0 || bytes.is_empty() => {}
            _ => self.failures = self.failures.saturating_add(1),
        }
    }
}
