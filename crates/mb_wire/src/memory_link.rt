//! A connection over slices in memory, for tests. One of the reads and writes can be set to fail.
ghost use Rattle.std.specs.Prelude.{◌≡◌, ◌≤◌, ◌+◌, ◌-◌, ◌==◌, length, take};
ghost use Rattle.std.specs.Prelude.{is_err, Some, None, IfOk};
ghost use Rattle.mb_wire.specs.Links.{TakeConsumes, TakesAtMost, is_call, is_end};
ghost use Rattle.mb_wire.specs.Links.{risen};

use crate::link::{LastTake, Link, LinkFailed, Took};
use std::marker::Model;

/// A connection for tests, with its input and output in memory. The field `calls` counts reads and
/// writes together.
#[derive(Drop)]
pub struct MemoryLink<'a> {
    input: &'a [u8],
    output: &'a mut [u8],
    filled: usize,
    piece: usize,
    calls: u64,
    fails: Option<u64>,
    failures: u64,
    takes: u64,
    ends: u64,
    last: Option<LastTake>,
}

impl<'a> Model for MemoryLink<'a> {
    ghost use Rattle.std.specs.Prelude.{◌≤◌, length, take};
    ghost use Rattle.mb_wire.specs.MemoryLinks.{Memory};

    ghost Value = { Memory };

    ghost view = { λ link. record {
      input = link.input.now;
      output = take link.filled link.output.now;
      room = length link.output.now;
      piece = link.piece;
      calls = link.calls;
      fails = link.fails;
      failures = link.failures;
      takes = link.takes;
      ends = link.ends;
      last = link.last;
    } };

    ghost invariant = { λ link. (link.filled ≤ length link.output.now) × (1 ≤ link.piece) };
}

impl<'a> MemoryLink<'a> {
    ghost use Rattle.mb_wire.specs.MemoryLinks.{IsFresh};

    /// Creates a test connection over `input` and `output` that moves at most `piece` bytes in each
    /// call. Call number `fails`, counted from 1, fails.
    pub fn new(
        input: &'a [u8],
        output: &'a mut [u8],
        piece: usize,
        fails: Option<u64>,
    ) -> MemoryLink<'a>
        requires { 1 ≤ piece }
        ensures input { result.input ≡ input.entry.now }
        ensures room { result.room ≡ length output.entry.now }
        ensures piece { result.piece ≡ piece }
        ensures fails { result.fails ≡ fails }
        ensures fresh { IsFresh result }
    {
        MemoryLink {
            input,
            output,
            filled: 0,
            piece,
            calls: 0,
            fails,
            failures: 0,
            takes: 0,
            ends: 0,
            last: None,
        }
    }

    /// Returns all bytes written to the connection.
    pub fn given(&self) -> &[u8]
        ensures { result.now ≡ self.now.output }
    {
        &self.output[..self.filled]
    }
}

// Returns whether call number `call` is the call that a test has set to fail.
fn fails_at(fails: Option<u64>, call: u64) -> bool
    ensures { result ≡ is_call fails call }
{
    match fails {
        Some(number) => number == call,
        None => false,
    }
}

impl MemoryLink<'_> {
    ghost use Rattle.std.specs.Prelude.{◌++◌};
    ghost use Rattle.mb_wire.specs.MemoryLinks.{CallsOnce, filled, handed_out, take_answer};

    // Copies bytes of the connection's input to the front of `piece`, or fails if a test has set
    // this call to fail.
    fn hand_out(&mut self, piece: &mut [u8]) -> Result<Took, LinkFailed>
        ensures answered { result ≡ take_answer self.old (length piece.old) }
        ensures bound { TakesAtMost result piece.new }
        ensures piece { piece.new ≡ filled (handed_out result self.old.input) piece.old }
        ensures call { CallsOnce self.old self.new }
        ensures input { self.old.input ≡ handed_out result self.old.input ++ self.new.input }
        ensures output { self.new.output ≡ self.old.output }
        ensures failures { self.new.failures ≡ risen (is_err result) self.old.failures }
        ensures takes { self.new.takes ≡ self.old.takes }
        ensures ends { self.new.ends ≡ risen (is_end result) self.old.ends }
    {
        self.calls = self.calls.saturating_add(1);
        if fails_at(self.fails, self.calls) {
            self.failures = self.failures.saturating_add(1);
            return Err(LinkFailed);
        }
        if self.input.is_empty() {
            self.ends = self.ends.saturating_add(1);
            return Ok(Took::End);
        }
        let count = self.piece.min(piece.len()).min(self.input.len());
        piece[..count].copy_from_slice(&self.input[..count]);
        self.input = &self.input[count..];
        Ok(Took::Bytes(count))
    }
}

impl Link for MemoryLink<'_> {
    ghost use Rattle.std.specs.Io.KnownBytes.{WriteAppends};
    ghost use Rattle.mb_wire.specs.MemoryLinks.{LeavesGive, LeavesTake, filled, give_answer};
    ghost use Rattle.mb_wire.specs.MemoryLinks.{handed_out, take_answer};

    ghost remaining = { λ link. Some link.input };

    ghost given = { λ link. Some link.output };

    ghost failed = { λ link. link.failures };

    ghost taken = { λ link. link.takes };

    ghost ended = { λ link. link.ends };

    ghost last = { λ link. link.last };

    fn take(&mut self, piece: &mut [u8]) -> Result<Took, LinkFailed>
        ensures answered { result ≡ take_answer self.old (length piece.old) }
        ensures bound { TakesAtMost result piece.new }
        ensures bytes { TakeConsumes (Some self.old.input) (Some self.new.input) result piece.new }
        ensures piece { piece.new ≡ filled (handed_out result self.old.input) piece.old }
        ensures after { LeavesTake self.old self.new (length piece.old) result }
    {
        let answer = self.hand_out(piece);
        self.takes = self.takes.saturating_add(1);
        self.last = Some(LastTake {
            room: piece.len(),
            answer,
        });
        answer
    }

    fn give(&mut self, bytes: &[u8]) -> Result<usize, LinkFailed>
        ensures answered { result ≡ give_answer self.old (length bytes.now) }
        ensures bound { IfOk result (λ n. n ≤ length bytes.now) }
        ensures bytes { WriteAppends (Some self.old.output)
            (Some self.new.output) result bytes.now }
        ensures after { LeavesGive self.old self.new result bytes.now }
    {
        self.calls = self.calls.saturating_add(1);
        let free = self.output.len() - self.filled;
        if free == 0 || fails_at(self.fails, self.calls) {
            self.failures = self.failures.saturating_add(1);
            return Err(LinkFailed);
        }
        let count = self.piece.min(bytes.len()).min(free);
        if count == 0 {
            return Ok(0);
        }
        let end = self.filled + count;
        self.output[self.filled..end].copy_from_slice(&bytes[..count]);
        self.filled = end;
        Ok(count)
    }

    fn failures(&self) -> u64 {
        self.failures
    }

    fn takes(&self) -> u64 {
        self.takes
    }

    fn last_take(&self) -> Option<LastTake> {
        self.last
    }
}
