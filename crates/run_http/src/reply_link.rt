//! An in-memory connection from which the program reads a request, and to which it writes the
//! response.
ghost use Rattle.std.specs.Prelude.{Some};

use mb_wire::{LastTake, Link, LinkFailed, Took};
use std::alloc::Global;

/// A connection in memory, without a socket. A read returns bytes of a request, and a write appends
/// to the response. A write fails if memory runs out.
#[derive(Drop)]
pub struct ReplyLink<'a> {
    pub input: &'a [u8],
    pub reply: Vec<u8>,
    failures: u64,
    takes: u64,
    ends: u64,
    last: Option<LastTake>,
}

impl<'a> ReplyLink<'a> {
    ghost use Rattle.std.specs.Prelude.{◌≡◌, [], None};

    /// Makes an in-memory connection that reads the bytes `input` and has written nothing.
    pub fn new(alloc: Global, input: &'a [u8]) -> ReplyLink<'a>
        ensures input { result.input.now ≡ input.entry.now }
        ensures reply { result.reply.items ≡ [] }
        ensures failures { result.failures ≡ 0 }
        ensures takes { result.takes ≡ 0 }
        ensures last { result.last ≡ None }
    {
        ReplyLink {
            input,
            reply: Vec::new(alloc),
            failures: 0,
            takes: 0,
            ends: 0,
            last: None,
        }
    }

    /// Returns the bytes that were written to the in-memory connection.
    pub fn into_reply(self) -> Vec<u8>
        ensures { result ≡ self.entry.reply }
    {
        let ReplyLink {
            input: _,
            reply,
            failures: _,
            takes: _,
            ends: _,
            last: _,
        } = self;
        reply
    }
}

impl Link for ReplyLink<'_> {
    ghost remaining = { λ link. Some link.input.now };

    ghost given = { λ link. Some link.reply.items };

    ghost failed = { λ link. link.failures };

    ghost taken = { λ link. link.takes };

    ghost ended = { λ link. link.ends };

    ghost last = { λ link. link.last };

    fn take(&mut self, piece: &mut [u8]) -> Result<Took, LinkFailed> {
        self.takes = self.takes.saturating_add(1);
        if self.input.is_empty() {
            self.ends = self.ends.saturating_add(1);
            self.last = Some(LastTake {
                room: piece.len(),
                answer: Ok(Took::End),
            });
            return Ok(Took::End);
        }
        let count = piece.len().min(self.input.len());
        piece[..count].copy_from_slice(&self.input[..count]);
        self.input = &self.input[count..];
        self.last = Some(LastTake {
            room: piece.len(),
            answer: Ok(Took::Bytes(count)),
        });
        Ok(Took::Bytes(count))
    }

    fn give(&mut self, bytes: &[u8]) -> Result<usize, LinkFailed> {
        match self.reply.extend_from_slice(bytes) {
            Ok(()) => Ok(bytes.len()),
            Err(_) => {
                self.failures = self.failures.saturating_add(1);
                Err(LinkFailed)
            }
        }
    }

    fn failures(&self) -> u64 {
        self.failures
    }

    fn takes(&self) -> u64 {
        self.takes
    }

    fn last_take(&self) -> Option<LastTake> {
        self.last
    }
}
