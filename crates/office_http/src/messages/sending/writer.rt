//! A buffered writer of HTTP responses to a client's connection.
ghost use Rattle.std.specs.Prelude.{◌≡◌, ◌≤◌, ℕ, List, [], Option, take, false, is_err};
ghost use Rattle.office_http.specs.Messages.Sending.Giving.{Gives};
ghost use Rattle.office_http.specs.Messages.Sending.Sending.{HasPut, OnlyGives, Outgoing, Puts};

use crate::messages::sending::outbox::Outbox;
use mb_wire::{Link, LinkFailed};
use std::marker::Model;

/// A buffered writer to a client's connection. After the first failed write, the writer drops all
/// bytes.
#[derive(Drop)]
pub struct ResponseWriter<'l, L: Link> {
    link: &'l mut L,
    outbox: Outbox,
}

impl<'l, L: Link> Model for ResponseWriter<'l, L> {
    ghost Value = { Outgoing };

    ghost view = { λ writer. record {
      link = writer.link.ghost_name;
      given = L.given writer.link.now;
      remaining = L.remaining writer.link.now;
      failures = L.failed writer.link.now;
      takes = L.taken writer.link.now;
      last = L.last writer.link.now;
      buffered = take writer.outbox.filled writer.outbox.buffered;
      failed = writer.outbox.failed;
    } };
}

impl<'l, L: Link> ResponseWriter<'l, L> {
    /// Makes a writer to this client's connection, with an empty write buffer.
    pub fn new(link: &'l mut L) -> ResponseWriter<'l, L>
        ensures link { result.link ≡ link.entry.ghost_name }
        ensures given { result.given ≡ L.given link.entry.now }
        ensures failures { result.failures ≡ L.failed link.entry.now }
        ensures takes { result.takes ≡ L.taken link.entry.now }
        ensures last { result.last ≡ L.last link.entry.now }
        ensures remaining { result.remaining ≡ L.remaining link.entry.now }
        ensures empty { result.buffered ≡ [] }
        ensures works { result.failed ≡ false }
    {
        ResponseWriter {
            link,
            outbox: Outbox::new(),
        }
    }

    /// Sends bytes after all earlier bytes of the response, through the write buffer.
    pub fn write_bytes(&mut self, bytes: &[u8])
        ensures { Puts self.old self.new bytes.now }
    {
        self.outbox.write_bytes(self.link, bytes);
    }

    /// Writes the buffered bytes to the client's connection. Returns `Ok` if all bytes of the
    /// response were written.
    pub fn finish(&mut self) -> Result<(), LinkFailed>
        ensures given { (base : Option (List ℕ)) (all : List ℕ) → HasPut base self.old all
            → Gives result base self.new.given all }
        ensures failed { is_err result ≡ self.new.failed }
        ensures link { OnlyGives self.old self.new }
    {
        self.outbox.flush(self.link);
        if self.outbox.has_failed() {
            Err(LinkFailed)
        } else {
            Ok(())
        }
    }

    /// Returns the client's connection, and drops the bytes that are still buffered.
    pub fn into_link(self) -> &'l mut L
        ensures link { result.ghost_name ≡ self.entry.link }
        ensures given { L.given result.now ≡ self.entry.given }
        ensures remaining { L.remaining result.now ≡ self.entry.remaining }
        ensures failures { L.failed result.now ≡ self.entry.failures }
        ensures takes { L.taken result.now ≡ self.entry.takes }
        ensures last { L.last result.now ≡ self.entry.last }
    {
        let ResponseWriter { link, outbox: _ } = self;
        link
    }
}
