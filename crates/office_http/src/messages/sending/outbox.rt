//! A write buffer that collects the bytes of a response before they are written to the client's
//! connection.
ghost use Rattle.std.specs.Prelude.{◌≡◌, ◌≤◌, ◌<◌, ◌+◌, ◌++◌, [], length};
ghost use Rattle.std.specs.Prelude.{true, false, not, ◌&&◌};
ghost use Rattle.std.specs.Io.KnownBytes.{Keeps};
ghost use Rattle.mb_wire.specs.Links.{risen};

use mb_wire::{Link, give_all};

// The size of the write buffer in bytes.
const ROOM: usize = 512;

// A write buffer for a client's connection. After the first failed write, the buffer drops all
// bytes.
#[derive(Drop)]
pub(crate) struct Outbox {
    pub(crate) buffered: [u8; 512],
    pub(crate) filled: usize,
    pub(crate) failed: bool,
    ghost room: { filled ≤ length buffered },
}

impl Outbox {
    ghost use Rattle.office_http.specs.Messages.Sending.Sending.{PutsAfter, PutsNothing};
    ghost use Rattle.office_http.specs.Messages.Sending.Holding.{buffered_in, progress};

    pub(crate) fn new() -> Outbox
        ensures works { result.failed ≡ false }
        ensures empty { buffered_in result ≡ [] }
    {
        Outbox {
            buffered: [0; 512],
            filled: 0,
            failed: false,
        }
    }

    pub(crate) fn has_failed(&self) -> bool
        ensures { result ≡ self.now.failed }
    {
        self.failed
    }

    // Writes the buffered bytes to the client's connection.
    pub(crate) fn flush<L: Link>(&mut self, link: &mut L)
        ensures sends { PutsNothing (progress (L.given link.old) self.old)
            (progress (L.given link.new) self.new) }
        ensures empty { self.new.failed ≡ false → buffered_in self.new ≡ [] }
        ensures stays { self.old.failed ≡ true → self.new.failed ≡ true }
        ensures failures { L.failed link.new
            ≡ risen (self.new.failed && not self.old.failed) (L.failed link.old) }
        ensures remaining { Keeps (L.remaining link.old) (L.remaining link.new) }
        ensures takes { L.taken link.new ≡ L.taken link.old }
        ensures last { L.last link.new ≡ L.last link.old }
    {
        if self.failed {
            return;
        }
        let whole = give_all(link, &self.buffered[..self.filled]);
        self.failed = whole.is_err();
        self.filled = 0;
    }

    // Writes the buffered bytes to the client's connection if the buffer has no room for `count`
    // more bytes.
    fn make_room<L: Link>(&mut self, link: &mut L, count: usize)
        ensures sends { PutsNothing (progress (L.given link.old) self.old)
            (progress (L.given link.new) self.new) }
        ensures room { self.new.failed ≡ false → 512 < self.new.filled + count
            → buffered_in self.new ≡ [] }
        ensures stays { self.old.failed ≡ true → self.new.failed ≡ true }
        ensures failures { L.failed link.new
            ≡ risen (self.new.failed && not self.old.failed) (L.failed link.old) }
        ensures remaining { Keeps (L.remaining link.old) (L.remaining link.new) }
        ensures takes { L.taken link.new ≡ L.taken link.old }
        ensures last { L.last link.new ≡ L.last link.old }
    {
        if count > ROOM - self.filled {
            self.flush(link);
        }
    }

    // Appends bytes of a response to the write buffer.
    fn hold(&mut self, bytes: &[u8])
        requires { self.old.filled + length bytes.now ≤ 512 }
        ensures buffered { buffered_in self.new ≡ buffered_in self.old ++ bytes.now }
        ensures failed { self.new.failed ≡ self.old.failed }
    {
        let end = self.filled + bytes.len();
        self.buffered[self.filled..end].copy_from_slice(bytes);
        self.filled = end;
    }

    // Writes bytes of a response directly to the client's connection. The write buffer must be
    // empty.
    fn pass<L: Link>(&mut self, link: &mut L, bytes: &[u8])
        requires works { self.old.failed ≡ false }
        requires empty { buffered_in self.old ≡ [] }
        ensures sends { PutsAfter (progress (L.given link.old) self.old)
            (progress (L.given link.new) self.new) bytes.now }
        ensures failures { L.failed link.new ≡ risen self.new.failed (L.failed link.old) }
        ensures remaining { Keeps (L.remaining link.old) (L.remaining link.new) }
        ensures takes { L.taken link.new ≡ L.taken link.old }
        ensures last { L.last link.new ≡ L.last link.old }
    {
        self.failed = give_all(link, bytes).is_err();
    }

    // Sends bytes after all earlier bytes of a response: through the write buffer if they fit,
    // otherwise directly.
    pub(crate) fn write_bytes<L: Link>(&mut self, link: &mut L, bytes: &[u8])
        ensures sends { PutsAfter (progress (L.given link.old) self.old)
            (progress (L.given link.new) self.new) bytes.now }
        ensures stays { self.old.failed ≡ true → self.new.failed ≡ true }
        ensures failures { L.failed link.new
            ≡ risen (self.new.failed && not self.old.failed) (L.failed link.old) }
        ensures remaining { Keeps (L.remaining link.old) (L.remaining link.new) }
        ensures takes { L.taken link.new ≡ L.taken link.old }
        ensures last { L.last link.new ≡ L.last link.old }
    {
        self.make_room(link, bytes.len());
        if self.failed {
            return;
        }
        if bytes.len() > ROOM - self.filled {
            self.pass(link, bytes);
        } else {
            self.hold(bytes);
        }
    }
}
