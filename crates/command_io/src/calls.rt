//! A reader that counts the calls of `read`.
ghost use Rattle.std.specs.Prelude.{◌≡◌, ◌+◌, ◌<◌, false, is_err};
ghost use Rattle.std.specs.Io.{ReadsAtMost};
ghost use Rattle.std.specs.Io.KnownBytes.{ReadConsumes};

use std::io::{self, Read};

/// A reader with the number of `read` calls so far, and a flag for a failed call.
#[derive(Drop)]
pub(crate) struct Calls<'r, R: Read> {
    pub(crate) input: &'r mut R,
    pub(crate) made: usize,
    pub(crate) failed: bool,
}

impl<'r, R: Read> Calls<'r, R> {
    pub(crate) fn new(input: &'r mut R) -> Self
        ensures input { result.input.now ≡ input.old }
        ensures none { result.made ≡ 0 }
        ensures works { result.failed ≡ false }
    {
        Calls {
            input,
            made: 0,
            failed: false,
        }
    }

    /// Calls `read` once. The contract forbids a call after a failed call.
    pub(crate) fn read(&mut self, piece: &mut [u8]) -> io::Result<usize>
        requires few { self.old.made < 4194305 }
        requires works { self.old.failed ≡ false }
        ensures made { self.new.made ≡ self.old.made + 1 }
        ensures failed { self.new.failed ≡ is_err result }
        ensures bound { ReadsAtMost result piece.new }
        ensures bytes { ReadConsumes (R.remaining self.old.input.now)
            (R.remaining self.new.input.now) result piece.new }
    {
        let count = self.input.read(piece);
        self.made += 1;
        self.failed = count.is_err();
        count
    }
}
