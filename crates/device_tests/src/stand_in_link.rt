//! A connection to a simulated device in the same process, for tests.
ghost use Rattle.std.specs.Prelude.{◌≤◌, ◌<◌, length};

use mb_device::{Bank, Server, Trick};
use mb_wire::{LastTake, Link, LinkFailed, MemoryLink, Took};

/// The greatest number of response bytes that a connection to a simulated device in the same
/// process can buffer.
const ROOM: usize = 1024;

/// A connection to a simulated device that responds to each write immediately. A read without a
/// response times out. After an injected fault closes the connection, the connection's input ends.
#[derive(Drop)]
pub(crate) struct SimulatorLink<'t> {
    server: Server<'t>,
    bank: Bank,
    answers: [u8; ROOM],
    // The range of response bytes in the connection's buffer that were not read yet.
    start: usize,
    end: usize,
    is_over: bool,
    gives: u64,
    takes: u64,
    ends: u64,
    last: Option<LastTake>,
    ghost ordered: { start ≤ end },
    ghost within: { end ≤ 1024 },
}

impl<'t> SimulatorLink<'t> {
    pub(crate) fn new(bank: Bank, tricks: &'t [(u64, Trick)]) -> SimulatorLink<'t> {
        SimulatorLink {
            server: Server::tricked(tricks),
            bank,
            answers: [0; ROOM],
            start: 0,
            end: 0,
            is_over: false,
            gives: 0,
            takes: 0,
            ends: 0,
            last: None,
        }
    }

    /// Returns the number of writes to a connection to a simulated device, one for each request.
    pub(crate) fn gives(&self) -> u64 {
        self.gives
    }
}

// Returns the number of response bytes written to the front of `answers`, and whether the
// connection was closed.
fn answer_to(
    server: &mut Server<'_>,
    bank: &mut Bank,
    bytes: &[u8],
    answers: &mut [u8; ROOM],
) -> (usize, bool)
    ensures { result.0 ≤ 1024 }
{
    let mut link = MemoryLink::new(bytes, answers, ROOM, None);
    let turned = server.turn(&mut link, bank);
    let is_over = match turned {
        Ok(turned) => turned.ended,
        Err(_) => true,
    };
    (link.given().len().min(ROOM), is_over)
}

// Copies bytes to the front of a buffer, and returns the number of bytes copied.
fn copy(bytes: &[u8], piece: &mut [u8]) -> usize
    ensures within { result ≤ length bytes.now }
    ensures fits { result ≤ length piece.new }
    ensures moves { 0 < length bytes.now → 0 < length piece.new → 0 < result }
{
    let count = bytes.len().min(piece.len());
    piece[..count].copy_from_slice(&bytes[..count]);
    count
}

impl Link for SimulatorLink<'_> {
    ghost failed = { λ link. 0 };

    ghost taken = { λ link. link.takes };

    ghost ended = { λ link. link.ends };

    ghost last = { λ link. link.last };

    fn take(&mut self, piece: &mut [u8]) -> Result<Took, LinkFailed> {
        self.takes = self.takes.saturating_add(1);
        let answer = if self.start < self.end {
            let count = copy(&self.answers[self.start..self.end], piece);
            self.start += count;
            Ok(Took::Bytes(count))
        } else if self.is_over {
            self.ends = self.ends.saturating_add(1);
            Ok(Took::End)
        } else {
            Ok(Took::Idle)
        };
        self.last = Some(LastTake {
            room: piece.len(),
            answer,
        });
        answer
    }

    fn give(&mut self, bytes: &[u8]) -> Result<usize, LinkFailed> {
        self.gives = self.gives.saturating_add(1);
        let mut answers = [0; ROOM];
        let kept = copy(&self.answers[self.start..self.end], &mut answers);
        let mut fresh = [0; ROOM];
        let (count, is_over) = answer_to(&mut self.server, &mut self.bank, bytes, &mut fresh);
        let added = copy(&fresh[..count], &mut answers[kept..]);
        self.answers = answers;
        self.start = 0;
        self.end = kept + added;
        self.is_over = is_over;
        Ok(bytes.len())
    }

    fn failures(&self) -> u64 {
        0
    }

    fn takes(&self) -> u64 {
        self.takes
    }

    fn last_take(&self) -> Option<LastTake> {
        self.last
    }
}
