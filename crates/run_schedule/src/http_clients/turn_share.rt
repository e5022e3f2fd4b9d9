//! Limits the HTTP responses in one iteration of the main loop, and defines the order in which the
//! client slots are served.
ghost use Rattle.std.specs.Prelude.{◌≡◌, ◌<◌, ℕ, List};
ghost use Rattle.run_schedule.specs.HttpClients.TurnShares as shares;
ghost use Rattle.run_schedule.specs.HttpClients.TurnShares.{AreFew, MayReply};

use crate::http_clients::client_slots::MOST_CLIENTS;

/// The limit in bytes for the responses of one iteration of the main loop. Further requests wait
/// for the next iteration. The rows of a meter over two years are 1.8 MB and take 50 to 100 ms, so
/// the limit amounts to some 10 ms. A response that exceeds the limit is still sent.
const MOST_BYTES: usize = 262_144;

/// The limit in milliseconds for making the responses of one iteration of the main loop. A report
/// by month has few bytes, but making it takes as long as a report on all its rows.
const MOST_MILLISECONDS: u64 = 20;

/// The requests, bytes and milliseconds that one iteration of the main loop may still use for HTTP
/// responses.
#[derive(Clone, Copy, PartialEq, Eq)]
pub struct TurnShare {
    requests: usize,
    bytes: usize,
    milliseconds: u64,
}

impl TurnShare {
    /// Returns the limits on the HTTP responses of one iteration of the main loop: their number,
    /// their bytes and their duration. At its beginning, an iteration has used nothing of them.
    pub fn whole() -> TurnShare
        ensures { result ≡ shares.whole }
    {
        TurnShare {
            requests: MOST_CLIENTS,
            bytes: MOST_BYTES,
            milliseconds: MOST_MILLISECONDS,
        }
    }

    /// Returns whether one of the limits for HTTP responses is used up. Then all further requests
    /// wait for the next iteration of the main loop.
    pub fn is_over(self) -> bool
        ensures { result ≡ shares.is_over self }
    {
        self.requests == 0 || self.bytes == 0 || self.milliseconds == 0
    }

    /// Returns what remains of the limits of a main loop iteration after a response of `bytes`
    /// bytes that took `milliseconds` to make.
    pub fn after(self, bytes: usize, milliseconds: u64) -> TurnShare
        ensures { result ≡ shares.after self bytes milliseconds }
    {
        TurnShare {
            requests: self.requests.saturating_sub(1),
            bytes: self.bytes.saturating_sub(bytes),
            milliseconds: self.milliseconds.saturating_sub(milliseconds),
        }
    }
}

/// Theorem: if each response begins before a limit of the main loop's iteration is used up, the
/// iteration has at most 64 responses. The responses before the latest take less than 256 KiB in
/// total, and took less than 20 ms in total to make.
pub fn replies_are_few()
    ensures { (replies : List (ℕ × ℕ)) → MayReply replies → AreFew replies }
{}

/// Returns the client slot that is `step` slots after slot `first`. Slot 0 follows the last slot.
pub fn place_at(first: usize, step: usize) -> usize
    ensures place { result < 64 }
    ensures round { first < 64 → step < 64 → result ≡ shares.place_at first step }
{
    first.saturating_add(step) % MOST_CLIENTS
}

/// Theorem: the order in which an iteration of the main loop serves the client slots includes every
/// slot. Suppose that slot `other` comes before slot `place` in this order, and the next iteration
/// begins directly after slot `other`. Then fewer slots come before slot `place` in the next
/// iteration.
pub fn turns_go_round()
    ensures each { (first place : ℕ) → first < 64 → place < 64
        → shares.place_at first (shares.before place first) ≡ place }
    ensures nearer { (first place other : ℕ) → first < 64 → place < 64 → other < 64
        → shares.before other first < shares.before place first
        → shares.before place (shares.place_at other 1) < shares.before place first }
{}
