//! Limits the bytes of commands that clients may add to the store, because the store keeps every
//! executed command.
ghost use Rattle.std.specs.Prelude.{◌≡◌};
ghost use Rattle.office_running.specs.Http.KeptRoom as kept;
ghost use Rattle.office_running.specs.Http.KeptRoom.{Acknowledges, Counts, IsCommand, Lacks, Rejects};

use office_http::messages::{HeadState, parse_head};
use run_http::ClientResponse;

/// The number of bytes of commands that may still be stored. The store records each executed
/// command permanently, and reads all commands whenever it is opened.
#[derive(Clone, Copy, PartialEq, Eq)]
pub struct KeptRoom {
    left: u64,
}

/// Returns whether a request is a command (POST). Empty lines may precede its head (RFC 9112,
/// section 2.2).
pub(crate) fn is_command(request: &[u8]) -> bool
    ensures { IsCommand request.now result }
{
    let head_state = parse_head(request);
    match &head_state {
        HeadState::Whole(head) => head.method.of(request) == b"POST".as_slice(),
        HeadState::Open | HeadState::TooLarge | HeadState::NoHead => false,
    }
}

// Returns true if a response has status 200, so the request's command was executed, now or for an
// earlier request with the same idempotency key.
fn has_acted(reply: &ClientResponse) -> bool
    ensures { result ≡ kept.has_acted reply.now }
{
    match reply {
        ClientResponse::Replied(text) => text.starts_with(b"HTTP/1.1 200 "),
        ClientResponse::Open | ClientResponse::Failed => false,
    }
}

/// Returns whether a response acknowledges a command. The client may then rely on the command being
/// stored.
pub(crate) fn is_acknowledged(request: &[u8], reply: &ClientResponse) -> bool
    ensures { Acknowledges request.now reply.now result }
{
    is_command(request) && has_acted(reply)
}

impl KeptRoom {
    /// Creates the number of bytes of commands that may still be stored: the limit `most` less the
    /// `taken` bytes that are stored. If `most` is `None`, there is no limit.
    pub fn new(most: Option<u64>, taken: u64) -> KeptRoom
        ensures { result.left ≡ kept.room_of most taken }
    {
        let left = match most {
            Some(most) => most.saturating_sub(taken),
            None => u64::MAX,
        };
        KeptRoom { left }
    }

    /// Returns whether a request is a command with more bytes than the limit on stored commands
    /// still allows.
    pub fn lacks(&self, request: &[u8]) -> bool
        ensures { Lacks self.now.left request.now result }
    {
        is_command(request) && request.len() as u64 > self.left
    }

    /// Returns whether to reject a request. A command is rejected if it exceeds the bytes that may
    /// still be stored, or if a file of the store is missing.
    pub fn rejects(&self, request: &[u8], is_lost: bool) -> bool
        ensures { Rejects self.now.left is_lost request.now result }
    {
        is_command(request) && (request.len() as u64 > self.left || is_lost)
    }

    /// Subtracts the length of the complete request of an executed command from the bytes that may
    /// still be stored. The store needs fewer bytes, because it stores neither HTTP heads nor
    /// repeated requests.
    pub fn count(&mut self, request: &[u8], reply: &ClientResponse)
        ensures { Counts self.old.left self.new.left request.now reply.now }
    {
        if is_command(request) && has_acted(reply) {
            self.left = self.left.saturating_sub(request.len() as u64);
        }
    }
}
