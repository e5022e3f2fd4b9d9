//! Limits the memory for HTTP responses that clients have not yet read.
ghost use Rattle.std.specs.Prelude.{◌≡◌};
ghost use Rattle.run_schedule.specs.HttpClients.HeldReplies as specs;
ghost use Rattle.run_schedule.specs.HttpClients.HeldReplies.{HoldsLittle};

/// The limit in bytes for unread responses: 64 KiB for each client slot. At the limit, the server
/// answers no further request.
const MOST_HELD: usize = 4_194_304;

/// Returns whether the server may answer another request while `held` bytes of responses are
/// unread.
pub fn may_reply(held: usize) -> bool
    ensures { result ≡ specs.may_reply held }
{
    held < MOST_HELD
}

/// Theorem: if the server makes responses only while `may_reply` allows it (less than 4 MiB are
/// unread), the unread responses take less than 4 MiB plus the longest response.
pub fn little_is_held()
    ensures { HoldsLittle }
{}
