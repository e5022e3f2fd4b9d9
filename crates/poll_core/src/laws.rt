//! Theorems about a polling session, for any list of events (starts of polls, received bytes, timer
//! events, and the end of the connection). For example, each started poll is completed once or is
//! pending.
ghost use Rattle.std.specs.Prelude.{◌≡◌, ℕ, List, [], length, slice_get};
ghost use Rattle.std.specs.List.{All};
ghost use Rattle.std.specs.List.Sorted.{IsPermutation};
ghost use Rattle.mb_wire.specs.Replies.{Answer, word_at};
ghost use Rattle.poll_core.specs.Polls.{Poll};
ghost use Rattle.poll_core.specs.Settling.{Event, Answered, outcomes_at, pending, answer, words_in};
ghost use Rattle.poll_core.specs.Laws.{AddsOutcomes, AddsResults, IsOverAfter, LeavesPending};
ghost use Rattle.poll_core.specs.Laws.{SettledOrPending, SettlesNoLess, SettlesPending, Waits};
ghost use Rattle.poll_core.specs.Laws.{outcomes_by_event, outcomes_by_poll};

use mb_wire::one_reading;

/// Theorem: each started poll is completed once or is pending. The outcomes listed event by event
/// are those listed poll by poll, possibly in another order.
pub fn each_once()
    ensures polls { (timeout : ℕ) (events : List Event) → SettledOrPending timeout events }
    ensures outcomes { (timeout : ℕ) (events : List Event) →
        IsPermutation (outcomes_by_poll timeout events) (outcomes_by_event timeout events) }
{}

/// Theorem: each event completes pending polls independently of each other, and may start a poll.
/// An event completes nothing if no poll is pending.
pub fn one_event_more()
    ensures outcomes { (timeout : ℕ) (events : List Event) (event : Event) →
        AddsOutcomes timeout events event }
    ensures settled { (timeout : ℕ) (events : List Event) (event : Event) →
        SettlesPending timeout events event }
    ensures pending { (timeout : ℕ) (events : List Event) (event : Event) →
        LeavesPending timeout events event }
    ensures results { (timeout : ℕ) (events : List Event) (event : Event) →
        AddsResults timeout events event }
    ensures nobody { (timeout : ℕ) (events : List Event) (event : Event) →
        pending timeout events ≡ [] → outcomes_at timeout events event ≡ [] }
{}

/// Theorem: each pending poll of a polling session was started by one of the session's events, and
/// no later event of the session completed it.
pub fn pending_waits()
    ensures { (timeout : ℕ) (events : List Event)
        → All (Waits timeout events) (pending timeout events) }
{}

/// Theorem: after a polling session received an invalid length field or was closed, the session has
/// no pending polls, and no event completes a poll.
pub fn over_for_good()
    ensures nobody { (timeout window : ℕ) (events : List Event) →
        IsOverAfter timeout window events → pending timeout events ≡ [] }
    ensures nothing { (timeout window : ℕ) (events : List Event) (event : Event) →
        IsOverAfter timeout window events → outcomes_at timeout events event ≡ [] }
{}

/// Theorem: a successful response has as many registers as the poll requested. The borrowed `Reply`
/// has the same registers.
pub fn whole_answers()
    ensures words { (answer : Answer) (i : ℕ) → word_at answer i ≡ slice_get (words_in answer) i }
    ensures count { (poll : Poll) (frame words : List ℕ) → answer poll frame ≡ Answered words
        → length words ≡ poll.span.count }
{}

/// Theorem: if a received chunk completes a poll, each longer chunk with the same beginning
/// completes a poll too.
pub fn longer_pieces_settle()
    ensures { (timeout : ℕ) (events : List Event) (moment : ℕ) (piece more : List ℕ) →
        SettlesNoLess timeout events moment piece more }
{
    one_reading();
}
