//! Theorems about the order of polls and their outcomes.
ghost use Rattle.office_books.specs.History.{History, facts_of};
ghost use Rattle.office_books.specs.Refusals.{AreAccepted};
ghost use Rattle.office_books.specs.PollOrder.{PollsFit};

use crate::endings::polls_end_once;
use poll_core::one_event_more;

/// Proves for all accepted events that poll numbers are consecutive, that the device of each poll
/// is recorded, and that only pending polls get an outcome.
pub fn polls_fit()
    ensures { (history : History) → AreAccepted history → PollsFit (facts_of history) }
{
    one_event_more();
    polls_end_once();
}
